// Why connections are no longer served.
use byte_links::LinkError;

/// Why the serving of connections was given up.
#[derive(Clone, Copy, Debug, PartialEq, Eq)]
pub enum ServingError {
    /// The listener handed out no connection, and counted a fault.
    AcceptFailed,
    /// There was no memory.
    Memory,
}

impl From<LinkError> for ServingError {
    ghost use Rattle.std.specs.Prelude.{◌≡◌};
    ghost use Rattle.range_serving.specs.Serving.{error_of};

    ghost from_gives = { λ error refusal. refusal ≡ error_of error };

    fn from(error: LinkError) -> Self {
        match error {
            LinkError::Failed => ServingError::AcceptFailed,
            LinkError::Memory => ServingError::Memory,
        }
    }
}
