// A link over which bytes go both ways.
ghost use Rattle.std.specs.Prelude.{◌≡◌, ◌<◌, length};
ghost use Rattle.byte_links.specs.declared.links.LinkError.TheVariants.{Memory};
ghost use Rattle.byte_links.specs.Link.{LinkState, Receives, Sends};

use std::alloc::{AllocError, AllocFailed};

/// Why a call on a link, or on what hands out links, did not do its work.
#[derive(Clone, Copy, Debug, PartialEq, Eq)]
pub enum LinkError {
    /// The call failed, and a fault was counted.
    Failed,
    /// There was no memory.
    Memory,
}

impl From<AllocError> for LinkError {
    ghost from_gives = { λ _ e. e ≡ Memory };

    fn from(_: AllocError) -> Self {
        LinkError::Memory
    }
}

impl<T: Drop> From<AllocFailed<T>> for LinkError {
    ghost from_gives = { λ _ e. e ≡ Memory };

    fn from(_: AllocFailed<T>) -> Self {
        LinkError::Memory
    }
}

/// A connection over which bytes go both ways.
pub trait Link: Drop {
    /// The bytes received and sent, where they are told, its counts of faults and of ends of input, and, where it is told,
    /// the image that its other end serves.
    ghost shown: { Self → LinkState };

    /// Places bytes that have come at the front of `into`, and answers how many; 0 is the end of input. After an error what
    /// `into` holds is open.
    fn read(&mut self, into: &mut [u8]) -> Result<usize, LinkError>
        requires not_empty { 0 < length into.old }
        ensures { Receives (shown self.old) (shown self.new) into.new result };

    /// Sends the piece. After an error a front of it was sent.
    fn write(&mut self, bytes: &[u8]) -> Result<(), LinkError>
        ensures { Sends (shown self.old) (shown self.new) bytes.now result };
}
