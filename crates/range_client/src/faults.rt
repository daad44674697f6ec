// What goes wrong.
ghost use Rattle.std.specs.Prelude.{◌≡◌};
ghost use Rattle.fgb_outside.specs.declared.sources.SourceError.TheVariants as source;
ghost use Rattle.range_client.specs.declared.faults.Fault.TheVariants.{Bad, Memory};
ghost use Rattle.range_client.specs.Faults.{fault_of, source_error};

use byte_links::{Link, LinkError};
use fgb_outside::SourceError;
use std::alloc::{AllocError, AllocFailed};

/// How a reply is none that was asked for: the first of these that holds.
#[derive(Clone, Copy, Debug, PartialEq, Eq)]
pub enum BadKind {
    /// The input ended before the reply was whole.
    Ended,
    /// 8,192 bytes hold no end of a head, or the head is none of HTTP/1.0 or 1.1 with at most 32 fields.
    Head,
    /// Its status is another.
    Status,
    /// It has not exactly one Content-Range field, or that tells something else.
    ContentRange,
    /// It has not exactly one Content-Length field, or that tells something else.
    Length,
}

/// Why there is no client.
#[derive(Debug, Drop)]
pub enum ConnectError {
    /// There was no memory.
    Memory,
    /// A call of the link failed.
    LinkFailed,
    /// The reply is none that was asked for: how, and the bytes of its head, as far as they came.
    BadReply(BadKind, Vec<u8>),
}

/// Why there is no client, and the link that it would have spoken over.
#[derive(Drop)]
pub struct ConnectRefused<L: Link> {
    pub link: L,
    pub error: ConnectError,
}

/// What stopped a request or its reply.
#[derive(Clone, Copy, Debug, PartialEq, Eq)]
pub(crate) enum Fault {
    /// There was no memory.
    Memory,
    /// A call of the link failed.
    LinkFailed,
    /// The reply is none that was asked for.
    Bad(BadKind),
}

impl From<AllocError> for Fault {
    ghost from_gives = { λ _ fault. fault ≡ Memory };

    fn from(_: AllocError) -> Self {
        Fault::Memory
    }
}

impl<T: Drop> From<AllocFailed<T>> for Fault {
    ghost from_gives = { λ _ fault. fault ≡ Memory };

    fn from(_: AllocFailed<T>) -> Self {
        Fault::Memory
    }
}

impl From<LinkError> for Fault {
    ghost from_gives = { λ error fault. fault ≡ fault_of error };

    fn from(error: LinkError) -> Self {
        match error {
            LinkError::Failed => Fault::LinkFailed,
            LinkError::Memory => Fault::Memory,
        }
    }
}

impl From<BadKind> for Fault {
    ghost from_gives = { λ kind fault. fault ≡ Bad kind };

    fn from(kind: BadKind) -> Self {
        Fault::Bad(kind)
    }
}

impl Fault {
    /// What a source answers after it.
    pub(crate) fn source_error(self) -> SourceError
        ensures { result ≡ source_error self }
    {
        match self {
            Fault::Memory => SourceError::Memory,
            Fault::LinkFailed | Fault::Bad(_) => SourceError::Failed,
        }
    }
}
