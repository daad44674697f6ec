// What was done over one connection.
use byte_links::LinkError;
use range_reply::Reply;

/// How many replies were wholly written, and how many bytes they have. A number of bytes that would pass the last value of
/// 64 bits stays there.
#[derive(Clone, Copy, Debug, PartialEq, Eq)]
pub struct Receipt {
    pub requests: u64,
    pub sent: u64,
}

impl Receipt {
    ghost use Rattle.std.specs.Prelude.{◌≡◌, ◌+◌, ◌-◌, ◌≤◌, ◌<◌, ◌^◌, min, length};
    ghost use Rattle.range_reply.specs.Written.{body_of, head_of};
    ghost use Rattle.range_server.specs.Sending.{no_receipt};

    /// That of no reply.
    pub(crate) fn none() -> Receipt
        ensures { result ≡ no_receipt }
    {
        Receipt {
            requests: 0,
            sent: 0,
        }
    }

    /// With one reply more.
    pub(crate) fn with(self, reply: &Reply) -> Receipt
        requires more { self.requests < 2 ^ 64 - 1 }
        requires small { (body_of reply.now).1 ≤ 2 ^ 48 }
        ensures { result ≡ record {
          requests = self.requests + 1;
          sent = min (self.sent + (length (head_of reply.now) + (body_of reply.now).1)) (2 ^ 64 - 1);
        } }
    {
        Receipt {
            requests: self.requests + 1,
            sent: self
                .sent
                .saturating_add(reply.head().len() as u64 + reply.body().1),
        }
    }
}

/// Why a connection was given up, and what was done over it until then.
#[derive(Clone, Copy, Debug, PartialEq, Eq)]
pub enum ServeError {
    /// There was no memory.
    Memory(Receipt),
    /// A call on the link failed.
    LinkFailed(Receipt),
}

impl ServeError {
    ghost use Rattle.std.specs.Prelude.{◌≡◌};
    ghost use Rattle.range_server.specs.Sending.{error_of};

    /// That of a call on the link.
    pub(crate) fn of(error: LinkError, receipt: Receipt) -> ServeError
        ensures { result ≡ error_of error receipt }
    {
        match error {
            LinkError::Memory => ServeError::Memory(receipt),
            LinkError::Failed => ServeError::LinkFailed(receipt),
        }
    }
}
