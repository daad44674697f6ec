// Connections, served one after another.
ghost use Rattle.std.specs.Prelude.{◌≡◌, ◌≤◌, ◌^◌, length};
ghost use Rattle.range_serving.specs.Entries.{nothing, plus};
ghost use Rattle.range_serving.specs.Serving.{ServesConnections, ServesLink};

use crate::refusals::ServingError;
use byte_links::{Accept, Link};
use range_server::{Receipt, ServeError, serve_connection};
use std::alloc::Global;

/// Accepts so many connections, one after another, serves the image as `/map.fgb` over each (RFC 9112, section 9.3), and
/// gives its link back. The receipt is the sum of theirs; a number of it that would pass the last value of 64 bits stays
/// there. A connection whose link fails counts as far as it came, and the next is accepted. A connection that can't be
/// accepted, or want of memory, is a refusal.
#[tactic(auto, using(crate::proofs::Turns::turns_none, crate::proofs::Turns::turns_more, crate::proofs::Turns::turns_refused, crate::proofs::Turns::turns_all))]
pub fn serve_connections<L: Link, A: Accept<L>>(
    alloc: Global,
    image: &[u8],
    listener: &mut A,
    count: u64,
) -> Result<Receipt, ServingError>
    requires { length image.now ≤ 2 ^ 48 }
    ensures { ServesConnections image.now count (A.shown listener.old) (A.shown listener.new) result }
{
    let mut total = no_receipt();
    for _ in 0..count {
        let receipt = serve_next(alloc, image, listener)?;
        total = sum(total, receipt);
    }
    Ok(total)
}

/// Accepts a connection, serves it and gives its link back.
#[tactic(auto, using(crate::proofs::Turns::not_accepted, crate::proofs::Turns::not_taken))]
fn serve_next<L: Link, A: Accept<L>>(
    alloc: Global,
    image: &[u8],
    listener: &mut A,
) -> Result<Receipt, ServingError>
    requires { length image.now ≤ 2 ^ 48 }
    ensures { ServesConnections image.now 1 (A.shown listener.old) (A.shown listener.new) result }
{
    let mut link = listener.accept()?;
    let outcome = serve_link(alloc, image, &mut link);
    listener.done(link)?;
    outcome
}

/// Serves a connection. One whose link fails counts as far as it came.
fn serve_link<L: Link>(alloc: Global, image: &[u8], link: &mut L) -> Result<Receipt, ServingError>
    requires { length image.now ≤ 2 ^ 48 }
    ensures { ServesLink image.now (L.shown link.old) (L.shown link.new) result }
{
    match serve_connection(alloc, image, link) {
        Ok(receipt) => Ok(receipt),
        Err(ServeError::LinkFailed(receipt)) => Ok(receipt),
        Err(ServeError::Memory(_)) => Err(ServingError::Memory),
    }
}

/// The receipt of no connection.
fn no_receipt() -> Receipt
    ensures { result ≡ nothing }
{
    Receipt {
        requests: 0,
        sent: 0,
    }
}

/// Both receipts together.
fn sum(one: Receipt, other: Receipt) -> Receipt
    ensures { result ≡ plus one other }
{
    Receipt {
        requests: one.requests.saturating_add(other.requests),
        sent: one.sent.saturating_add(other.sent),
    }
}
