// Bytes that come over a link.
ghost use Rattle.std.specs.Prelude.{◌≡◌, ◌+◌, ◌<◌, ◌≤◌, ℕ, List, [], ◌++◌, length, take, drop, slice_range, IfOk, IfErr, OnOk};
ghost use Rattle.range_client.specs.Steps.{Stops, Takes};

use crate::faults::{BadKind, Fault};
use byte_links::Link;

/// Reads some bytes into the places from `from` up to `till`, and answers where they end.
pub(crate) fn read_some<L: Link>(
    link: &mut L,
    bytes: &mut [u8],
    from: usize,
    till: usize,
) -> Result<usize, Fault>
    requires some { from < till }
    requires room { till ≤ length bytes.old }
    ensures front { take from bytes.new ≡ take from bytes.old }
    ensures count { IfOk result (λ to. (from < to) × (to ≤ till)) }
    ensures takes { IfOk result (λ to. Takes (L.shown link.old) (L.shown link.new) (slice_range bytes.new from to)) }
    ensures stops { IfErr result (Stops (L.shown link.old) (L.shown link.new) []) }
{
    let count = link.read(&mut bytes[from..till])?;
    if count == 0 {
        return Err(Fault::Bad(BadKind::Ended));
    }
    Ok(from + count)
}

/// Reads until the places from `from` on are filled.
fn fill<L: Link>(link: &mut L, into: &mut [u8], from: usize) -> Result<(), Fault>
    requires { from ≤ length into.old }
    ensures front { take from into.new ≡ take from into.old }
    ensures takes { OnOk result (Takes (L.shown link.old) (L.shown link.new) (drop from into.new)) }
    ensures stops { IfErr result (λ fault. (got : List ℕ) × (from + length got < length into.new) × Stops (L.shown link.old) (L.shown link.new) got fault) }
{
    let mut at = from;
    while at < into.len() {
        let till = into.len();
        at = read_some(link, into, at, till)?;
    }
    Ok(())
}

/// Reads a body whose first bytes are here.
pub(crate) fn read_body<L: Link>(link: &mut L, first: &[u8], into: &mut [u8]) -> Result<(), Fault>
    requires { length first.now ≤ length into.old }
    ensures takes { OnOk result ((got : List ℕ) × (into.new ≡ first.now ++ got) × Takes (L.shown link.old) (L.shown link.new) got) }
    ensures stops { IfErr result (λ fault. (got : List ℕ) × (length first.now + length got < length into.new) × Stops (L.shown link.old) (L.shown link.new) got fault) }
{
    into[..first.len()].copy_from_slice(first);
    fill(link, into, first.len())
}
