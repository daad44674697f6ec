// The end of a head, looked for in what has come.
ghost use Rattle.std.specs.Prelude.{◌≡◌, ◌+◌, ◌≤◌, length, IfOk, IfErr, IfSome, IfNone};
ghost use Rattle.range_client.specs.Fronts.{EndsFirst, HeadCame, HeadStopped, IsEndlessBetween};

use crate::bodies::read_some;
use crate::faults::{BadKind, Fault};
use byte_links::Link;

/// Reads bytes to the front of the buffer until a head has ended there, and at most `ahead` bytes behind it. Answers where
/// the head ends; `len` is how many bytes have come.
pub(crate) fn read_head<L: Link>(
    link: &mut L,
    bytes: &mut [u8],
    len: &mut usize,
    ahead: usize,
) -> Result<usize, Fault>
    requires empty { len.old ≡ 0 }
    ensures room { len.new ≤ length bytes.new }
    ensures came { IfOk result (λ end. HeadCame (L.shown link.old) (L.shown link.new) bytes.new end len.new ahead) }
    ensures stopped { IfErr result (HeadStopped (L.shown link.old) (L.shown link.new) bytes.new len.new) }
{
    while *len < bytes.len() {
        let from = *len;
        let till = bytes
            .len()
            .min(from.saturating_add(ahead).saturating_add(1));
        *len = read_some(link, bytes, from, till)?;
        if let Some(end) = find_end(&bytes[..*len], from) {
            return Ok(end);
        }
    }
    Err(Fault::Bad(BadKind::Head))
}

/// Where the first front ends, longer than `from`, that has an empty line at its end.
fn find_end(bytes: &[u8], from: usize) -> Option<usize>
    requires { from ≤ length bytes.now }
    ensures some { IfSome result (EndsFirst bytes.now from) }
    ensures none { IfNone result (IsEndlessBetween bytes.now from (length bytes.now + 1)) }
{
    for end in from..bytes.len() {
        if bytes[..end + 1].ends_with(b"\r\n\r\n") {
            return Some(end + 1);
        }
    }
    None
}
