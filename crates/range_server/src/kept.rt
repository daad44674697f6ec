// The bytes of a head that has not ended.
ghost use Rattle.std.specs.Prelude.{◌≡◌, ◌≤◌, ◌++◌, take, length, Some, None, IfSome, IfNone};
ghost use Rattle.range_reply.specs.Heads.{ends_at, next_len};

use arrayvec::ArrayVec;

/// The most bytes that are kept.
const MOST_BYTES: usize = 8192;

/// Bytes that are kept.
pub(crate) type Kept = ArrayVec<u8, MOST_BYTES>;

/// Keeps the front of a piece, up to the byte that ends a head, or that is the 8,192nd. How many bytes that are; None where
/// the piece has no such byte, and all of it is kept.
pub(crate) fn keep(kept: &mut Kept, piece: &[u8]) -> Option<usize>
    requires { next_len kept.old.items ≡ None }
    ensures ended { IfSome result (λ n. (n ≤ length piece.now) × (kept.new.items ≡ kept.old.items ++ take n piece.now)
        × (next_len kept.new.items ≡ Some (length kept.new.items))) }
    ensures still { IfNone result ((kept.new.items ≡ kept.old.items ++ piece.now) × (next_len kept.new.items ≡ None)) }
{
    for (at, byte) in piece.iter().enumerate() {
        kept.push(*byte);
        if ends_head(kept.as_slice()) {
            return Some(at + 1);
        }
    }
    None
}

/// Whether the bytes end in an empty line, or are 8,192.
fn ends_head(bytes: &[u8]) -> bool
    ensures { result ≡ ends_at bytes.now (length bytes.now) }
{
    bytes.ends_with(b"\r\n\r\n") || bytes.len() == MOST_BYTES
}
