// Texts at the end of a buffer.
ghost use Rattle.std.specs.Prelude.{◌≡◌, ◌++◌, length, OnOk};
ghost use Rattle.byteorder.specs.Endian.{little_bytes};

use std::alloc::AllocError;

/// Appends a text behind its count, of which 4 bytes stand: a text of 2^32 bytes fits in no buffer.
pub(crate) fn push_text(out: &mut Vec<u8>, text: &[u8]) -> Result<(), AllocError>
    ensures { OnOk result (out.new.items ≡ out.old.items ++ little_bytes 4 (length text.now) ++ text.now) }
{
    push_count(out, text.len())?;
    out.extend_from_slice(text)
}

/// Appends the lowest 4 bytes of a count.
fn push_count(out: &mut Vec<u8>, count: usize) -> Result<(), AllocError>
    ensures { OnOk result (out.new.items ≡ out.old.items ++ little_bytes 4 count) }
{
    out.extend_from_slice(&count.to_le_bytes()[..4])
}
