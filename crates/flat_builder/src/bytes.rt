// Numbers and zero bytes at the end of a buffer, and numbers in its midst.
ghost use Rattle.std.specs.Prelude.{◌≡◌, ◌+◌, ◌^◌, ◌<◌, ◌≤◌, ◌++◌, length, take, drop, replicate, OnOk};
ghost use Rattle.byteorder.specs.Endian.{little_bytes};
ghost use Rattle.flat_builder.specs.Laying.{filling};

use std::alloc::AllocError;

/// Appends the lowest `width` bytes of a number.
pub(crate) fn push_number(out: &mut Vec<u8>, number: u64, width: usize) -> Result<(), AllocError>
    requires { width ≤ 8 }
    ensures { OnOk result (out.new.items ≡ out.old.items ++ little_bytes width number) }
{
    out.extend_from_slice(&number.to_le_bytes()[..width])
}

/// Writes the lowest `width` bytes of a number over those at `place`.
pub(crate) fn set_number(out: &mut Vec<u8>, place: usize, number: u64, width: usize)
    requires wide { width ≤ 8 }
    requires inside { place + width ≤ length out.old.items }
    ensures after { out.new.items ≡ take place out.old.items ++ little_bytes width number ++ drop (place + width) out.old.items }
    ensures len { length out.new.items ≡ length out.old.items }
{
    out[place..place + width].copy_from_slice(&number.to_le_bytes()[..width]);
}

/// Appends so many zero bytes.
pub(crate) fn push_zeros(out: &mut Vec<u8>, count: usize) -> Result<(), AllocError>
    requires { count < 2 ^ 63 }
    ensures { OnOk result (out.new.items ≡ out.old.items ++ replicate count 0) }
{
    out.resize(out.len() + count, 0)
}

/// Appends zero bytes up to the next multiple of `multiple`.
pub(crate) fn fill(out: &mut Vec<u8>, multiple: usize) -> Result<(), AllocError>
    requires some { 0 < multiple }
    requires few { multiple ≤ 8 }
    ensures { OnOk result (out.new.items ≡ out.old.items ++ filling multiple (length out.old.items)) }
{
    let len = out.len();
    push_zeros(out, len.next_multiple_of(multiple) - len)
}
