// Reading a section into a buffer, piece by piece.
ghost use Rattle.std.specs.Prelude.{◌≡◌, ◌+◌, ◌-◌, ◌*◌, ◌<◌, ◌≤◌, ◌^◌, min, length, take, slice_range, IfOk, OnOk, OnErr, IsErrOf};
ghost use Rattle.std.specs.List.{range_with_len};
ghost use Rattle.fgb_outside.specs.Source.{ReadsAt, Rose};
ghost use Rattle.fgb_outside.specs.Asked.{ReadsFront};
ghost use Rattle.section_window.specs.Window.{IsPiece};
ghost use Rattle.section_window.specs.Pieces.{StandsIn, ReadTo};

use fgb_outside::{RangeSource, SourceError};
use std::alloc::AllocError;

// No request is longer.
pub(crate) const PIECE: usize = 1048576;

// Moves the bytes between `from` and `till` to the front, in a buffer of at least `room` bytes.
pub(crate) fn make_room(
    buffer: &mut Vec<u8>,
    from: usize,
    till: usize,
    room: usize,
) -> Result<(), AllocError>
    requires order { from ≤ till }
    requires inside { till ≤ length buffer.old.items }
    ensures moved { OnOk result (take (till - from) buffer.new.items ≡ slice_range buffer.old.items from till) }
    ensures room { OnOk result (room ≤ length buffer.new.items) }
    ensures no_shorter { length buffer.old.items ≤ length buffer.new.items }
    ensures err { OnErr result (buffer.new.items ≡ buffer.old.items) }
{
    if buffer.len() < room {
        buffer.resize(room, 0)?;
    }
    if from > 0 {
        buffer.copy_within(from..till, 0);
    }
    Ok(())
}

// Reads the bytes from `at` on into a part of the buffer.
fn read_part<S: RangeSource>(
    source: &mut S,
    buffer: &mut [u8],
    from: usize,
    till: usize,
    at: u64,
) -> Result<(), SourceError>
    requires some { from < till }
    requires room { till ≤ length buffer.old }
    requires inside { at + (till - from) ≤ (S.seen source.old).size }
    ensures front { take from buffer.new ≡ take from buffer.old }
    ensures reads { ReadsAt (S.seen source.old) (S.seen source.new) at (slice_range buffer.new from till) result }
{
    source.read_at(at, &mut buffer[from..till])?;
    Ok(())
}

// Reads behind the first `held` bytes of the buffer, which stand at `at`, until `want` stand there, and says
// how many do then.
pub(crate) fn read_pieces<S: RangeSource>(
    source: &mut S,
    buffer: &mut [u8],
    held: usize,
    want: usize,
    at: u64,
    end: u64,
) -> Result<usize, SourceError>
    requires held { held ≤ want }
    requires wanted { at + want ≤ end }
    requires small { end ≤ 2 ^ 48 }
    requires inside { end ≤ (S.seen source.old).size }
    requires room { min (want + 1048576) (end - at) ≤ length buffer.old }
    requires stands { StandsIn (S.seen source.old) buffer.old at held }
    ensures front { take held buffer.new ≡ take held buffer.old }
    ensures enough { IfOk result (λ till. want ≤ till) }
    ensures read { IfOk result (λ till. ReadTo (S.seen source.old) (S.seen source.new) buffer.old buffer.new held till at end) }
    ensures failing { OnErr result (ReadsFront (IsPiece at end) (S.seen source.old) (S.seen source.new) (range_with_len (at + held) (end - (at + held)))) }
    ensures failed { IsErrOf result SourceError.Failed → Rose (S.seen source.old).faults (S.seen source.new).faults }
{
    let mut till = held;
    while till < want {
        let left = (end - at) as usize - till;
        let next = till + left.min(PIECE);
        read_part(source, buffer, till, next, at + till as u64)?;
        till = next;
    }
    Ok(till)
}
