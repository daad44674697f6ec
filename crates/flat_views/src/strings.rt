ghost use Rattle.std.specs.Prelude.{◌≡◌, ◌+◌, ◌≤◌, length};
ghost use Rattle.flat_layout.specs.Layout.{target, text};
ghost use Rattle.flat_layout.specs.Promises.{BreaksText, BreaksThrough, Judges};
ghost use Rattle.flat_views.specs.Buffers.{buf_base, buf_bytes};

use crate::buffer::Buf;
use flat_layout::{Broken, Rule};

/// The string at the place `at` of the buffer. Refuses Vector, Zero or Utf8.
/// (FlatBuffer Internals, "Strings and Vectors")
#[tactic(auto, using(std::proofs::lemmas::Bool::Decides::nat_tests), unfolding(flat_layout::specs::Promises::BreaksText, flat_layout::specs::Promises::BreaksVector, flat_layout::specs::Promises::BreaksZero, flat_layout::specs::Promises::BreaksUtf8, flat_layout::specs::Layout::is_vector, flat_layout::specs::Layout::is_ended, flat_layout::specs::Layout::count, flat_layout::specs::Layout::text))]
fn text_at<'a>(buf: Buf<'a>, at: usize) -> Result<&'a str, Broken>
    requires { at + 4 ≤ length (buf_bytes buf) }
    ensures { let b = buf_bytes buf.entry in
        Judges (buf_base buf.entry) (BreaksText b at) (λ s. s.now ≡ text b at) result }
{
    let len = buf.u32_at(at) as usize;
    let end = at + 4 + len;
    if end > buf.len() {
        return Err(buf.broken(at, Rule::Vector));
    }
    if end == buf.len() || buf.u8_at(end) != 0 {
        return Err(buf.broken(at, Rule::Zero));
    }
    match simdutf8::basic::from_utf8(buf.part(at + 4, len)) {
        Ok(text) => Ok(text),
        Err(_) => Err(buf.broken(at, Rule::Utf8)),
    }
}

/// The string that the offset at the place `at` leads to. Refuses Offset, Vector, Zero or Utf8.
#[tactic(auto, using(crate::proofs::Sound::through))]
pub(crate) fn text_behind<'a>(buf: Buf<'a>, at: usize) -> Result<&'a str, Broken>
    requires { at ≤ length (buf_bytes buf) }
    ensures { let b = buf_bytes buf.entry in
        Judges (buf_base buf.entry) (BreaksThrough BreaksText b at) (λ s. s.now ≡ text b (target b at)) result }
{
    let place = buf.follow(at)?;
    text_at(buf, place)
}
