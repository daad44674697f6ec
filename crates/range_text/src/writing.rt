// Ranges, written.
ghost use Rattle.std.specs.Prelude.{◌≡◌, ◌≤◌, ◌^◌};
ghost use Rattle.range_text.specs.Ranges.{IsTellable, SpellsContent, SpellsRange, between, content_text, range_text};
ghost use Rattle.range_text.specs.Texts.{text_of};

use crate::answers::ContentRange;
use crate::short_text::ShortText;

/// The value of a Range field that asks for the bytes from `first` to `last`, both included: `bytes=A-B`.
#[tactic(auto, using(crate::proofs::Digits::decimal_room))]
pub fn write_range(first: u64, last: u64) -> ShortText
    requires order { first ≤ last }
    requires small { last ≤ 2 ^ 48 }
    ensures text { text_of result ≡ range_text first last }
    ensures back { SpellsRange (text_of result) (between first last) }
{
    let mut text = ShortText::new();
    text.push(b"bytes=");
    text.push_number(first);
    text.push(b"-");
    text.push_number(last);
    text
}

/// The value of a Content-Range field that tells this: `bytes A-B/N` or `bytes */N`.
#[tactic(auto, using(crate::proofs::Digits::decimal_room))]
pub fn write_content_range(range: ContentRange) -> ShortText
    requires { IsTellable range }
    ensures text { text_of result ≡ content_text range }
    ensures back { SpellsContent (text_of result) range }
{
    let mut text = ShortText::new();
    text.push(b"bytes ");
    match range {
        ContentRange::Part { first, last, size } => {
            text.push_number(first);
            text.push(b"-");
            text.push_number(last);
            text.push(b"/");
            text.push_number(size);
        }
        ContentRange::Unsatisfied { size } => {
            text.push(b"*/");
            text.push_number(size);
        }
    }
    text
}
