// The lines of a reply's head.
ghost use Rattle.std.specs.Prelude.{◌≡◌, ◌≤◌, ◌+◌, ◌^◌, ◌++◌, if◌then◌else◌, [], length, codes, decimal, unwrap_or};
ghost use Rattle.http.specs.StatusCode.{reason_phrase};
ghost use Rattle.range_text.specs.Ranges.{IsTellable, content_text};
ghost use Rattle.arrayvec.specs.ArrayVec.{array_vec_len};
ghost use Rattle.range_reply.specs.Replies.{accepts, head_text, line, own_lines, status_line, status_of};
ghost use Rattle.range_reply.specs.Parts.{IsWithin};

use crate::rows::Answer;
use crate::written::HeadText;
use itoa::Buffer;
use range_text::{ContentRange, RangeAnswer, write_content_range};

/// The head of a reply.
pub(crate) fn write_head(size: u64, answer: Answer, closes: bool) -> HeadText
    requires small { size ≤ 2 ^ 48 }
    requires within { IsWithin size answer }
    ensures { result.items ≡ head_text size answer closes }
{
    let mut text = HeadText::new();
    push_status(&mut text, answer);
    push_own_lines(&mut text, size, answer);
    push_length(&mut text, answer.told_length(size));
    push_close(&mut text, closes);
    push(&mut text, b"\r\n");
    text
}

/// The status line.
fn push_status(text: &mut HeadText, answer: Answer)
    requires { array_vec_len text.old ≤ 100 }
    ensures text { text.new.items ≡ text.old.items ++ status_line answer }
    ensures len { array_vec_len text.new ≤ array_vec_len text.old + 36 }
{
    let status = answer.status();
    push(text, b"HTTP/1.1 ");
    push(text, status.as_str().as_bytes());
    push(text, b" ");
    push(text, phrase(answer).as_bytes());
    push(text, b"\r\n");
}

/// The lines that tell of ranges and methods.
fn push_own_lines(text: &mut HeadText, size: u64, answer: Answer)
    requires room { array_vec_len text.old ≤ 100 }
    requires small { size ≤ 2 ^ 48 }
    requires within { IsWithin size answer }
    ensures text { text.new.items ≡ text.old.items ++ own_lines size answer }
    ensures len { array_vec_len text.new ≤ array_vec_len text.old + 92 }
{
    match answer {
        Answer::BadRequest | Answer::NotFound => {}
        Answer::NotAllowed => push(text, b"Allow: GET, HEAD\r\n"),
        Answer::Size | Answer::Image(RangeAnswer::Whole) => push_accepts(text),
        Answer::Image(RangeAnswer::Part { first, last }) => {
            push_accepts(text);
            push_content_range(text, ContentRange::Part { first, last, size });
        }
        Answer::Image(RangeAnswer::Unsatisfied) => {
            push_accepts(text);
            push_content_range(text, ContentRange::Unsatisfied { size });
        }
    }
}

/// The line that tells that ranges are served.
fn push_accepts(text: &mut HeadText)
    requires { array_vec_len text.old ≤ 170 }
    ensures text { text.new.items ≡ text.old.items ++ accepts }
    ensures len { array_vec_len text.new ≡ array_vec_len text.old + 22 }
{
    push(text, b"Accept-Ranges: bytes\r\n");
}

/// The line that tells which part of the image is the body.
fn push_content_range(text: &mut HeadText, range: ContentRange)
    requires room { array_vec_len text.old ≤ 122 }
    requires tellable { IsTellable range }
    ensures text { text.new.items ≡ text.old.items ++ line (codes "Content-Range: " ++ content_text range) }
    ensures len { array_vec_len text.new ≤ array_vec_len text.old + 70 }
{
    push(text, b"Content-Range: ");
    push(text, write_content_range(range).bytes());
    push(text, b"\r\n");
}

/// The line that tells a length.
#[tactic(auto, using(range_text::proofs::Digits::decimal_room))]
fn push_length(text: &mut HeadText, told: u64)
    requires room { array_vec_len text.old ≤ 150 }
    requires small { told ≤ 2 ^ 48 }
    ensures text { text.new.items ≡ text.old.items ++ line (codes "Content-Length: " ++ decimal told) }
    ensures len { array_vec_len text.new ≤ array_vec_len text.old + 33 }
{
    let mut buffer = Buffer::new();
    push(text, b"Content-Length: ");
    push(text, buffer.format(told).as_bytes());
    push(text, b"\r\n");
}

/// The line that tells that the connection closes.
fn push_close(text: &mut HeadText, closes: bool)
    requires { array_vec_len text.old ≤ 170 }
    ensures text { text.new.items ≡ text.old.items ++ (if closes then line (codes "Connection: close") else []) }
    ensures len { array_vec_len text.new ≤ array_vec_len text.old + 19 }
{
    if closes {
        push(text, b"Connection: close\r\n");
    }
}

/// The phrase of its status.
fn phrase(answer: Answer) -> &'static str
    ensures text { result.now ≡ unwrap_or (reason_phrase (status_of answer)) [] }
    ensures short { length result.now ≤ 21 }
{
    answer.status().canonical_reason().unwrap_or("")
}

/// Appends bytes.
fn push(text: &mut HeadText, bytes: &[u8])
    requires { array_vec_len text.old + length bytes.now ≤ 192 }
    ensures text { text.new.items ≡ text.old.items ++ bytes.now }
    ensures len { array_vec_len text.new ≡ array_vec_len text.old + length bytes.now }
{
    let Ok(()) = text.try_extend_from_slice(bytes) else {
        unreachable!()
    };
}
