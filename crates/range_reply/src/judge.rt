// Heads, answered.
ghost use Rattle.std.specs.Prelude.{◌≡◌, ◌≤◌, ◌^◌};
ghost use Rattle.range_reply.specs.Replies.{answer_request, answer_served, closes_after_request, is_served, range_asked, range_of_value};
ghost use Rattle.range_reply.specs.Parts.{IsPartWithin, IsWithin};
ghost use Rattle.range_reply.specs.Written.{Answers, Gives};

use crate::rows::Answer;
use crate::written::Reply;
use range_text::{RangeAnswer, read_range};
use request_head::Request;

/// The reply to a head, for an image of this size in bytes.
pub fn answer(size: u64, head: &[u8]) -> Reply
    requires { size ≤ 2 ^ 48 }
    ensures { Answers size head.now result }
{
    match Request::read(head) {
        Some(request) => answer_request(size, &request),
        None => Reply::new(size, Answer::BadRequest, true),
    }
}

/// The reply to a request.
fn answer_request(size: u64, request: &Request<'_>) -> Reply
    requires { size ≤ 2 ^ 48 }
    ensures { Gives size (answer_request size request.now) (closes_after_request request.now) result }
{
    if is_served(request) {
        Reply::new(size, answer_served(size, request), request.asks_to_close())
    } else {
        Reply::new(size, Answer::BadRequest, true)
    }
}

/// Whether it is not bad.
fn is_served(request: &Request<'_>) -> bool
    ensures { result ≡ is_served request.now }
{
    request.has_one_host() && request.has_no_body()
}

/// The answer to a request that is not bad.
fn answer_served(size: u64, request: &Request<'_>) -> Answer
    ensures answer { result ≡ answer_served size request.now }
    ensures within { IsWithin size result }
{
    let method = request.method();
    let is_head = method == b"HEAD".as_slice();
    if !is_head && method != b"GET".as_slice() {
        return Answer::NotAllowed;
    }
    if request.target() != b"/map.fgb".as_slice() {
        return Answer::NotFound;
    }
    if is_head {
        return Answer::Size;
    }
    Answer::Image(range_asked(size, request))
}

/// What it asks for.
fn range_asked(size: u64, request: &Request<'_>) -> RangeAnswer
    ensures asked { result ≡ range_asked size request.now }
    ensures within { IsPartWithin size result }
{
    match request.only_value(b"range") {
        Some(value) => range_of_value(size, value),
        None => RangeAnswer::Whole,
    }
}

/// What the value of a Range field asks for.
fn range_of_value(size: u64, value: &[u8]) -> RangeAnswer
    ensures asked { result ≡ range_of_value size value.now }
    ensures within { IsPartWithin size result }
{
    read_range(value, size)
}
