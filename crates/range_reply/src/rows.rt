// The rows of the table of replies.
ghost use Rattle.std.specs.Prelude.{◌≡◌, ◌≤◌, ◌+◌, ◌^◌};
ghost use Rattle.range_reply.specs.Replies.{status_of, told_length};
ghost use Rattle.range_reply.specs.Parts.{IsWithin, part_of};

use http::StatusCode;
use range_text::RangeAnswer;

/// What is answered to a head.
#[derive(Clone, Copy, Debug, PartialEq, Eq)]
pub(crate) enum Answer {
    /// 400: it is no request, or one that is not served.
    BadRequest,
    /// 404: its target is not the image.
    NotFound,
    /// 405: its method is neither GET nor HEAD.
    NotAllowed,
    /// 200 without a body, to HEAD.
    Size,
    /// 200, 206 or 416: what a GET asks for.
    Image(RangeAnswer),
}

impl Answer {
    /// Its status.
    pub(crate) fn status(self) -> StatusCode
        ensures { result ≡ status_of self }
    {
        match self {
            Answer::BadRequest => StatusCode::BAD_REQUEST,
            Answer::NotFound => StatusCode::NOT_FOUND,
            Answer::NotAllowed => StatusCode::METHOD_NOT_ALLOWED,
            Answer::Size | Answer::Image(RangeAnswer::Whole) => StatusCode::OK,
            Answer::Image(RangeAnswer::Part { .. }) => StatusCode::PARTIAL_CONTENT,
            Answer::Image(RangeAnswer::Unsatisfied) => StatusCode::RANGE_NOT_SATISFIABLE,
        }
    }

    /// The first byte of its body in an image of this size, and the body's length.
    pub(crate) fn body(self, size: u64) -> (u64, u64)
        requires { IsWithin size self }
        ensures { result ≡ part_of size self }
    {
        match self {
            Answer::Image(RangeAnswer::Whole) => (0, size),
            Answer::Image(RangeAnswer::Part { first, last }) => (first, last - first + 1),
            _ => (0, 0),
        }
    }

    /// The length that the reply's head tells.
    pub(crate) fn told_length(self, size: u64) -> u64
        requires { IsWithin size self }
        ensures { result ≡ told_length size self }
    {
        match self {
            Answer::Size => size,
            _ => self.body(size).1,
        }
    }
}
