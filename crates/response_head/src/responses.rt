// A response, read.
ghost use Rattle.std.specs.Prelude.{◌≡◌, IfSome, IfNone};
ghost use Rattle.std.specs.Option.{option_map};
ghost use Rattle.httparse.specs.Grammar.{ResponseHead};
ghost use Rattle.response_head.specs.Responses.{IsResponse, only_value, parts_of};

use crate::fields::only_value;
use httparse::Status;
use httparse::spans::{EMPTY_HEADER_SPAN, HeaderSpan, ResponseSpans, parse_response};
use std::marker::Model;

/// The most fields of a head.
const MOST_FIELDS: usize = 32;

/// A response, which lies in the bytes of its head. It takes no memory.
#[derive(Drop)]
pub struct Response<'a> {
    head: &'a [u8],
    spans: ResponseSpans,
    fields: [HeaderSpan; MOST_FIELDS],
}

impl<'a> Model for Response<'a> {
    ghost use Rattle.std.specs.Prelude.{◌≤◌, All, length, take};
    ghost use Rattle.httparse.specs.Spans.{IsHeaderWithin};
    ghost use Rattle.response_head.specs.Responses.{ResponseParts};
    ghost use Rattle.response_head.specs.Read.{parts_at};

    ghost Value = { ResponseParts };

    ghost view = { λ r. parts_at r.head.now r.spans (take r.spans.headers r.fields) };

    ghost invariant = { λ r. (r.spans.headers ≤ 32) × All (IsHeaderWithin (length r.head.now)) (take r.spans.headers r.fields) };
}

impl<'a> Response<'a> {
    /// Reads a head. None where the bytes do not end in an empty line, or are not, whole, the head of a response with at
    /// most 32 fields.
    pub fn read(head: &'a [u8]) -> Option<Response<'a>>
        ensures some { IfSome result (λ response. (tree : ResponseHead) × IsResponse head.now tree × (response ≡ parts_of tree)) }
        ensures none { IfNone result ((tree : ResponseHead) → ¬ IsResponse head.now tree) }
    {
        if !head.ends_with(b"\r\n\r\n") {
            return None;
        }
        let mut fields = [EMPTY_HEADER_SPAN; MOST_FIELDS];
        match parse_response(head, &mut fields) {
            Ok(Status::Complete(spans)) => {
                if spans.len != head.len() {
                    return None;
                }
                Some(Response {
                    head,
                    spans,
                    fields,
                })
            }
            Ok(Status::Partial) => None,
            Err(_) => None,
        }
    }

    /// Its status.
    pub fn status(&self) -> u16
        ensures { result ≡ self.now.status }
    {
        self.spans.code
    }

    /// The value of the one field of this name, in any case of letters; None where there is no such field, or several.
    pub fn only_value(&self, name: &[u8]) -> Option<&'a [u8]>
        ensures { option_map (λ value. value.now) result ≡ only_value name.now self.now }
    {
        only_value(self.head, &self.fields[..self.spans.headers], name)
    }
}
