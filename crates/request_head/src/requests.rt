// A request, read.
ghost use Rattle.std.specs.Prelude.{◌≡◌, IfSome, IfNone};
ghost use Rattle.std.specs.Option.{option_map};
ghost use Rattle.httparse.specs.Grammar.{RequestHead};
ghost use Rattle.request_head.specs.Requests.{IsRequest, asks_to_close, has_no_body, has_one_host, only_value, parts_of};

use crate::fields::{all_allow_no_body, only_value};
use http1::fields::KnownFields;
use httparse::Status;
use httparse::spans::{EMPTY_HEADER_SPAN, HeaderSpan, RequestSpans, parse_request};
use std::marker::Model;

/// The most fields of a head.
const MOST_FIELDS: usize = 32;

/// A request, which lies in the bytes of its head. It takes no memory.
#[derive(Drop)]
pub struct Request<'a> {
    head: &'a [u8],
    spans: RequestSpans,
    fields: [HeaderSpan; MOST_FIELDS],
    known: KnownFields,
}

impl<'a> Model for Request<'a> {
    ghost use Rattle.std.specs.Prelude.{◌≡◌, ◌≤◌, take};
    ghost use Rattle.http1.specs.Fields.{known_fields};
    ghost use Rattle.request_head.specs.Requests.{RequestParts};
    ghost use Rattle.request_head.specs.Read.{LieIn, fields_at, parts_at};

    ghost Value = { RequestParts };

    ghost view = { λ r. parts_at r.head.now r.spans (take r.spans.headers r.fields) };

    ghost invariant = { λ r. (r.spans.headers ≤ 32) × LieIn r.head.now r.spans (take r.spans.headers r.fields) × (r.known ≡ known_fields (fields_at r.head.now (take r.spans.headers r.fields))) };
}

impl<'a> Request<'a> {
    /// Reads a head. None where the bytes do not end in an empty line, or are not, whole, the head of a request with at
    /// most 32 fields.
    pub fn read(head: &'a [u8]) -> Option<Request<'a>>
        ensures some { IfSome result (λ request. (tree : RequestHead) × IsRequest head.now tree × (request ≡ parts_of tree)) }
        ensures none { IfNone result ((tree : RequestHead) → ¬ IsRequest head.now tree) }
    {
        if !head.ends_with(b"\r\n\r\n") {
            return None;
        }
        let mut fields = [EMPTY_HEADER_SPAN; MOST_FIELDS];
        match parse_request(head, &mut fields) {
            Ok(Status::Complete(spans)) => {
                if spans.len != head.len() {
                    return None;
                }
                Some(Request {
                    head,
                    spans,
                    fields,
                    known: KnownFields::from_spans(head, &fields[..spans.headers]),
                })
            }
            Ok(Status::Partial) => None,
            Err(_) => None,
        }
    }

    /// Its method.
    pub fn method(&self) -> &'a [u8]
        ensures { result.now ≡ self.now.method }
    {
        self.spans.method.of(self.head)
    }

    /// Its target.
    pub fn target(&self) -> &'a [u8]
        ensures { result.now ≡ self.now.target }
    {
        self.spans.path.of(self.head)
    }

    /// Whether it names one host, where its version is 1.1 (RFC 9112, section 3.2).
    pub fn has_one_host(&self) -> bool
        ensures { result ≡ has_one_host self.now }
    {
        self.spans.version == 0 || self.known.hosts == 1
    }

    /// Whether it has no body: no Transfer-Encoding field, and no Content-Length field with another value than `0` (RFC
    /// 9112, section 6).
    pub fn has_no_body(&self) -> bool
        ensures { result ≡ has_no_body self.now }
    {
        all_allow_no_body(self.head, &self.fields[..self.spans.headers])
    }

    /// Whether the connection closes after it: its version is 1.0, or a Connection field has the element `close` (RFC
    /// 9112, section 9.3).
    pub fn asks_to_close(&self) -> bool
        ensures { result ≡ asks_to_close self.now }
    {
        self.spans.version == 0 || self.known.close
    }

    /// The value of the one field of this name, in any case of letters; None where there is no such field, or several.
    pub fn only_value(&self, name: &[u8]) -> Option<&'a [u8]>
        ensures { option_map (λ value. value.now) result ≡ only_value name.now self.now }
    {
        only_value(self.head, &self.fields[..self.spans.headers], name)
    }
}
