// The fields of a head, by the places of their names and values.
ghost use Rattle.std.specs.Prelude.{◌≡◌, All, length};
ghost use Rattle.std.specs.List.{list_all};
ghost use Rattle.std.specs.Option.{option_map};
ghost use Rattle.httparse.specs.Spans.{IsHeaderWithin, header_bytes};
ghost use Rattle.http1.specs.Fields.{values_named};
ghost use Rattle.request_head.specs.Requests.{allows_no_body, only};
ghost use Rattle.request_head.specs.Read.{fields_at};

use http1::text::eq_ignore_case;
use httparse::spans::HeaderSpan;

/// Whether each field allows that there is no body.
pub(crate) fn all_allow_no_body(head: &[u8], fields: &[HeaderSpan]) -> bool
    requires { All (IsHeaderWithin (length head.now)) fields.now }
    ensures { result ≡ list_all allows_no_body (fields_at head.now fields.now) }
{
    for field in fields {
        if !allows_no_body(head, field) {
            return false;
        }
    }
    true
}

/// Whether this is no Transfer-Encoding, and no Content-Length with another value than `0`.
fn allows_no_body(head: &[u8], field: &HeaderSpan) -> bool
    requires { IsHeaderWithin (length head.now) field.now }
    ensures { result ≡ allows_no_body (header_bytes head.now field.now) }
{
    let name = field.name.of(head);
    !eq_ignore_case(name, b"transfer-encoding")
        && (!eq_ignore_case(name, b"content-length") || field.value.of(head) == b"0".as_slice())
}

/// The value of the one field of this name, where there is exactly one.
pub(crate) fn only_value<'a>(head: &'a [u8], fields: &[HeaderSpan], name: &[u8]) -> Option<&'a [u8]>
    requires { All (IsHeaderWithin (length head.now)) fields.now }
    ensures { option_map (λ value. value.now) result ≡ only (values_named name.now (fields_at head.now fields.now)) }
{
    let mut found = None;
    for field in fields {
        if !eq_ignore_case(field.name.of(head), name) {
            continue;
        }
        if found.is_some() {
            return None;
        }
        found = Some(field.value.of(head));
    }
    found
}
