// The fields of a head, by the places of their names and values.
ghost use Rattle.std.specs.Prelude.{◌≡◌, All, length};
ghost use Rattle.std.specs.Option.{option_map};
ghost use Rattle.httparse.specs.Spans.{IsHeaderWithin};
ghost use Rattle.http1.specs.Fields.{values_named};
ghost use Rattle.request_head.specs.Requests.{only};
ghost use Rattle.request_head.specs.Read.{fields_at};

use http1::text::eq_ignore_case;
use httparse::spans::HeaderSpan;

/// The value of the one field of this name, where there is exactly one.
pub(crate) fn only_value<'a>(head: &'a [u8], fields: &[HeaderSpan], name: &[u8]) -> Option<&'a [u8]>
    requires { All (IsHeaderWithin (length head.now)) fields.now }
    ensures { option_map (λ value. value.now) result ≡ only (values_named name.now (fields_at head.now fields.now)) }
{
    let mut found = None;
    for field in fields {
        if !eq_ignore_case(field.name.of(head), name) {
            continue;
        }
        if found.is_some() {
            return None;
        }
        found = Some(field.value.of(head));
    }
    found
}
