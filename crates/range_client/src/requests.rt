// The text of a request.
ghost use Rattle.std.specs.Prelude.{◌≡◌, ◌≤◌, ◌^◌, OnOk};
ghost use Rattle.range_client.specs.Requests.{request};

use range_text::write_range;
use std::alloc::AllocError;

/// Writes the request for the bytes from the first to the last place of the file at this path.
pub(crate) fn write_request(
    text: &mut Vec<u8>,
    path: &[u8],
    first: u64,
    last: u64,
) -> Result<(), AllocError>
    requires order { first ≤ last }
    requires small { last ≤ 2 ^ 48 }
    ensures { OnOk result (text.new.items ≡ request path.now first last) }
{
    text.clear();
    text.extend_from_slice(b"GET ")?;
    text.extend_from_slice(path)?;
    text.extend_from_slice(b" HTTP/1.1\r\nHost: 127.0.0.1\r\nRange: ")?;
    text.extend_from_slice(write_range(first, last).bytes())?;
    text.extend_from_slice(b"\r\n\r\n")?;
    Ok(())
}
