// Bytes that a core takes, and its replies.
ghost use Rattle.std.specs.Prelude.{◌≡◌, ◌≤◌, ◌+◌, ◌++◌, [], true, false, Some, length, IfOk, OnOk};
ghost use Rattle.range_reply.specs.Heads.{next_len};
ghost use Rattle.range_reply.specs.Replies.{reply_of};
ghost use Rattle.range_reply.specs.Written.{body_of, bytes_of};
ghost use Rattle.range_server.specs.Core.{behind_answer};

use range_server::{Reply, ServerCore, Taken};
use std::alloc::AllocError;

/// Lets the core take the bytes until it has used all of them or is closed, and appends its replies.
pub(crate) fn feed(
    core: &mut ServerCore,
    image: &[u8],
    bytes: &[u8],
    coming: &mut Vec<u8>,
) -> Result<(), AllocError>
    requires { core.old.size ≡ length image.now }
    ensures size { core.new.size ≡ core.old.size }
    ensures longer { length coming.old.items ≤ length coming.new.items }
    ensures closed { core.old.closed ≡ true → OnOk result ((core.new ≡ core.old) × (coming.new.items ≡ coming.old.items)) }
    ensures answers { core.old.kept ≡ [] → core.old.closed ≡ false → next_len bytes.now ≡ Some (length bytes.now)
        → OnOk result ((core.new ≡ behind_answer core.old bytes.now) × (coming.new.items ≡ coming.old.items ++ reply_of image.now bytes.now)) }
{
    let used = feed_once(core, image, bytes, coming)?;
    feed_rest(core, image, &bytes[used..], coming)
}

/// The same of what is left behind the first call.
fn feed_rest(
    core: &mut ServerCore,
    image: &[u8],
    bytes: &[u8],
    coming: &mut Vec<u8>,
) -> Result<(), AllocError>
    requires { core.old.size ≡ length image.now }
    ensures size { core.new.size ≡ core.old.size }
    ensures longer { length coming.old.items ≤ length coming.new.items }
    ensures nothing { bytes.now ≡ [] → OnOk result ((core.new ≡ core.old) × (coming.new.items ≡ coming.old.items)) }
{
    let mut rest = bytes;
    'feeding: for _ in 0..bytes.len() {
        if rest.is_empty() {
            break;
        }
        let used = feed_once(core, image, rest, coming)?;
        rest = &rest[used..];
    }
    Ok(())
}

/// Lets the core take the front of the bytes, appends its reply, and answers how many bytes are done with.
fn feed_once(
    core: &mut ServerCore,
    image: &[u8],
    bytes: &[u8],
    coming: &mut Vec<u8>,
) -> Result<usize, AllocError>
    requires { core.old.size ≡ length image.now }
    ensures within { IfOk result (λ used. used ≤ length bytes.now) }
    ensures size { core.new.size ≡ core.old.size }
    ensures longer { length coming.old.items ≤ length coming.new.items }
    ensures closed { core.old.closed ≡ true → IfOk result (λ used. (used ≡ length bytes.now) × (core.new ≡ core.old) × (coming.new.items ≡ coming.old.items)) }
    ensures answers { core.old.kept ≡ [] → core.old.closed ≡ false → next_len bytes.now ≡ Some (length bytes.now)
        → IfOk result (λ used. (used ≡ length bytes.now) × (core.new ≡ behind_answer core.old bytes.now) × (coming.new.items ≡ coming.old.items ++ reply_of image.now bytes.now)) }
{
    if core.is_closed() {
        return Ok(bytes.len());
    }
    let Taken { used, reply } = core.take(bytes);
    if let Some(reply) = reply {
        append(coming, image, &reply)?;
    }
    Ok(used)
}

/// Appends a reply, its body from the image.
fn append(coming: &mut Vec<u8>, image: &[u8], reply: &Reply) -> Result<(), AllocError>
    requires { (body_of reply.now).0 + (body_of reply.now).1 ≤ length image.now }
    ensures ok { OnOk result (coming.new.items ≡ coming.old.items ++ bytes_of image.now reply.now) }
    ensures longer { length coming.old.items ≤ length coming.new.items }
{
    coming.extend_from_slice(reply.head())?;
    let (first, count) = reply.body();
    coming.extend_from_slice(&image[first as usize..(first + count) as usize])?;
    Ok(())
}
