// One connection, served.
ghost use Rattle.std.specs.Prelude.{◌≡◌, ◌≤◌, ◌<◌, ◌+◌, ◌^◌, ◌⊎◌, [], true, false, drop, length, slice_range, take};
ghost use Rattle.range_reply.specs.Written.{body_of, bytes_of};
ghost use Rattle.range_server.specs.Core.{IsSound};
ghost use Rattle.range_server.specs.Sending.{AnswersNext, Counts, SendsReply, ServesPiece};
ghost use Rattle.range_server.specs.Serving.{Serves};

use crate::one_core::{ServerCore, Taken};
use crate::receipts::{Receipt, ServeError};
use byte_links::{Link, LinkError};
use range_reply::Reply;
use std::alloc::Global;

/// How many bytes are read at once.
const PIECE: usize = 8192;

/// Serves the image as `/map.fgb` over a link, until its input ends or the core is closed. A head that is cut off by the
/// end of input has no reply. What is read stands in an array, so that no memory is taken.
pub fn serve_connection<L: Link>(
    _alloc: Global,
    image: &[u8],
    link: &mut L,
) -> Result<Receipt, ServeError>
    requires { length image.now ≤ 2 ^ 48 }
    ensures { Serves image.now (L.shown link.old) (L.shown link.new) result }
{
    let mut piece = [0; PIECE];
    let mut core = ServerCore::new(image.len() as u64);
    let mut receipt = Receipt::none();
    while !core.is_closed() {
        let count = match link.read(&mut piece) {
            Ok(count) => count,
            Err(error) => return Err(ServeError::of(error, receipt)),
        };
        if count == 0 {
            return Ok(receipt);
        }
        if let Err(error) = serve_piece(
            &mut core,
            front(&piece, count),
            image,
            link,
            &mut receipt,
        ) {
            return Err(ServeError::of(error, receipt));
        }
    }
    Ok(receipt)
}

/// The first bytes.
fn front(bytes: &[u8], count: usize) -> &[u8]
    requires { count ≤ length bytes.now }
    ensures { result.now ≡ take count bytes.now }
{
    &bytes[..count]
}

/// The bytes behind the first ones.
fn behind(bytes: &[u8], count: usize) -> &[u8]
    requires { count ≤ length bytes.now }
    ensures { result.now ≡ drop count bytes.now }
{
    &bytes[count..]
}

/// Answers the heads that end in a piece of input, until all of it is used or the core is closed.
fn serve_piece<L: Link>(
    core: &mut ServerCore,
    piece: &[u8],
    image: &[u8],
    link: &mut L,
    receipt: &mut Receipt,
) -> Result<(), LinkError>
    requires sound { IsSound core.old }
    requires size { core.old.size ≡ length image.now }
    requires small { length image.now ≤ 2 ^ 48 }
    requires counts { Counts core.old receipt.old }
    ensures { ServesPiece image.now core.old core.new piece.now (L.shown link.old) (L.shown link.new) receipt.old receipt.new result }
{
    let mut rest = piece;
    while goes_on(core, rest) {
        let used = answer_next(core, rest, image, link, receipt)?;
        rest = behind(rest, used);
    }
    Ok(())
}

/// Whether more of a piece can be used.
fn goes_on(core: &ServerCore, rest: &[u8]) -> bool
    ensures more { result ≡ true → (core.now.closed ≡ false) × (0 < length rest.now) }
    ensures over { result ≡ false → (rest.now ≡ []) ⊎ (core.now.closed ≡ true) }
{
    if core.is_closed() {
        return false;
    }
    !rest.is_empty()
}

/// Takes the front of a piece, and sends the reply to the head that ends with it. How many bytes that front has.
fn answer_next<L: Link>(
    core: &mut ServerCore,
    piece: &[u8],
    image: &[u8],
    link: &mut L,
    receipt: &mut Receipt,
) -> Result<usize, LinkError>
    requires sound { IsSound core.old }
    requires going { core.old.closed ≡ false }
    requires some { 0 < length piece.now }
    requires size { core.old.size ≡ length image.now }
    requires small { length image.now ≤ 2 ^ 48 }
    requires counts { Counts core.old receipt.old }
    ensures { AnswersNext image.now core.old core.new piece.now (L.shown link.old) (L.shown link.new) receipt.old receipt.new result }
{
    let Taken { used, reply } = core.take(piece);
    let Some(reply) = reply else {
        return Ok(used);
    };
    send_reply(link, image, &reply)?;
    *receipt = receipt.with(&reply);
    Ok(used)
}

/// Sends a reply, its body straight from the image.
fn send_reply<L: Link>(link: &mut L, image: &[u8], reply: &Reply) -> Result<(), LinkError>
    requires { (body_of reply.now).0 + (body_of reply.now).1 ≤ length image.now }
    ensures { SendsReply (L.shown link.old) (L.shown link.new) (bytes_of image.now reply.now) result }
{
    link.write(reply.head())?;
    let body = body_of_reply(image, reply);
    if body.is_empty() {
        return Ok(());
    }
    link.write(body)
}

/// The part of the image that is the body of a reply.
fn body_of_reply<'a>(image: &'a [u8], reply: &Reply) -> &'a [u8]
    requires { (body_of reply.now).0 + (body_of reply.now).1 ≤ length image.now }
    ensures { result.now ≡ slice_range image.now (body_of reply.now).0 ((body_of reply.now).0 + (body_of reply.now).1) }
{
    let (first, count) = reply.body();
    &image[first as usize..(first + count) as usize]
}
