// A client over such a link.
ghost use Rattle.std.specs.Prelude.{◌≡◌, ◌≤◌, ◌<◌, ◌^◌, length, Some, IfOk};
ghost use Rattle.range_client.specs.Client.{source_of};
ghost use Rattle.loop_link.specs.Looped.{ReadsImage};

use crate::links::LoopLink;
use range_client::RangeClient;
use std::alloc::{AllocError, Global};

/// A client of the image, over a link to a server of it. It tells the image and what it was asked for.
pub fn connect_loop<'a>(
    alloc: Global,
    image: &'a [u8],
    piece: usize,
) -> Result<RangeClient<LoopLink<'a>>, AllocError>
    requires small { length image.now ≤ 2 ^ 48 }
    requires some { 0 < piece }
    ensures { IfOk result (ReadsImage image.now) }
{
    let link = LoopLink::new(alloc, image, piece)?;
    match RangeClient::connect(alloc, link, "/map.fgb") {
        Ok(client) => Ok(client),
        Err(_) => Err(AllocError),
    }
}
