// The link.
ghost use Rattle.std.specs.Prelude.{◌≡◌, ◌↔◌, ◌≤◌, ◌<◌, ◌^◌, [], length, take, drop, IsTrue, IfOk};
ghost use Rattle.byte_links.specs.Link.{Receives, Sends};
ghost use Rattle.loop_link.specs.Looped.{IsAsking, looped_link, new_looped};

use crate::asks::places_asked;
use crate::feeding::feed;
use byte_links::{Link, LinkError};
use range_server::ServerCore;
use std::alloc::{AllocError, Global};
use std::marker::Model;

/// A link whose other end is a [`ServerCore`] over an image. It tells the image, and never fails.
#[derive(Drop)]
pub struct LoopLink<'a> {
    image: &'a [u8],
    core: ServerCore,
    /// The most bytes of a read.
    piece: usize,
    /// The replies; those behind `at` are still to be read.
    replies: Vec<u8>,
    at: usize,
    /// How often the image was asked for, and whether nothing else was written.
    asks: u64,
    is_in_step: bool,
    ends: u64,
}

impl<'a> Model for LoopLink<'a> {
    ghost use Rattle.std.specs.Prelude.{◌≤◌, drop};
    ghost use Rattle.loop_link.specs.Looped.{IsSound, Looped};

    ghost Value = { Looped };

    ghost view = { λ l. record { image = l.image.now; piece = l.piece; core = l.core; coming = drop l.at l.replies.items; asks = l.asks; is_in_step = l.is_in_step; ends = l.ends } };

    ghost invariant = { λ l. IsSound l.image.now l.piece l.core l.asks l.is_in_step l.replies.items l.at };
}

impl<'a> LoopLink<'a> {
    /// A link to a server of this image, over which a read gives at most `piece` bytes. Nothing was asked for yet.
    pub fn new(alloc: Global, image: &'a [u8], piece: usize) -> Result<LoopLink<'a>, AllocError>
        requires small { length image.now ≤ 2 ^ 48 }
        requires some { 0 < piece }
        ensures { IfOk result (λ l. l ≡ new_looped image.now piece) }
    {
        Ok(LoopLink {
            image,
            core: ServerCore::new(image.len() as u64),
            piece,
            replies: Vec::new(alloc),
            at: 0,
            asks: 0,
            is_in_step: true,
            ends: 0,
        })
    }

    /// Whether this is an ask: the link is in step, nothing is coming, and the piece is a request for a part of the image.
    fn is_ask(&self, bytes: &[u8]) -> bool
        ensures { IsTrue result ↔ IsAsking self.now bytes.now }
    {
        if !self.is_in_step {
            return false;
        }
        if self.at < self.replies.len() {
            return false;
        }
        places_asked(bytes, self.image.len() as u64).is_some()
    }
}

/// Forgets the replies where all of them were read.
fn forget_read(replies: &mut Vec<u8>, at: &mut usize)
    requires { at.old ≤ length replies.old.items }
    ensures order { at.new ≤ length replies.new.items }
    ensures all { drop at.old replies.old.items ≡ [] → (replies.new.items ≡ []) × (at.new ≡ 0) }
{
    if *at == replies.len() {
        replies.clear();
        *at = 0;
    }
}

/// Copies at most `most` bytes from the front of `coming` to the front of `into`, and answers how many.
fn place(coming: &[u8], most: usize, into: &mut [u8]) -> usize
    requires some { 0 < most }
    requires room { 0 < length into.old }
    ensures fits { (result ≤ length coming.now) × (result ≤ most) × (result ≤ length into.new) }
    ensures nothing { (result ≡ 0) ↔ (coming.now ≡ []) }
    ensures bytes { take result into.new ≡ take result coming.now }
{
    let count = coming.len().min(most).min(into.len());
    into[..count].copy_from_slice(&coming[..count]);
    count
}

impl Link for LoopLink<'_> {
    ghost shown = { looped_link };

    fn read(&mut self, into: &mut [u8]) -> Result<usize, LinkError>
        requires not_empty { 0 < length into.old }
        ensures receives { Receives (looped_link self.old) (looped_link self.new) into.new result }
        ensures amount { IfOk result (λ n. n ≤ self.old.piece) }
    {
        let count = place(&self.replies[self.at..], self.piece, into);
        if count == 0 {
            self.ends = self.ends.saturating_add(1);
            return Ok(0);
        }
        self.at += count;
        Ok(count)
    }

    /// The core takes the bytes.
    fn write(&mut self, bytes: &[u8]) -> Result<(), LinkError>
        ensures { Sends (looped_link self.old) (looped_link self.new) bytes.now result }
    {
        let is_ask = self.is_ask(bytes);
        self.is_in_step = false;
        forget_read(&mut self.replies, &mut self.at);
        feed(&mut self.core, self.image, bytes, &mut self.replies)?;
        if !is_ask {
            return Ok(());
        }
        let Some(asks) = self.asks.checked_add(1) else {
            return Err(LinkError::Memory);
        };
        self.asks = asks;
        self.is_in_step = true;
        Ok(())
    }
}
