// A link in memory, whose calls fail where they are told to.
ghost use Rattle.std.specs.Prelude.{◌≡◌, ◌↔◌, ◌<◌, ◌≤◌, ◌++◌, [], length, min, take, if◌then◌else◌, IsTrue, IfOk, IsErrOf, OnOk, OnErr, Contains};
ghost use Rattle.fgb_outside.specs.Memory.{counted};
ghost use Rattle.byte_links.specs.Link.{Receives, Sends};
ghost use Rattle.byte_links.specs.Memory.{link_of, new_talk};

use crate::links::{Link, LinkError};
use std::alloc::{AllocError, Global};
use std::marker::Model;

/// A link whose other end has sent `input` and takes all that is sent, and whose calls fail by number.
#[derive(Drop)]
pub struct MemoryLink<'a> {
    input: &'a [u8],
    at: usize,
    piece: usize,
    sent: Vec<u8>,
    fail: Vec<u64>,
    calls: u64,
    faults: u64,
    ends: u64,
}

impl<'a> Model for MemoryLink<'a> {
    ghost use Rattle.std.specs.Prelude.{◌<◌, ◌≤◌, length, take, drop};
    ghost use Rattle.byte_links.specs.Memory.{Talk};

    ghost Value = { Talk };

    ghost view = { λ l. record { received = take l.at l.input.now; left = drop l.at l.input.now; sent = l.sent.items; piece = l.piece; fail = l.fail.items; calls = l.calls; faults = l.faults; ends = l.ends } };

    ghost invariant = { λ l. (0 < l.piece) × (l.at ≤ length l.input.now) };
}

impl<'a> MemoryLink<'a> {
    /// A link that receives `input`, at most `piece` bytes by a read. `fail` lists the numbers of the calls that fail, where
    /// the first is 1, and reads and writes are numbered together.
    pub fn new(
        alloc: Global,
        input: &'a [u8],
        piece: usize,
        fail: &[u64],
    ) -> Result<MemoryLink<'a>, AllocError>
        requires { 0 < piece }
        ensures { IfOk result (λ l. l ≡ new_talk input.now piece fail.now) }
    {
        let mut link = MemoryLink::over(alloc, input, piece);
        link.fail = fail.to_vec(alloc)?;
        Ok(link)
    }

    /// A link that receives `input`, and whose calls never fail.
    pub(crate) fn over(alloc: Global, input: &'a [u8], piece: usize) -> MemoryLink<'a>
        requires { 0 < piece }
        ensures { result ≡ new_talk input.now piece [] }
    {
        MemoryLink {
            input,
            at: 0,
            piece,
            sent: Vec::new(alloc),
            fail: Vec::new(alloc),
            calls: 0,
            faults: 0,
            ends: 0,
        }
    }

    /// The bytes of the pieces that were sent.
    pub fn sent(&self) -> &[u8]
        ensures { result.now ≡ self.now.sent }
    {
        &self.sent
    }

    /// Counts a call, and a fault where its number is listed, and tells whether it is.
    fn fails(&mut self) -> bool
        ensures listed { IsTrue result ↔ Contains self.old.fail (counted self.old.calls) }
        ensures counts { self.new ≡ record self.old { calls = counted self.old.calls; faults = (if result then counted self.old.faults else self.old.faults) } }
        ensures later { self.old.faults ≤ self.new.faults }
    {
        self.calls = self.calls.saturating_add(1);
        let is_listed = self.fail.contains(&self.calls);
        if is_listed {
            self.faults = self.faults.saturating_add(1);
        }
        is_listed
    }
}

/// Copies at most `most` bytes from the front of `left` to the front of `into`, and answers how many.
fn place(left: &[u8], most: usize, into: &mut [u8]) -> usize
    ensures count { result ≡ min (min (length left.now) most) (length into.old) }
    ensures bytes { take result into.new ≡ take result left.now }
{
    let count = left.len().min(most).min(into.len());
    into[..count].copy_from_slice(&left[..count]);
    count
}

impl Link for MemoryLink<'_> {
    ghost shown = { link_of };

    fn read(&mut self, into: &mut [u8]) -> Result<usize, LinkError>
        requires not_empty { 0 < length into.old }
        ensures receives { Receives (link_of self.old) (link_of self.new) into.new result }
        ensures front { IfOk result (λ n. self.old.left ≡ take n into.new ++ self.new.left) }
        ensures left { OnErr result (self.new.left ≡ self.old.left) }
        ensures amount { IfOk result (λ n. n ≤ self.old.piece) }
        ensures end { IfOk result (λ n. (n ≡ 0) ↔ (self.old.left ≡ [])) }
        ensures counts { self.new.calls ≡ counted self.old.calls }
        ensures piece { self.new.piece ≡ self.old.piece }
        ensures list { self.new.fail ≡ self.old.fail }
        // Failed comes exactly where the call's number is listed, and no other error comes.
        ensures fails { OnErr result (Contains self.old.fail (counted self.old.calls)) }
        ensures succeeds { OnOk result (¬ Contains self.old.fail (counted self.old.calls)) }
        ensures no_memory { ¬ IsErrOf result LinkError.Memory }
        ensures fault { OnErr result (self.new.faults ≡ counted self.old.faults) }
        ensures no_fault { OnOk result (self.new.faults ≡ self.old.faults) }
    {
        if self.fails() {
            return Err(LinkError::Failed);
        }
        let count = place(&self.input[self.at..], self.piece, into);
        if count == 0 {
            self.ends = self.ends.saturating_add(1);
            return Ok(0);
        }
        self.at += count;
        Ok(count)
    }

    /// A piece that fails or finds no memory leaves the bytes that were sent as they were.
    fn write(&mut self, bytes: &[u8]) -> Result<(), LinkError>
        ensures sends { Sends (link_of self.old) (link_of self.new) bytes.now result }
        ensures err { OnErr result (self.new.sent ≡ self.old.sent) }
        ensures left { self.new.left ≡ self.old.left }
        ensures counts { self.new.calls ≡ counted self.old.calls }
        ensures piece { self.new.piece ≡ self.old.piece }
        ensures list { self.new.fail ≡ self.old.fail }
        ensures fails { IsErrOf result LinkError.Failed → Contains self.old.fail (counted self.old.calls) }
        ensures succeeds { ¬ IsErrOf result LinkError.Failed → ¬ Contains self.old.fail (counted self.old.calls) }
        ensures fault { IsErrOf result LinkError.Failed → self.new.faults ≡ counted self.old.faults }
        ensures no_fault { ¬ IsErrOf result LinkError.Failed → self.new.faults ≡ self.old.faults }
    {
        if self.fails() {
            return Err(LinkError::Failed);
        }
        self.sent.extend_from_slice(bytes)?;
        Ok(())
    }
}
