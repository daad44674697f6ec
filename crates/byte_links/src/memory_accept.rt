// What hands out links in memory.
ghost use Rattle.std.specs.Prelude.{◌≡◌, ◌⊎◌, ◌<◌, ◌++◌, ◌∷◌, [], map, IfOk, IsErrOf, OnOk, OnErr, Contains};
ghost use Rattle.fgb_outside.specs.Memory.{counted};
ghost use Rattle.byte_links.specs.Accept.{Accepts, TakesBack};
ghost use Rattle.byte_links.specs.Memory.{accept_of, link_of, new_talk};

use crate::accepts::Accept;
use crate::links::LinkError;
use crate::memory_link::MemoryLink;
use std::alloc::{AllocError, Global};
use std::collections::VecDeque;
use std::marker::Model;

/// Hands out a link over each input in turn, and keeps those that it takes back. Its calls of `accept` fail by number.
#[derive(Drop)]
pub struct MemoryAccept<'a> {
    alloc: Global,
    inputs: VecDeque<&'a [u8]>,
    piece: usize,
    fail: Vec<u64>,
    calls: u64,
    faults: u64,
    ended: Vec<MemoryLink<'a>>,
}

impl<'a> Model for MemoryAccept<'a> {
    ghost use Rattle.std.specs.Prelude.{◌<◌, map};
    ghost use Rattle.byte_links.specs.Memory.{Offer};

    ghost Value = { Offer };

    ghost view = { λ a. record { inputs = map (λ input. input.now) a.inputs.items; piece = a.piece; fail = a.fail.items; calls = a.calls; faults = a.faults; ended = a.ended.items } };

    ghost invariant = { λ a. 0 < a.piece };
}

impl<'a> MemoryAccept<'a> {
    /// One with no inputs. A read of its links gives at most `piece` bytes. `fail` lists the numbers of the calls of `accept`
    /// that fail, where the first is 1.
    pub fn new(alloc: Global, piece: usize, fail: &[u64]) -> Result<MemoryAccept<'a>, AllocError>
        requires { 0 < piece }
        ensures { IfOk result (λ a. a ≡ record { inputs = []; piece = piece; fail = fail.now; calls = 0; faults = 0; ended = [] }) }
    {
        Ok(MemoryAccept {
            alloc,
            inputs: VecDeque::new(alloc),
            piece,
            fail: fail.to_vec(alloc)?,
            calls: 0,
            faults: 0,
            ended: Vec::new(alloc),
        })
    }

    /// Appends an input.
    pub fn add(&mut self, input: &'a [u8]) -> Result<(), AllocError>
        ensures ok { OnOk result (self.new ≡ record self.old { inputs = self.old.inputs ++ input.now ∷ [] }) }
        ensures err { OnErr result (self.new ≡ self.old) }
    {
        self.inputs.push_back(input)?;
        Ok(())
    }

    /// The links that were taken back, in order.
    pub fn ended(&self) -> &[MemoryLink<'a>]
        ensures { result.now ≡ self.now.ended }
    {
        &self.ended
    }
}

impl<'a> Accept<MemoryLink<'a>> for MemoryAccept<'a> {
    ghost shown = { accept_of };

    /// Hands out a link over the first input that is left.
    fn accept(&mut self) -> Result<MemoryLink<'a>, LinkError>
        ensures accepts { Accepts link_of (accept_of self.old) (accept_of self.new) result }
        ensures ok { IfOk result (λ link. self.old.inputs ≡ link.left ∷ self.new.inputs) }
        ensures new_link { IfOk result (λ link. link ≡ new_talk link.left self.old.piece []) }
        ensures succeeds { OnOk result (¬ Contains self.old.fail (counted self.old.calls)) }
        // Failed comes exactly where the call's number is listed or no input is left, and no other error comes.
        ensures fails { OnErr result (Contains self.old.fail (counted self.old.calls) ⊎ (self.old.inputs ≡ [])) }
        ensures no_memory { ¬ IsErrOf result LinkError.Memory }
        ensures err { OnErr result (self.new.inputs ≡ self.old.inputs) }
        ensures fault { OnErr result (self.new.faults ≡ counted self.old.faults) }
        ensures no_fault { OnOk result (self.new.faults ≡ self.old.faults) }
        ensures counts { self.new.calls ≡ counted self.old.calls }
        ensures piece { self.new.piece ≡ self.old.piece }
        ensures list { self.new.fail ≡ self.old.fail }
        ensures ended { self.new.ended ≡ self.old.ended }
    {
        self.calls = self.calls.saturating_add(1);
        if self.fail.contains(&self.calls) {
            self.faults = self.faults.saturating_add(1);
            return Err(LinkError::Failed);
        }
        let Some(input) = self.inputs.pop_front() else {
            self.faults = self.faults.saturating_add(1);
            return Err(LinkError::Failed);
        };
        Ok(MemoryLink::over(self.alloc, input, self.piece))
    }

    /// Keeps the link.
    fn done(&mut self, link: MemoryLink<'a>) -> Result<(), LinkError>
        ensures takes { TakesBack (link_of link.entry) (accept_of self.old) (accept_of self.new) result }
        ensures ok { OnOk result (self.new ≡ record self.old { ended = self.old.ended ++ link.entry ∷ [] }) }
        ensures err { OnErr result (self.new ≡ self.old) }
    {
        self.ended.push(link)?;
        Ok(())
    }
}
