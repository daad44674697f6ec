// The buffer for the heads of replies.
ghost use Rattle.std.specs.Prelude.{◌≡◌, ◌≤◌, [], ◌++◌, length, IfOk, OnOk, IfErr};
ghost use Rattle.range_client.specs.Fronts.{Begun, Halted, no_front};

use crate::faults::Fault;
use crate::heads::read_head;
use byte_links::Link;
use std::alloc::{AllocError, Global};
use std::marker::Model;

/// The most bytes of a head.
const MOST: usize = 8192;

/// The bytes that have come for the head of a reply: those of the head, and those that came behind it. While no head has
/// ended, all of them are the head's.
#[derive(Drop)]
pub(crate) struct Front {
    bytes: Vec<u8>,
    end: usize,
    len: usize,
}

impl Model for Front {
    ghost use Rattle.std.specs.Prelude.{◌≡◌, ◌≤◌, length, take, slice_range};
    ghost use Rattle.range_client.specs.Fronts.{Fronted};

    ghost Value = { Fronted };

    ghost view = { λ f. record { head = take f.end f.bytes.items; rest = slice_range f.bytes.items f.end f.len } };

    ghost invariant = { λ f. (length f.bytes.items ≡ 8192) × (f.end ≤ f.len) × (f.len ≤ 8192) };
}

impl Front {
    /// One into which nothing has come.
    pub(crate) fn new(alloc: Global) -> Result<Front, AllocError>
        ensures { IfOk result (λ front. front ≡ no_front) }
    {
        Ok(Front {
            bytes: vec![in alloc; 0; MOST]?,
            end: 0,
            len: 0,
        })
    }

    /// The bytes of the head.
    pub(crate) fn head(&self) -> &[u8]
        ensures { result.now ≡ self.now.head }
    {
        &self.bytes[..self.end]
    }

    /// The bytes that came behind it.
    pub(crate) fn rest(&self) -> &[u8]
        ensures { result.now ≡ self.now.rest }
    {
        &self.bytes[self.end..self.len]
    }

    /// The bytes of the head.
    pub(crate) fn into_head(self) -> Vec<u8>
        ensures { result.items ≡ self.head }
    {
        let mut bytes = self.bytes;
        bytes.truncate(self.end);
        bytes
    }

    /// Reads anew until a head has ended, and at most `ahead` bytes behind it.
    pub(crate) fn read<L: Link>(&mut self, link: &mut L, ahead: usize) -> Result<(), Fault>
        ensures begun { OnOk result (Begun (L.shown link.old) (L.shown link.new) self.new ahead) }
        ensures stopped { IfErr result (Halted (L.shown link.old) (L.shown link.new) self.new.head) }
    {
        self.len = 0;
        match read_head(link, &mut self.bytes, &mut self.len, ahead) {
            Ok(end) => {
                self.end = end;
                Ok(())
            }
            Err(fault) => {
                self.end = self.len;
                Err(fault)
            }
        }
    }
}
