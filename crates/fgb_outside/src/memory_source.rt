// A source in memory that keeps what it was asked for, and whose calls fail where they are told to.
ghost use Rattle.std.specs.Prelude.{◌≡◌, ◌+◌, ◌<◌, ◌≤◌, ◌++◌, ◌∷◌, [], true, false, length, Some, None, IfOk, IfSome, IsSome, IsErrOf, OnOk, OnErr, Contains};
ghost use Rattle.fgb_outside.specs.Source.{ReadsAt};
ghost use Rattle.fgb_outside.specs.Memory.{counted, source_of};

use crate::sources::{RangeSource, SourceError};
use std::alloc::{AllocError, Global};
use std::marker::Model;

/// A source over bytes in memory that keeps what it was asked for, and whose calls fail by number.
#[derive(Drop)]
pub struct MemorySource<'a> {
    image: &'a [u8],
    fail: Vec<u64>,
    asked: Vec<(u64, u64)>,
    is_told: bool,
    calls: u64,
    faults: u64,
}

impl<'a> Model for MemorySource<'a> {
    ghost use Rattle.std.specs.Prelude.{if◌then◌else◌, Some, None, ◌^◌, ◌<◌};
    ghost use Rattle.fgb_outside.specs.Memory.{Served};

    ghost Value = { Served };

    ghost view = { λ s. record { image = s.image.now; fail = s.fail.items; asked = (if s.is_told then Some s.asked.items else None); calls = s.calls; faults = s.faults } };
}

// Appends the pair to a list that is still told. Without memory for it the list is told no more.
fn note(asked: &mut Vec<(u64, u64)>, is_told: &mut bool, pair: (u64, u64)) -> Result<(), AllocError>
    ensures told { is_told.new ≡ true → (is_told.old ≡ true) × (asked.new.items ≡ asked.old.items ++ pair ∷ []) }
    ensures ok { OnOk result (is_told.new ≡ is_told.old) }
    ensures err { OnErr result ((is_told.old ≡ true) × (is_told.new ≡ false)) }
{
    if *is_told && asked.push(pair).is_err() {
        *is_told = false;
        return Err(AllocError);
    }
    Ok(())
}

impl<'a> MemorySource<'a> {
    /// A source of these bytes. `fail` lists the numbers of the calls that fail, where the first is 1.
    pub fn new(alloc: Global, image: &'a [u8], fail: &[u64]) -> Result<MemorySource<'a>, AllocError>
        ensures { IfOk result (λ s. s ≡ record { image = image.now; fail = fail.now; asked = Some []; calls = 0; faults = 0 }) }
    {
        Ok(MemorySource {
            image,
            fail: fail.to_vec(alloc)?,
            asked: Vec::new(alloc),
            is_told: true,
            calls: 0,
            faults: 0,
        })
    }

    /// The pairs (place, length) of the reads, in order, as long as there was memory for each.
    pub fn asked(&self) -> &[(u64, u64)]
        ensures { IfSome self.now.asked (λ pairs. result.now ≡ pairs) }
    {
        &self.asked
    }
}

impl RangeSource for MemorySource<'_> {
    ghost seen = { source_of };

    fn size(&self) -> u64 {
        self.image.len() as u64
    }

    fn read_at(&mut self, at: u64, into: &mut [u8]) -> Result<(), SourceError>
        requires not_empty { 0 < length into.old }
        requires inside { at + length into.old ≤ length self.old.image }
        ensures reads { ReadsAt (source_of self.old) (source_of self.new) at into.new result }
        ensures counts { self.new.calls ≡ counted self.old.calls }
        ensures list { self.new.fail ≡ self.old.fail }
        // Failed comes exactly where the call's number is listed, unless there was no memory for its pair.
        ensures fails { IsErrOf result SourceError.Failed → Contains self.old.fail (counted self.old.calls) }
        ensures succeeds { OnOk result (¬ Contains self.old.fail (counted self.old.calls)) }
        ensures fault { IsErrOf result SourceError.Failed → self.new.faults ≡ counted self.old.faults }
        ensures no_fault { ¬ IsErrOf result SourceError.Failed → self.new.faults ≡ self.old.faults }
        // Want of memory ends the telling of the list, and does not come again.
        ensures memory { IsErrOf result SourceError.Memory → IsSome self.old.asked × (self.new.asked ≡ None) }
    {
        self.calls = self.calls.saturating_add(1);
        note(&mut self.asked, &mut self.is_told, (at, into.len() as u64))?;
        if self.fail.contains(&self.calls) {
            self.faults = self.faults.saturating_add(1);
            return Err(SourceError::Failed);
        }
        let from = at as usize;
        into.copy_from_slice(&self.image[from..from + into.len()]);
        Ok(())
    }
}
