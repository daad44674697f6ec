// The source with a cache.
ghost use Rattle.std.specs.Prelude.{◌≡◌, ◌⊎◌, ◌+◌, ◌<◌, ◌≤◌, ◌++◌, ◌∷◌, [], true, false, length, Some, None, IfOk, IsErrOf, OnOk, OnErr};
ghost use Rattle.fgb_outside.specs.Source.{ReadsAt, added};
ghost use Rattle.block_source.specs.Blocks.{visits};
ghost use Rattle.block_source.specs.Cached.{EndsList, Fetches, StopsIn, source_of};

use crate::blocks::Blocks;
use fgb_outside::{RangeSource, SourceError};
use std::alloc::{AllocError, Global};
use std::marker::Model;
use std::num::NonZeroUsize;

/// A source that reads whole blocks of 4,096 bytes from another, and keeps the last used ones.
#[derive(Drop)]
pub struct BlockSource<S: RangeSource> {
    inner: S,
    blocks: Blocks,
    asked: Vec<(u64, u64)>,
    is_told: bool,
}

impl<S: RangeSource> Model for BlockSource<S> {
    ghost use Rattle.std.specs.Prelude.{if◌then◌else◌, Some, None};
    ghost use Rattle.std.specs.Map.{keys_of};
    ghost use Rattle.block_source.specs.Cached.{Cached, IsSound};

    ghost Value = { Cached };

    ghost view = { λ s. record { inner = S.seen s.inner; asked = (if s.is_told then Some s.asked.items else None); kept = keys_of s.blocks.kept.entries; most = s.blocks.kept.cap } };

    ghost invariant = { λ s. IsSound (S.seen s.inner) s.blocks.kept };
}

// Appends the pair to a list that is still told. Without memory for it the list is told no more.
fn note(asked: &mut Vec<(u64, u64)>, is_told: &mut bool, pair: (u64, u64)) -> Result<(), AllocError>
    ensures told { is_told.new ≡ true → (is_told.old ≡ true) × (asked.new.items ≡ asked.old.items ++ pair ∷ []) }
    ensures ok { OnOk result (is_told.new ≡ is_told.old) }
    ensures err { OnErr result ((is_told.old ≡ true) × (is_told.new ≡ false)) }
{
    if *is_told && asked.push(pair).is_err() {
        *is_told = false;
        return Err(AllocError);
    }
    Ok(())
}

impl<S: RangeSource> BlockSource<S> {
    /// A source over `inner` that keeps at most so many blocks, and none at first.
    pub fn new(alloc: Global, inner: S, blocks: usize) -> Result<BlockSource<S>, AllocError>
        requires some { 1 ≤ blocks }
        requires most { blocks ≤ 65536 }
        ensures { IfOk result (λ s. s ≡ record { inner = S.seen inner; asked = Some []; kept = []; most = blocks }) }
    {
        let Some(most) = NonZeroUsize::new(blocks) else {
            unreachable!()
        };
        Ok(BlockSource {
            inner,
            blocks: Blocks::new(alloc, most)?,
            asked: Vec::new(alloc),
            is_told: true,
        })
    }

    /// The inner source.
    pub fn into_inner(self) -> S
        ensures { S.seen result ≡ self.inner }
    {
        self.inner
    }
}

impl<S: RangeSource> RangeSource for BlockSource<S> {
    ghost seen = { source_of };

    fn size(&self) -> u64 {
        self.inner.size()
    }

    /// Visits the blocks that hold the range, ascending. One that is kept becomes the last used; another is read from the
    /// inner source by one call, and put.
    fn read_at(&mut self, at: u64, into: &mut [u8]) -> Result<(), SourceError>
        requires not_empty { 0 < length into.old }
        requires inside { at + length into.old ≤ (source_of self.old).size }
        ensures reads { ReadsAt (source_of self.old) (source_of self.new) at into.new result }
        // The blocks that miss are asked for, each by one pair.
        ensures fetches { OnOk result (Fetches self.old self.new (visits at (length into.new))) }
        // An error ends the list of calls, or it comes at a block that missed.
        ensures stops { OnErr result (EndsList self.old self.new result ⊎ StopsIn self.old self.new (visits at (length into.new)) result) }
        // Where there was memory for the call's entry, the list goes on.
        ensures list { EndsList self.old self.new result ⊎ (self.new.asked ≡ added self.old.asked ((at, length into.new) ∷ [])) }
    {
        note(&mut self.asked, &mut self.is_told, (at, into.len() as u64))?;
        self.blocks.read(&mut self.inner, at, into)
    }
}
