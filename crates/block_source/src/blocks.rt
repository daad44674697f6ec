// The blocks that are kept.
ghost use Rattle.std.specs.Prelude.{◌≡◌, ◌+◌, ◌-◌, ◌*◌, ◌/◌, ◌<◌, ◌≤◌, ◌∷◌, [], min, length, nat_eq, take, is_some, slice_range, OnOk, OnErr, IfOk, IfSome, IsErrOf};
ghost use Rattle.std.specs.Map.{keys_of, lookup};
ghost use Rattle.block_source.specs.Blocks.{block_length, visits};
ghost use Rattle.block_source.specs.Cached.{AreBytes, Asks, IsBlock, IsSound, Lands};
ghost use Rattle.lru.specs.LruCache.{lru_cache, promoted, put_entries};
ghost use Rattle.std.specs.NonZero.{non_zero_usize_get};

use fgb_outside::{RangeSource, SourceError};
use lru::LruCache;
use std::alloc::{AllocError, AllocFailed, Global};
use std::mem;
use std::num::NonZeroUsize;

/// How many bytes a block has that does not end with the file.
const BLOCK: u64 = 4096;

/// The last used blocks by their numbers, and a buffer for the next one, which is that of the block dropped last.
#[derive(Drop)]
pub(crate) struct Blocks {
    pub(crate) kept: LruCache<u64, Vec<u8>>,
    spare: Vec<u8>,
    alloc: Global,
}

/// How many bytes this block has in a file of this size.
fn block_len(size: u64, block: u64) -> u64
    requires { 4096 * block < size }
    ensures { result ≡ block_length size block }
{
    BLOCK.min(size - BLOCK * block)
}

impl Blocks {
    /// None, and room for so many.
    pub(crate) fn new(alloc: Global, most: NonZeroUsize) -> Result<Blocks, AllocError>
        ensures { IfOk result (λ blocks. blocks.kept ≡ lru_cache [] (non_zero_usize_get most)) }
    {
        Ok(Blocks {
            kept: LruCache::new(alloc, most)?,
            spare: Vec::new(alloc),
            alloc,
        })
    }

    /// Puts the block whose bytes stand in the buffer. Where so many are kept already, the one used longest ago is
    /// dropped, and its buffer is the next one.
    fn put(&mut self, block: u64) -> Result<(), AllocError>
        ensures ok { OnOk result (self.new.kept ≡ lru_cache (put_entries nat_eq self.old.kept block self.old.spare) self.old.kept.cap) }
        ensures err { OnErr result (self.new.kept ≡ self.old.kept) }
    {
        let bytes = mem::replace(&mut self.spare, Vec::new(self.alloc));
        match self.kept.push(block, bytes) {
            Ok(Some((_, dropped))) => self.spare = dropped,
            Ok(None) => {}
            Err(AllocFailed { value: (_, bytes) }) => {
                self.spare = bytes;
                return Err(AllocError);
            }
        }
        Ok(())
    }

    /// Copies a part of a block that is kept, which becomes the last used, and says whether it is.
    fn copy_kept(&mut self, block: u64, offset: usize, part: &mut [u8]) -> bool
        requires room { IfSome (lookup (nat_eq block) self.old.kept.entries) (λ v. offset + length part.old ≤ length v.items) }
        ensures found { result ≡ is_some (lookup (nat_eq block) self.old.kept.entries) }
        ensures kept { self.new.kept ≡ lru_cache (promoted (nat_eq block) self.old.kept.entries) self.old.kept.cap }
        ensures bytes { IfSome (lookup (nat_eq block) self.old.kept.entries) (λ v. part.new ≡ slice_range v.items offset (offset + length part.new)) }
    {
        match self.kept.get(&block) {
            Some(bytes) => {
                copy_part(bytes, offset, part);
                true
            }
            None => false,
        }
    }

    /// Visits a block, and copies its bytes from the place `from` of the file on into `part`.
    fn visit<S: RangeSource>(
        &mut self,
        inner: &mut S,
        block: u64,
        from: u64,
        part: &mut [u8],
    ) -> Result<(), SourceError>
        requires sound { IsSound (S.seen inner.old) self.old.kept }
        requires some { 0 < length part.old }
        requires from { 4096 * block ≤ from }
        requires till { from + length part.old ≤ 4096 * block + block_length (S.seen inner.old).size block }
        ensures lands { Lands (S.seen inner.old) (S.seen inner.new) self.old.kept self.new.kept (block ∷ []) result }
        ensures bytes { OnOk result (AreBytes (S.seen inner.old) from part.new) }
    {
        let offset = (from - BLOCK * block) as usize;
        if self.copy_kept(block, offset, part) {
            return Ok(());
        }
        fetch(inner, block, &mut self.spare)?;
        copy_part(&self.spare, offset, part);
        self.put(block)?;
        Ok(())
    }

    /// The same into a part of a buffer.
    fn visit_part<S: RangeSource>(
        &mut self,
        inner: &mut S,
        block: u64,
        from: u64,
        into: &mut [u8],
        start: usize,
        end: usize,
    ) -> Result<(), SourceError>
        requires sound { IsSound (S.seen inner.old) self.old.kept }
        requires some { start < end }
        requires room { end ≤ length into.old }
        requires from { 4096 * block ≤ from }
        requires till { from + (end - start) ≤ 4096 * block + block_length (S.seen inner.old).size block }
        ensures lands { Lands (S.seen inner.old) (S.seen inner.new) self.old.kept self.new.kept (block ∷ []) result }
        ensures front { take start into.new ≡ take start into.old }
        ensures bytes { OnOk result (AreBytes (S.seen inner.old) from (slice_range into.new start end)) }
    {
        self.visit(inner, block, from, &mut into[start..end])?;
        Ok(())
    }

    /// Visits the blocks that hold the places from `at` on, ascending, and copies their bytes into `into`.
    pub(crate) fn read<S: RangeSource>(
        &mut self,
        inner: &mut S,
        at: u64,
        into: &mut [u8],
    ) -> Result<(), SourceError>
        requires sound { IsSound (S.seen inner.old) self.old.kept }
        requires some { 0 < length into.old }
        requires inside { at + length into.old ≤ (S.seen inner.old).size }
        ensures lands { Lands (S.seen inner.old) (S.seen inner.new) self.old.kept self.new.kept (visits at (length into.new)) result }
        ensures bytes { OnOk result (AreBytes (S.seen inner.old) at into.new) }
    {
        let size = inner.size();
        let end = at + into.len() as u64;
        for block in at / BLOCK..(end - 1) / BLOCK + 1 {
            let begin = BLOCK * block;
            let from = at.max(begin);
            let till = end.min(begin + block_len(size, block));
            self.visit_part(
                inner,
                block,
                from,
                into,
                (from - at) as usize,
                (till - at) as usize,
            )?;
        }
        Ok(())
    }
}

/// Copies the bytes of a block from `offset` on.
fn copy_part(bytes: &[u8], offset: usize, part: &mut [u8])
    requires { offset + length part.old ≤ length bytes.now }
    ensures { part.new ≡ slice_range bytes.now offset (offset + length part.new) }
{
    part.copy_from_slice(&bytes[offset..offset + part.len()]);
}

/// Reads a block into the buffer, by one call. Without memory for it there is no call.
#[tactic(auto, using(crate::proofs::Visiting::asks_read))]
fn fetch<S: RangeSource>(inner: &mut S, block: u64, buffer: &mut Vec<u8>) -> Result<(), SourceError>
    requires inside { 4096 * block < (S.seen inner.old).size }
    ensures asks { Asks (S.seen inner.old) (S.seen inner.new) block result }
    ensures bytes { OnOk result (IsBlock (S.seen inner.new) block buffer.new.items) }
{
    let size = inner.size();
    buffer.resize(block_len(size, block) as usize, 0)?;
    inner.read_at(BLOCK * block, buffer)
}
