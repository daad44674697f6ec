//! A source that keeps the last used blocks of another, so that what is read again is not asked for again.
//!
//! Block b of a file is its bytes from 4096 * b on, 4,096 of them or up to its end. A [`BlockSource`] reads whole blocks from
//! its inner source, each by one call, and keeps the last used ones with `lru`. It is seen as its inner source, the list
//! of its calls, the numbers of the blocks that it keeps, the last used first, and how many it keeps at most. A read that
//! answers Ok has asked the inner source for just the blocks of `misses_from`, and then keeps those of `kept_from`
//! (`specs/Misses.antt`).
//!
//! ```text
//! let mut source = BlockSource::new(alloc, inner, 16)?;
//! source.read_at(4_000, &mut piece)?;
//! ```
#![tactic(auto)]

mod blocks;
mod laws;
mod source;
#[cfg(test)]
mod tests;

pub use laws::misses_add_up;
pub use source::BlockSource;
