//! Bytes written to a sink in pieces: small ones are gathered on a page of 64 KiB, and large ones are passed on.
//!
//! A [`Page`] shows the bytes that stand on it. What was written and what stands on it now are what was put
//! ([`Page::put`], [`Page::put_framed`]: `Adds` of `specs/Pages.antt`), and [`Page::write`] writes the rest at the end.
//!
//! ```text
//! let mut page = Page::new(alloc);
//! for piece in pieces {
//!     page.put(&mut out, piece)?;
//! }
//! page.write(&mut out)?;
//! ```
#![tactic(auto)]

mod page;
#[cfg(test)]
mod tests;

pub use page::Page;
