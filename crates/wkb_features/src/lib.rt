//! Features written as well-known binary, one value after another (OGC 06-103r4, section 8.2).
//!
//! [`write_values`] spells the geometry of each owned feature in its one little-endian form (`IsWkb` of `wkb_writer`). Before
//! anything is written it refuses the first feature that has no geometry, or one that no WKB holds, at the place where that
//! feature stands in its file.
//!
//! ```text
//! write_values(alloc, &file.features, &file.places, &mut out)?;
//! ```
#![tactic(auto)]

mod error;
#[cfg(test)]
mod tests;
mod values;

pub use error::ValuesError;
pub use values::write_values;
