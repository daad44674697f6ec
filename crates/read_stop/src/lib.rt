//! What readers of a file share: why reading stops before its end, and that what they ask for lies inside a section.
//!
//! [`ReadStop`] says why, and `AsksOnly` in `specs/Asks.antt` says of some calls that every request that they made of a
//! source has a property, as to lie between two places.
//!
//! ```text
//! fn judge(bytes: &[u8]) -> Result<(), Broken>;
//! fn read(source: &mut S) -> Result<(), ReadStop> {
//!     source.read_at(0, &mut bytes)?;     // SourceFailed or Memory
//!     judge(&bytes)?;                     // Refused
//!     Ok(())
//! }
//! ```
#![tactic(auto)]

mod stop;

pub use stop::ReadStop;
