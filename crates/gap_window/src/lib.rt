//! A window over a section of a source that asks for short holes between what is needed, too.
//!
//! A client over HTTP would rather fetch a few bytes that it does not need than send another request. A [`GapWindow`]
//! is given the places of a section that are needed, in ascending order. [`GapWindow::reach`] goes on to one of them;
//! a hole that is shorter than the gap is asked for along with what follows it, and a longer one is left out. Which
//! positions are asked for in all is `bridged` in `specs/Gaps.antt`.
//!
//! ```text
//! let mut window = GapWindow::new(alloc, first, end, gap);
//! window.reach(&mut source, place, 40, until)?;
//! let node = &window.bytes()[..40];
//! ```
#![tactic(auto)]

mod moves;
#[cfg(test)]
mod tests;
mod window;

pub use window::GapWindow;
