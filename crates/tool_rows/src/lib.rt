//! Rows that the program is held to, on files without an index: what is asked by words, what queries, checks, conversions
//! and the making of features write, what is refused and where, and what happens where a source or a sink fails.
//!
//! The library has the files of these rows, by hand, and runs of the tool over them; the rows are its tests.
#![tactic(auto)]

mod files;
mod runs;

pub use files::{
    BARE, COUNTED, ELEVEN, EMPTY, FEATURE, FIVE, INDEXED, NARROW, NEG_ZERO, ONE, TEN, THREE, TIME,
    TIMED, TWO, ZERO, changed, counted_file, file_of, push_points,
};
pub use runs::{BOTH, CHECK, FIRST, QUERY, Ran, USAGE, front_of, run_over};

#[cfg(test)]
mod tests;
