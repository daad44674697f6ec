//! Rows that the program is held to, on files with an index: a file of 179 points in a row, queried, by several boxes and with gaps too, checked and reported
//! on in memory, and queried behind a server that is read byte by byte; and the packing of three features. There is
//! nothing in this crate but its tests.
#![tactic(auto)]

#[cfg(test)]
mod tests;
