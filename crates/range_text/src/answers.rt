// What the texts tell.

/// The part of a file that is asked for; both places count from 0.
#[derive(Clone, Copy, Debug, PartialEq, Eq)]
pub enum RangeAnswer {
    /// The whole file: there is no such range, or it is not understood.
    Whole,
    /// From the first byte to the last one, both included.
    Part { first: u64, last: u64 },
    /// The range begins behind the file's end, or has no byte.
    Unsatisfied,
}

/// The part of a file that a reply holds.
#[derive(Clone, Copy, Debug, PartialEq, Eq)]
pub enum ContentRange {
    /// From the first byte to the last one, both included, of a file of this size.
    Part { first: u64, last: u64, size: u64 },
    /// No part, of a file of this size.
    Unsatisfied { size: u64 },
}
