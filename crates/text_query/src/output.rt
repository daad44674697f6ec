// What a query writes.

/// What a query writes of the features that it finds.
#[derive(Clone, Copy, Debug, PartialEq, Eq)]
pub enum Output {
    /// A line of each: number, offset, size and own box.
    Lines,
    /// A file of them, without an index (FlatGeobuf, "Specification").
    Fgb,
    /// A line of each: the WKB of its geometry (OGC 06-103r4, section 8.2) as lower-case hexadecimal digits, or `none`
    /// where it has no geometry, or one that has no WKB.
    Wkb,
}
