//! The rules of FlatGeobuf's buffers, and what the bytes of a FlatBuffers buffer mean.
//!
//! `Rule` and `Broken` are what each reader above refuses with: a rule, and the place in the file
//! where it is broken. The definitions in `specs/` say what stands in a buffer (`Layout`: `target`,
//! `is_table`, `place_in`, `number_in`, `text_in`, `longs`), where a rule is broken (`Promises`:
//! `BreaksOffset`, `BreaksTable`, `BreaksField`, `BreaksVector`, `BreaksText`, `BreaksTo`), and what a
//! call on a buffer promises (`Judges`: Ok exactly where nothing is broken, and each refusal names a
//! broken rule).
//!
//! ```text
//! let broken = Broken { place: 12, rule: Rule::Offset };
//! broken.rule.name()      // "Offset"
//! broken.rule.number()    // 5
//! ```
#![tactic(auto)]

ghost use Rattle.std.specs.Prelude.{◌≡◌};
ghost use Rattle.flat_layout.specs.Rules.{name_of, number_of};

/// A rule that a file, a buffer or a WKB value can break. The order is that of the numbers, from 0.
#[derive(Clone, Copy, Debug, PartialEq, Eq)]
pub enum Rule {
    /// The file has an index, which a query does not read yet.
    Indexed,
    /// The file's size is above 2^48.
    FileSize,
    /// The file has fewer than 12 bytes.
    Short,
    /// One of the first seven bytes is not `66 67 62 03 66 67 62`.
    Magic,
    /// The header is larger than 10,485,760 bytes, or passes the file's end.
    HeaderSize,
    /// An offset is below 4, or its target's first four bytes are not in the buffer.
    Offset,
    /// The vtable or the table passes the buffer, or one of their sizes can't be.
    Vtable,
    /// A present field stands below place 4 of its table, or passes the table's size.
    Field,
    /// The elements of a vector pass the buffer's end.
    Vector,
    /// The byte after a string is outside the buffer, or is not zero.
    Zero,
    /// A string is not UTF-8.
    Utf8,
    /// A column has no name.
    Required,
    /// The buffer's weight is above 4 times its size.
    Weight,
    /// The header's type is above 7, or a geometry's type is not 1 to 7.
    Kind,
    /// The index's node size is 1.
    NodeSize,
    /// A column's type is above 14.
    ColumnType,
    /// There are over 65,536 columns.
    ColumnCount,
    /// The index has no levels, or passes the file's end.
    IndexPastEnd,
    /// A node's four patterns are neither a box nor the empty box.
    NodeBox,
    /// An inner node's offset is not the number of its first child.
    ChildOffset,
    /// An inner node's box does not contain the box of a child.
    ParentBox,
    /// A leaf's offset is not the place of its feature.
    LeafOffset,
    /// A leaf's box is not that of the feature at its offset.
    LeafBox,
    /// The four bytes at a leaf's offset pass the file's end.
    LeafPastEnd,
    /// An earlier leaf's feature reaches past this leaf's offset.
    LeafOrder,
    /// A feature's four size bytes or its buffer pass the file's end.
    FeaturePastEnd,
    /// A feature has more than 268,435,456 bytes.
    FeatureSize,
    /// The number of features is not the one that the header tells.
    FeatureCount,
    /// A geometry stands deeper than 16.
    Depth,
    /// The vector xy has an odd count.
    PairCount,
    /// A Point has more than one point.
    PointCount,
    /// The vector ends descends somewhere, or does not end at the number of points.
    Ends,
    /// z, m, t or tm has a count that is neither 0 nor the number of points.
    Ordinates,
    /// An x or y pattern is not finite.
    NotFinite,
    /// A property's column number is not below the number of columns that hold.
    PropColumn,
    /// A key or its value passes the end of the properties.
    PropEnd,
    /// A WKB value or file has more than 268,435,456 bytes.
    WkbSize,
    /// The bytes end inside an item of WKB.
    WkbEnd,
    /// A byte order is neither 0 nor 1.
    WkbOrder,
    /// A WKB type is not one of the profile.
    WkbType,
    /// A member's kind does not fit its Multi type, or is an empty Point in a MultiPoint.
    WkbMember,
    /// A member's dimension is not its outer geometry's.
    WkbDimension,
    /// A WKB shape is deeper than 16.
    WkbDepth,
    /// Bytes follow a WKB value.
    WkbRest,
    /// A shape has no WKB of the profile, or a feature to be written as WKB has no geometry.
    NoWkb,
    /// The header has no column of the name of a condition.
    WhereColumn,
    /// The column of a condition has a type that is not compared.
    WhereType,
    /// The value of a condition is not of its column's kind.
    WhereValue,
    /// A feature has own columns, a column number twice, or a geometry without WKB, and so no row of a table.
    NoRow,
    /// A table has more than 268,435,456 bytes.
    TableSize,
    /// A table has no head of a geometry and named, typed columns.
    TableHead,
    /// A record of a table has another number of fields than the head.
    TableRow,
    /// A field of a table is not of the form of its column's type.
    TableValue,
    /// The geometry of a record is not the digits of an EWKB value.
    TableWkb,
}

impl Rule {
    /// The rule's name, as messages print it.
    pub fn name(self) -> &'static str
        ensures { result.now ≡ name_of self }
    {
        match self {
            Rule::Indexed => "Indexed",
            Rule::FileSize => "FileSize",
            Rule::Short => "Short",
            Rule::Magic => "Magic",
            Rule::HeaderSize => "HeaderSize",
            Rule::Offset => "Offset",
            Rule::Vtable => "Vtable",
            Rule::Field => "Field",
            Rule::Vector => "Vector",
            Rule::Zero => "Zero",
            Rule::Utf8 => "Utf8",
            Rule::Required => "Required",
            Rule::Weight => "Weight",
            Rule::Kind => "Kind",
            Rule::NodeSize => "NodeSize",
            Rule::ColumnType => "ColumnType",
            Rule::ColumnCount => "ColumnCount",
            Rule::IndexPastEnd => "IndexPastEnd",
            Rule::NodeBox => "NodeBox",
            Rule::ChildOffset => "ChildOffset",
            Rule::ParentBox => "ParentBox",
            Rule::LeafOffset => "LeafOffset",
            Rule::LeafBox => "LeafBox",
            Rule::LeafPastEnd => "LeafPastEnd",
            Rule::LeafOrder => "LeafOrder",
            Rule::FeaturePastEnd => "FeaturePastEnd",
            Rule::FeatureSize => "FeatureSize",
            Rule::FeatureCount => "FeatureCount",
            Rule::Depth => "Depth",
            Rule::PairCount => "PairCount",
            Rule::PointCount => "PointCount",
            Rule::Ends => "Ends",
            Rule::Ordinates => "Ordinates",
            Rule::NotFinite => "NotFinite",
            Rule::PropColumn => "PropColumn",
            Rule::PropEnd => "PropEnd",
            Rule::WkbSize => "WkbSize",
            Rule::WkbEnd => "WkbEnd",
            Rule::WkbOrder => "WkbOrder",
            Rule::WkbType => "WkbType",
            Rule::WkbMember => "WkbMember",
            Rule::WkbDimension => "WkbDimension",
            Rule::WkbDepth => "WkbDepth",
            Rule::WkbRest => "WkbRest",
            Rule::NoWkb => "NoWkb",
            Rule::WhereColumn => "WhereColumn",
            Rule::WhereType => "WhereType",
            Rule::WhereValue => "WhereValue",
            Rule::NoRow => "NoRow",
            Rule::TableSize => "TableSize",
            Rule::TableHead => "TableHead",
            Rule::TableRow => "TableRow",
            Rule::TableValue => "TableValue",
            Rule::TableWkb => "TableWkb",
        }
    }

    /// The rule's number, 0 to 53.
    pub fn number(self) -> u16
        ensures { result ≡ number_of self }
    {
        self as u16
    }
}

/// A broken rule and where it is broken: `place` is in bytes from the first byte of the file.
#[derive(Clone, Copy, Debug, PartialEq, Eq)]
pub struct Broken {
    pub place: u64,
    pub rule: Rule,
}

#[cfg(test)]
mod tests;
