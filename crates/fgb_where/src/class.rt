// The class of a column's values.
ghost use Rattle.std.specs.Prelude.{◌≡◌};
ghost use Rattle.fgb_where.specs.Values.{class_of};

/// What the values of a column are, by the column's type (FlatGeobuf, header.fbs, ColumnType).
#[derive(Clone, Copy, Debug, PartialEq, Eq)]
pub(crate) enum Class {
    /// Whole numbers: Byte, UByte, Bool, Short, UShort, Int, UInt, Long and ULong.
    Whole,
    /// Numbers of 64 bits: Double.
    Double,
    /// Texts: String.
    Text,
}

impl Class {
    /// The class of the values of a column of this type, if it has one.
    pub(crate) fn of(kind: u8) -> Option<Class>
        ensures { result ≡ class_of kind }
    {
        match kind {
            0..=8 => Some(Class::Whole),
            10 => Some(Class::Double),
            11 => Some(Class::Text),
            _ => None,
        }
    }
}
