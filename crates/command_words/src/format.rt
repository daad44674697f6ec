// The form of a file.

/// The form of a file that is converted.
#[derive(Clone, Copy, Debug, PartialEq, Eq)]
pub enum Format {
    /// A FlatGeobuf file.
    Fgb,
    /// Well-known binary: values one after another.
    Wkb,
}
