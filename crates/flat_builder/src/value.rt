// What stands in a field.
ghost use Rattle.std.specs.Prelude.{◌≡◌, ◌+◌, ◌^◌, ◌<◌, ◌≤◌, length};
ghost use Rattle.flat_builder.specs.Trees.{number};
ghost use Rattle.flat_builder.specs.Shown.{scalar_item, vector_item};
ghost use Rattle.flat_builder.specs.Laying.{stands, width_of};
ghost use Rattle.flat_builder.specs.Blanks.{elements_in, width_in};

/// A number in a table, or an enum's value.
#[derive(Clone, Copy, Debug, PartialEq, Eq)]
pub enum Scalar {
    U8(u8),
    U16(u16),
    I32(i32),
    U64(u64),
}

impl Scalar {
    // Its bytes.
    #[tactic(auto, unfolding(crate::specs::Laying::width_of))]
    pub(crate) fn width(self) -> usize
        ensures { result ≡ width_of (scalar_item self) }
    {
        match self {
            Scalar::U8(_) => 1,
            Scalar::U16(_) => 2,
            Scalar::I32(_) => 4,
            Scalar::U64(_) => 8,
        }
    }

    // The number that its bytes are.
    #[tactic(auto, unfolding(crate::specs::Laying::width_of))]
    pub(crate) fn pattern(self) -> u64
        ensures { scalar_item self ≡ number (width_of (scalar_item self)) result }
    {
        match self {
            Scalar::U8(n) => u64::from(n),
            Scalar::U16(n) => u64::from(n),
            Scalar::I32(n) => u64::from(n.cast_unsigned()),
            Scalar::U64(n) => n,
        }
    }
}

/// A vector of numbers of 1, 4 or 8 bytes each. The patterns of doubles are `Longs`.
#[derive(Debug, Drop)]
pub enum FlatVector {
    Bytes(Vec<u8>),
    Words(Vec<u32>),
    Longs(Vec<u64>),
}

impl FlatVector {
    pub(crate) fn len(&self) -> usize
        ensures { result ≡ length (elements_in self.now) }
    {
        match self {
            FlatVector::Bytes(items) => items.len(),
            FlatVector::Words(items) => items.len(),
            FlatVector::Longs(items) => items.len(),
        }
    }

    pub(crate) fn width(&self) -> usize
        ensures { result ≡ width_in self.now }
    {
        match self {
            FlatVector::Bytes(_) => 1,
            FlatVector::Words(_) => 4,
            FlatVector::Longs(_) => 8,
        }
    }

    // Where its count stands, if it is laid from `cursor` on.
    #[tactic(auto, unfolding(crate::specs::Laying::stands, crate::specs::Laying::round_up))]
    pub(crate) fn stands(&self, cursor: usize) -> usize
        requires { cursor < 2 ^ 63 }
        ensures value { result ≡ stands (vector_item self.now) cursor }
        ensures near { result ≤ cursor + 7 }
        ensures behind { cursor ≤ result }
    {
        match self {
            FlatVector::Longs(_) => cursor.next_multiple_of(8),
            _ => cursor,
        }
    }
}
