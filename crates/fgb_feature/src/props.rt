// The properties of a feature: pairs of a column's number and a value.
ghost use Rattle.std.specs.Prelude.{◌≡◌, ◌≤◌, ◌^◌, length, MatchResult};
ghost use Rattle.flat_layout.specs.Promises.{IsClean, Judges};
ghost use Rattle.fgb_schema.specs.Headers.{types};
ghost use Rattle.fgb_schema.specs.Properties.{BreaksPair, BreaksProperties};
ghost use Rattle.fgb_header.specs.Views.{columns_shown};
ghost use Rattle.fgb_feature.specs.Pairs.{ShowsPair};

use byteorder::{ByteOrder, LittleEndian};
use fgb_header::Columns;
use fgb_values::{Value, read_value};
use flat_views::{Broken, Rule};

/// The bytes of a key.
const KEY: usize = 2;

/// The properties of a feature in order, each the number of its column and its value. A number may come
/// several times. (FlatGeobuf, feature.fbs, Feature, properties)
#[derive(Clone, Copy)]
pub struct Props<'a> {
    /// What is left of the properties.
    bytes: &'a [u8],
    /// The columns that hold.
    columns: Columns<'a>,
    // so each pair can be read
    pub ghost clean: { IsClean (BreaksProperties (types (columns_shown columns)) bytes.now) },
}

impl<'a> Props<'a> {
    /// The properties in these bytes, the first of which stands at `place` in the file, under the columns that
    /// hold. Refuses PropColumn or PropEnd at a key.
    pub(crate) fn read(
        bytes: &'a [u8],
        place: u64,
        columns: Columns<'a>,
    ) -> Result<Props<'a>, Broken>
        requires small { length bytes.now ≤ 268435456 }
        requires near { place ≤ 2 ^ 49 }
        ensures { Judges place (BreaksProperties (types (columns_shown columns.entry)) bytes.now)
            (λ props. (props.bytes.now ≡ bytes.now) × (props.columns ≡ columns.entry)) result }
    {
        let mut at = 0;
        while at < bytes.len() {
            match pair_at(&bytes[at..], columns) {
                Ok((_, _, size)) => at += size,
                Err(rule) => {
                    return Err(Broken {
                        place: place + at as u64,
                        rule,
                    });
                }
            }
        }
        Ok(Props { bytes, columns })
    }

    /// The columns that hold for them.
    pub(crate) fn columns(self) -> Columns<'a>
        ensures { result ≡ self.entry.columns }
    {
        self.columns
    }
}

impl<'a> Iterator for Props<'a> {
    ghost use Rattle.std.specs.Iterator.{YieldsFirstBy, item_count};
    ghost use Rattle.fgb_feature.specs.Pairs.{property_of};
    ghost use Rattle.fgb_feature.specs.Views.{properties_of};

    type Item = (u16, Value<'a>);

    ghost next_gives = { YieldsFirstBy property_of properties_of };

    ghost remaining = { item_count properties_of };

    fn next(&mut self) -> Option<(u16, Value<'a>)> {
        if self.bytes.is_empty() {
            return None;
        }
        let Ok((column, value, size)) = pair_at(self.bytes, self.columns) else {
            unreachable!()
        };
        self.bytes = &self.bytes[size..];
        Some((column, value))
    }
}

/// The pair at the front of some bytes, and how many bytes it takes; or the rule that it breaks.
fn pair_at<'a>(bytes: &'a [u8], columns: Columns<'a>) -> Result<(u16, Value<'a>, usize), Rule>
    ensures { let kinds = types (columns_shown columns.entry) in
        MatchResult result (ShowsPair kinds bytes.now) (BreaksPair kinds bytes.now 0) }
{
    if bytes.len() < KEY {
        return Err(Rule::PropEnd);
    }
    let key = LittleEndian::read_u16(bytes);
    if key as usize >= columns.len() {
        return Err(Rule::PropColumn);
    }
    match read_value(columns.kind(key as usize), &bytes[KEY..]) {
        Some((value, size)) => Ok((key, value, KEY + size)),
        None => Err(Rule::PropEnd),
    }
}
