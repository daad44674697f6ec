ghost use Rattle.std.specs.Prelude.{◌≡◌, ◌⊎◌, ◌&&◌, ◌+◌, ◌*◌, ◌^◌, ◌≤◌, nat_le, not, length, option_map};
ghost use Rattle.flat_layout.specs.Layout.{is_absent, is_table, led_to, number_in, text};
ghost use Rattle.flat_layout.specs.Promises.{BreaksField, BreaksText, BreaksTo, Judges};
ghost use Rattle.flat_views.specs.Tables.{base_of, bytes_of, place_of};
ghost use Rattle.fgb_schema.specs.Tables.{is_readable};
ghost use Rattle.fgb_schema.specs.Paths.{Breaks, Forbids, column_part};
ghost use Rattle.fgb_schema.specs.Headers.{column_at, flag_in};
ghost use Rattle.fgb_schema.specs.Weights.{text_weight};

use crate::crs::text_size;
use flat_views::{Broken, Rule, Table};

/// The greatest type of a column: Binary.
const LAST_TYPE: u8 = 14;

/// The fields of the schema (FlatGeobuf, header.fbs, table Column).
const NAME: u16 = 0;

const TYPE: u16 = 1;

const TITLE: u16 = 2;

const DESCRIPTION: u16 = 3;

const WIDTH: u16 = 4;

const PRECISION: u16 = 5;

const SCALE: u16 = 6;

const NULLABLE: u16 = 7;

const UNIQUE: u16 = 8;

const PRIMARY_KEY: u16 = 9;

const METADATA: u16 = 10;

/// A column of the features' properties. (FlatGeobuf, header.fbs, table Column)
#[derive(Clone, Copy)]
pub struct ColumnView<'a> {
    name: &'a str,
    kind: u8,
    title: Option<&'a str>,
    description: Option<&'a str>,
    width: i32,
    precision: i32,
    scale: i32,
    nullable: bool,
    unique: bool,
    primary_key: bool,
    metadata: Option<&'a str>,
    // the sum of their sizes then fits
    pub ghost short: { length name.now + text_weight (option_map (λ s. s.now) title)
        + text_weight (option_map (λ s. s.now) description) + text_weight (option_map (λ s. s.now) metadata) ≤ 4 * 2 ^ 28 },
    pub ghost known: { kind ≤ 14 },
}

impl<'a> ColumnView<'a> {
    ghost use Rattle.fgb_header.specs.Parts.{column_shown, column_weight};

    /// The column in a table. Refuses Field, Offset, Vector, Zero or Utf8, and at its table Required or
    /// ColumnType.
    pub(crate) fn read(table: Table<'a>) -> Result<ColumnView<'a>, Broken>
        ensures { let b = bytes_of table.entry in let t = place_of table.entry in
            Judges (base_of table.entry) (Breaks b (column_part t)) (λ c. column_shown c ≡ column_at b t) result }
    {
        let name = required_name(table)?;
        let kind = known_kind(table)?;
        let title = table.string(TITLE)?;
        let description = table.string(DESCRIPTION)?;
        let width = table.scalar_i32(WIDTH, -1)?;
        let precision = table.scalar_i32(PRECISION, -1)?;
        let scale = table.scalar_i32(SCALE, -1)?;
        let nullable = flag(table, NULLABLE, 1)?;
        let unique = flag(table, UNIQUE, 0)?;
        let primary_key = flag(table, PRIMARY_KEY, 0)?;
        let metadata = table.string(METADATA)?;
        Ok(ColumnView {
            name,
            kind,
            title,
            description,
            width,
            precision,
            scale,
            nullable,
            unique,
            primary_key,
            metadata,
        })
    }

    /// What its table and its texts weigh.
    pub(crate) fn weight(&self) -> u64
        ensures { result ≡ column_weight (column_shown self.now) }
    {
        4 + self.name.len() as u64
            + text_size(self.title)
            + text_size(self.description)
            + text_size(self.metadata)
    }

    /// Its name.
    pub fn name(&self) -> &'a str
        ensures { result.now ≡ (column_shown self.now).name }
    {
        self.name
    }

    /// The type of its values: the field `type`.
    pub fn kind(&self) -> u8
        ensures { result ≡ (column_shown self.now).kind }
    {
        self.kind
    }

    /// Its title.
    pub fn title(&self) -> Option<&'a str>
        ensures { option_map (λ s. s.now) result ≡ (column_shown self.now).title }
    {
        self.title
    }

    /// What it is.
    pub fn description(&self) -> Option<&'a str>
        ensures { option_map (λ s. s.now) result ≡ (column_shown self.now).description }
    {
        self.description
    }

    /// How wide its values are, or -1. It is kept, and is not judged, as are precision, scale and the flags.
    pub fn width(&self) -> i32
        ensures { result ≡ (column_shown self.now).width }
    {
        self.width
    }

    /// How precise its values are, or -1.
    pub fn precision(&self) -> i32
        ensures { result ≡ (column_shown self.now).precision }
    {
        self.precision
    }

    /// The scale of its values, or -1.
    pub fn scale(&self) -> i32
        ensures { result ≡ (column_shown self.now).scale }
    {
        self.scale
    }

    /// Whether a feature may lack a value; true where the column does not say it.
    pub fn nullable(&self) -> bool
        ensures { result ≡ (column_shown self.now).nullable }
    {
        self.nullable
    }

    /// Whether no two features have one value.
    pub fn unique(&self) -> bool
        ensures { result ≡ (column_shown self.now).unique }
    {
        self.unique
    }

    /// Whether its values are the features' keys.
    pub fn primary_key(&self) -> bool
        ensures { result ≡ (column_shown self.now).primary_key }
    {
        self.primary_key
    }

    /// What else the writer says of it, as JSON. It is kept, and is not judged.
    pub fn metadata(&self) -> Option<&'a str>
        ensures { option_map (λ s. s.now) result ≡ (column_shown self.now).metadata }
    {
        self.metadata
    }
}

/// The name of the column in a table. Refuses Field, Offset, Vector, Zero or Utf8, and at the table
/// Required where there is none.
fn required_name<'a>(table: Table<'a>) -> Result<&'a str, Broken>
    ensures { let b = bytes_of table.entry in let t = place_of table.entry in
        Judges (base_of table.entry)
        (λ q r. BreaksTo BreaksText b t 0 q r ⊎ Forbids Rule.Required (is_table b t) (not (is_absent b t 0)) t q r)
        (λ name. name.now ≡ text b (led_to b t 0)) result }
{
    match table.string(NAME)? {
        Some(name) => Ok(name),
        None => Err(refused(table, Rule::Required)),
    }
}

/// The type of the column in a table. Refuses Field, and at the table ColumnType where it is above 14.
pub(crate) fn known_kind(table: Table) -> Result<u8, Broken>
    ensures { let b = bytes_of table.entry in let t = place_of table.entry in
        Judges (base_of table.entry)
        (λ q r. BreaksField 1 b t 1 q r
        ⊎ Forbids Rule.ColumnType (is_table b t && is_readable 1 b t 1) (nat_le (number_in 1 b t 1 0) 14) t q r)
        (λ kind. kind ≡ number_in 1 b t 1 0) result }
{
    let kind = table.scalar_u8(TYPE, 0)?;
    if kind > LAST_TYPE {
        return Err(refused(table, Rule::ColumnType));
    }
    Ok(kind)
}

/// A refusal by a rule that the table breaks.
pub(crate) fn refused(table: Table, rule: Rule) -> Broken
    ensures { result ≡ record { place = base_of table.entry + place_of table.entry; rule = rule } }
{
    Broken {
        place: table.place(),
        rule,
    }
}

/// The bool in a field: whether its byte, or the default where the field is absent, is not 0. Refuses
/// Field.
pub(crate) fn flag(table: Table, field: u16, default: u8) -> Result<bool, Broken>
    ensures { let b = bytes_of table.entry in let t = place_of table.entry in
        Judges (base_of table.entry) (BreaksField 1 b t field) (λ x. x ≡ flag_in b t field default) result }
{
    Ok(table.scalar_u8(field, default)? != 0)
}
