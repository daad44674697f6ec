ghost use Rattle.std.specs.Prelude.{◌≡◌, ◌+◌, ◌*◌, ◌^◌, ◌≤◌, option_map};
ghost use Rattle.flat_layout.specs.Promises.{Judges};
ghost use Rattle.flat_views.specs.Tables.{base_of, bytes_of, place_of};
ghost use Rattle.fgb_schema.specs.Paths.{Breaks, crs_part};
ghost use Rattle.fgb_schema.specs.Headers.{crs_at};
ghost use Rattle.fgb_schema.specs.Weights.{text_weight};

use flat_views::{Broken, Table};

/// The fields of the schema (FlatGeobuf, header.fbs, table Crs).
const ORG: u16 = 0;

const CODE: u16 = 1;

const NAME: u16 = 2;

const DESCRIPTION: u16 = 3;

const WKT: u16 = 4;

const CODE_STRING: u16 = 5;

/// The coordinate reference system of a file. (FlatGeobuf, header.fbs, table Crs)
#[derive(Clone, Copy)]
pub struct CrsView<'a> {
    org: Option<&'a str>,
    code: i32,
    name: Option<&'a str>,
    description: Option<&'a str>,
    wkt: Option<&'a str>,
    code_string: Option<&'a str>,
    // the sum of their sizes then fits
    pub ghost short: { text_weight (option_map (λ s. s.now) org) + text_weight (option_map (λ s. s.now) name)
        + text_weight (option_map (λ s. s.now) description) + text_weight (option_map (λ s. s.now) wkt)
        + text_weight (option_map (λ s. s.now) code_string) ≤ 5 * 2 ^ 28 },
}

impl<'a> CrsView<'a> {
    ghost use Rattle.fgb_header.specs.Parts.{crs_shown, crs_weight};

    /// The coordinate reference system in a table. Refuses Field, Offset, Vector, Zero or Utf8.
    pub(crate) fn read(table: Table<'a>) -> Result<CrsView<'a>, Broken>
        ensures { let b = bytes_of table.entry in let t = place_of table.entry in
            Judges (base_of table.entry) (Breaks b (crs_part t)) (λ c. crs_shown c ≡ crs_at b t) result }
    {
        let org = table.string(ORG)?;
        let code = table.scalar_i32(CODE, 0)?;
        let name = table.string(NAME)?;
        let description = table.string(DESCRIPTION)?;
        let wkt = table.string(WKT)?;
        let code_string = table.string(CODE_STRING)?;
        Ok(CrsView {
            org,
            code,
            name,
            description,
            wkt,
            code_string,
        })
    }

    /// What its table and its texts weigh.
    pub(crate) fn weight(&self) -> u64
        ensures { result ≡ crs_weight (crs_shown self.now) }
    {
        4 + text_size(self.org)
            + text_size(self.name)
            + text_size(self.description)
            + text_size(self.wkt)
            + text_size(self.code_string)
    }

    /// The organisation that defines it, as EPSG.
    pub fn org(&self) -> Option<&'a str>
        ensures { option_map (λ s. s.now) result ≡ (crs_shown self.now).org }
    {
        self.org
    }

    /// Its number with the organisation, or 0.
    pub fn code(&self) -> i32
        ensures { result ≡ (crs_shown self.now).code }
    {
        self.code
    }

    /// Its name.
    pub fn name(&self) -> Option<&'a str>
        ensures { option_map (λ s. s.now) result ≡ (crs_shown self.now).name }
    {
        self.name
    }

    /// What it is.
    pub fn description(&self) -> Option<&'a str>
        ensures { option_map (λ s. s.now) result ≡ (crs_shown self.now).description }
    {
        self.description
    }

    /// Its definition as well-known text. It is kept, and is not judged.
    pub fn wkt(&self) -> Option<&'a str>
        ensures { option_map (λ s. s.now) result ≡ (crs_shown self.now).wkt }
    {
        self.wkt
    }

    /// Its code with the organisation, where that is no number.
    pub fn code_string(&self) -> Option<&'a str>
        ensures { option_map (λ s. s.now) result ≡ (crs_shown self.now).code_string }
    {
        self.code_string
    }
}

/// How many bytes a text has, if there is one.
pub(crate) fn text_size(text: Option<&str>) -> u64
    ensures { result ≡ text_weight (option_map (λ s. s.now) text.entry) }
{
    match text {
        Some(text) => text.len() as u64,
        None => 0,
    }
}
