ghost use Rattle.std.specs.Prelude.{◌≡◌, ◌≢◌, ◌+◌, ◌*◌, ◌^◌, ◌≤◌, length, option_map};
ghost use Rattle.flat_layout.specs.Layout.{number_in, place_in};
ghost use Rattle.flat_layout.specs.Promises.{Judges};
ghost use Rattle.flat_views.specs.Tables.{base_of, bytes_of, place_of};
ghost use Rattle.flat_views.specs.Vectors.{longs_shown};
ghost use Rattle.fgb_schema.specs.Paths.{Breaks};
ghost use Rattle.fgb_schema.specs.Headers.{crs_at};
ghost use Rattle.fgb_schema.specs.Weights.{text_weight};
ghost use Rattle.fgb_header.specs.Groups.{BreaksFlags, BreaksKind, BreaksNodeSize, BreaksOwn, BreaksTexts, crs_field, number_width};

use crate::column::{flag, refused};
use crate::crs::{CrsView, text_size};
use flat_views::{Broken, Rule, Table, VecView};

/// The greatest geometry type: GeometryCollection.
const LAST_TYPE: u8 = 7;

/// The node size of a header that does not say it.
const NODE_SIZE: u16 = 16;

/// The bytes of a number of the envelope.
const NUMBER: u8 = 8;

/// The fields of the schema (FlatGeobuf, header.fbs, table Header).
const NAME: u16 = 0;

const ENVELOPE: u16 = 1;

const GEOMETRY_TYPE: u16 = 2;

const HAS_Z: u16 = 3;

const HAS_M: u16 = 4;

const HAS_T: u16 = 5;

const HAS_TM: u16 = 6;

const FEATURES_COUNT: u16 = 8;

const INDEX_NODE_SIZE: u16 = 9;

const CRS: u16 = 10;

const TITLE: u16 = 11;

const DESCRIPTION: u16 = 12;

const METADATA: u16 = 13;

/// The texts of a header.
#[derive(Clone, Copy)]
pub(crate) struct Texts<'a> {
    pub(crate) name: Option<&'a str>,
    pub(crate) title: Option<&'a str>,
    pub(crate) description: Option<&'a str>,
    pub(crate) metadata: Option<&'a str>,
    // the sum of their sizes then fits
    pub ghost short: { text_weight (option_map (λ s. s.now) name) + text_weight (option_map (λ s. s.now) title)
        + text_weight (option_map (λ s. s.now) description) + text_weight (option_map (λ s. s.now) metadata) ≤ 4 * 2 ^ 28 },
}

impl<'a> Texts<'a> {
    ghost use Rattle.fgb_header.specs.GroupViews.{ShowsTexts, texts_weight};

    /// The texts of the header in a table. Refuses Field, Offset, Vector, Zero or Utf8.
    fn read(table: Table<'a>) -> Result<Texts<'a>, Broken>
        ensures { let b = bytes_of table.entry in let t = place_of table.entry in
            Judges (base_of table.entry) (BreaksTexts b t) (ShowsTexts b t) result }
    {
        Ok(Texts {
            name: table.string(NAME)?,
            title: table.string(TITLE)?,
            description: table.string(DESCRIPTION)?,
            metadata: table.string(METADATA)?,
        })
    }

    /// How many bytes they have.
    fn size(&self) -> u64
        ensures { result ≡ texts_weight self.now }
    {
        text_size(self.name)
            + text_size(self.title)
            + text_size(self.description)
            + text_size(self.metadata)
    }
}

/// The flags of a header, which say what the coordinates have besides x and y.
#[derive(Clone, Copy)]
pub(crate) struct Flags {
    pub(crate) z: bool,
    pub(crate) m: bool,
    pub(crate) t: bool,
    pub(crate) tm: bool,
}

impl Flags {
    ghost use Rattle.fgb_header.specs.GroupViews.{ShowsFlags};

    /// The flags of the header in a table. Refuses Field.
    fn read(table: Table) -> Result<Flags, Broken>
        ensures { let b = bytes_of table.entry in let t = place_of table.entry in
            Judges (base_of table.entry) (BreaksFlags b t) (ShowsFlags b t) result }
    {
        Ok(Flags {
            z: flag(table, HAS_Z, 0)?,
            m: flag(table, HAS_M, 0)?,
            t: flag(table, HAS_T, 0)?,
            tm: flag(table, HAS_TM, 0)?,
        })
    }
}

/// The geometry type. Refuses Field, or Kind where it is above 7.
fn known_type(table: Table) -> Result<u8, Broken>
    ensures { let b = bytes_of table.entry in let t = place_of table.entry in
        Judges (base_of table.entry) (BreaksKind b t) (λ x. x ≡ number_in 1 b t 2 0) result }
{
    let geometry_type = table.scalar_u8(GEOMETRY_TYPE, 0)?;
    if geometry_type > LAST_TYPE {
        return Err(refused(table, Rule::Kind));
    }
    Ok(geometry_type)
}

/// The node size. Refuses Field, or NodeSize where it is 1.
fn known_node_size(table: Table) -> Result<u16, Broken>
    ensures { let b = bytes_of table.entry in let t = place_of table.entry in
        Judges (base_of table.entry) (BreaksNodeSize b t) (λ x. x ≡ number_in 2 b t 9 16) result }
{
    let node_size = table.scalar_u16(INDEX_NODE_SIZE, NODE_SIZE)?;
    if node_size == 1 {
        return Err(refused(table, Rule::NodeSize));
    }
    Ok(node_size)
}

/// A header without its columns.
#[derive(Clone, Copy)]
pub(crate) struct Own<'a> {
    pub(crate) texts: Texts<'a>,
    pub(crate) envelope: Option<VecView<'a>>,
    pub(crate) geometry_type: u8,
    pub(crate) flags: Flags,
    pub(crate) features_count: u64,
    pub(crate) node_size: u16,
    pub(crate) crs: Option<CrsView<'a>>,
    // so what they weigh fits
    pub ghost wide: { number_width envelope ≡ 8 },
    pub ghost known: { geometry_type ≤ 7 },
    // an index of no or of more than one child a node
    pub ghost several: { node_size ≢ 1 },
}

impl<'a> Own<'a> {
    ghost use Rattle.fgb_header.specs.Parts.{crs_shown};
    ghost use Rattle.fgb_header.specs.GroupViews.{ShowsOwn, own_weight};

    /// The header in a table, without its columns. Refuses Field, Offset, Vtable, Vector, Zero or Utf8,
    /// and at its table Kind or NodeSize.
    pub(crate) fn read(table: Table<'a>) -> Result<Own<'a>, Broken>
        ensures { let b = bytes_of table.entry in let t = place_of table.entry in
            Judges (base_of table.entry) (BreaksOwn b t) (ShowsOwn b t) result }
    {
        Ok(Own {
            texts: Texts::read(table)?,
            envelope: table.vector(ENVELOPE, NUMBER)?,
            geometry_type: known_type(table)?,
            flags: Flags::read(table)?,
            features_count: table.scalar_u64(FEATURES_COUNT, 0)?,
            node_size: known_node_size(table)?,
            crs: Own::crs_in(table)?,
        })
    }

    /// The coordinate reference system. Refuses Field, Offset, Vtable, Vector, Zero or Utf8.
    fn crs_in(table: Table<'a>) -> Result<Option<CrsView<'a>>, Broken>
        ensures { let b = bytes_of table.entry in let t = place_of table.entry in
            Judges (base_of table.entry) (Breaks b (crs_field t))
            (λ o. option_map crs_shown o ≡ option_map (crs_at b) (place_in b t 10)) result }
    {
        match table.table(CRS)? {
            Some(crs) => Ok(Some(CrsView::read(crs)?)),
            None => Ok(None),
        }
    }

    /// What the numbers of an envelope weigh.
    #[tactic(auto, using(std::proofs::lemmas::Bool::Decides::nat_tests), unfolding(flat_layout::specs::Layout::is_vector))]
    fn numbers_size(envelope: Option<VecView>) -> u64
        requires { number_width envelope ≡ 8 }
        ensures size { result ≡ 8 * length (longs_shown envelope.entry) }
        ensures fits { result ≤ 2 ^ 28 }
    {
        match envelope {
            Some(numbers) => 8 * numbers.len() as u64,
            None => 0,
        }
    }

    /// What its table, its texts, its envelope and its coordinate reference system weigh.
    pub(crate) fn weight(&self) -> u64
        ensures { result ≡ own_weight self.now }
    {
        let crs = match self.crs {
            Some(crs) => crs.weight(),
            None => 0,
        };
        4 + self.texts.size() + Own::numbers_size(self.envelope) + crs
    }
}
