ghost use Rattle.std.specs.Prelude.{◌≡◌, ◌^◌, ◌≤◌, length, option_map, IfOk};
ghost use Rattle.flat_layout.specs.Promises.{IsClean, Judges};
ghost use Rattle.flat_views.specs.Meters.{left_of, meter_place};
ghost use Rattle.flat_views.specs.Tables.{base_of, bytes_of, place_of};
ghost use Rattle.flat_views.specs.Vectors.{longs_shown};
ghost use Rattle.fgb_schema.specs.Paths.{header_part, header_root};
ghost use Rattle.fgb_schema.specs.Headers.{header_of};
ghost use Rattle.fgb_schema.specs.Weights.{BreaksBuffer, Goes};
ghost use Rattle.fgb_header.specs.Groups.{number_width};
ghost use Rattle.fgb_header.specs.GroupViews.{fields_shown};

use crate::columns::Columns;
use crate::crs::CrsView;
use crate::groups::Own;
use flat_views::{Broken, Buf, Meter, Table, VecView};

/// The field of the columns. (FlatGeobuf, header.fbs, table Header)
const COLUMNS: u16 = 7;

/// A header, each field of which was read. (FlatGeobuf, header.fbs, table Header)
#[derive(Clone, Copy)]
pub struct HeaderView<'a> {
    own: Own<'a>,
    columns: Columns<'a>,
    // what it was read from
    bytes: &'a [u8],
    base: u64,
    // so it can be read again
    pub ghost small: { length bytes.now ≤ 10485760 },
    pub ghost near: { base ≤ 2 ^ 48 },
    pub ghost clean: { IsClean (BreaksBuffer bytes.now header_root) },
    pub ghost same: { fields_shown own columns ≡ header_of bytes.now },
}

impl<'a> HeaderView<'a> {
    ghost use Rattle.fgb_header.specs.Views.{base_shown, columns_shown, crs_shown, header_shown, source_of};
    ghost use Rattle.fgb_header.specs.GroupViews.{ShowsFields};

    /// The header in a buffer of at most 10,485,760 bytes, the first of which stands at `base` in the file.
    ///
    /// Refuses Offset, Vtable, Field, Vector, Zero or Utf8 where the layout is broken; Kind where the
    /// geometry type is above 7 and NodeSize where the node size is 1, at the header's table; Required or
    /// ColumnType at a column's table; ColumnCount at the list of columns; Weight at `base` where the paths
    /// weigh more than four times the buffer. (FlatGeobuf, header.fbs)
    pub fn read(bytes: &'a [u8], base: u64) -> Result<HeaderView<'a>, Broken>
        requires small { length bytes.now ≤ 10485760 }
        requires near { base ≤ 2 ^ 48 }
        ensures judged { Judges base (BreaksBuffer bytes.now header_root) (λ h. header_shown h ≡ header_of bytes.now) result }
        ensures source { IfOk result (λ h. (source_of h ≡ bytes.now) × (base_shown h ≡ base)) }
    {
        let table = Buf::new(bytes, base).root()?;
        let mut meter = Meter::new(bytes.len() as u64, base);
        let (own, columns) = HeaderView::in_table(table, &mut meter)?;
        Ok(HeaderView {
            own,
            columns,
            bytes,
            base,
        })
    }

    /// The fields of the header in a table, under a meter.
    fn in_table(table: Table<'a>, meter: &mut Meter) -> Result<(Own<'a>, Columns<'a>), Broken>
        ensures { let b = bytes_of table.entry in let t = place_of table.entry in
            Goes (base_of table.entry) b (header_part t) (meter_place meter.old) (left_of meter.old) (left_of meter.new) (ShowsFields b t) result }
    {
        let own = Own::read(table)?;
        meter.spend(own.weight())?;
        let columns = Columns::in_field(table, COLUMNS, meter)?;
        Ok((own, columns))
    }

    /// The bytes that it was read from, and where the first stands in the file. `read` answers Ok for them
    /// again, with a view that shows the same.
    pub fn source(&self) -> (&'a [u8], u64)
        ensures bytes { result.0.now ≡ source_of self.now }
        ensures base { result.1 ≡ base_shown self.now }
        ensures small { length result.0.now ≤ 10485760 }
        ensures near { result.1 ≤ 2 ^ 48 }
        ensures clean { IsClean (BreaksBuffer result.0.now header_root) }
        ensures same { header_of result.0.now ≡ header_shown self.now }
    {
        (self.bytes, self.base)
    }

    /// The name of the data.
    pub fn name(&self) -> Option<&'a str>
        ensures { option_map (λ s. s.now) result ≡ (header_shown self.now).name }
    {
        self.own.texts.name
    }

    /// The box of all points as the writer gave it: mins, then maxs. It is kept, and is not judged.
    pub fn envelope(&self) -> Option<VecView<'a>>
        ensures shown { longs_shown result ≡ (header_shown self.now).envelope }
        ensures wide { number_width result ≡ 8 }
    {
        self.own.envelope
    }

    /// 0 where each geometry says its own type, else the type of all: 1 to 7.
    pub fn geometry_type(&self) -> u8
        ensures { result ≡ (header_shown self.now).geometry_type }
    {
        self.own.geometry_type
    }

    /// Whether the geometries have z. The four flags are kept, and are not judged.
    pub fn has_z(&self) -> bool
        ensures { result ≡ (header_shown self.now).has_z }
    {
        self.own.flags.z
    }

    /// Whether the geometries have m.
    pub fn has_m(&self) -> bool
        ensures { result ≡ (header_shown self.now).has_m }
    {
        self.own.flags.m
    }

    /// Whether the geometries have t.
    pub fn has_t(&self) -> bool
        ensures { result ≡ (header_shown self.now).has_t }
    {
        self.own.flags.t
    }

    /// Whether the geometries have tm.
    pub fn has_tm(&self) -> bool
        ensures { result ≡ (header_shown self.now).has_tm }
    {
        self.own.flags.tm
    }

    /// The columns of the features' properties.
    pub fn columns(&self) -> Columns<'a>
        ensures { columns_shown result ≡ (header_shown self.now).columns }
    {
        self.columns
    }

    /// How many features there are, or 0 where that is unknown.
    pub fn features_count(&self) -> u64
        ensures { result ≡ (header_shown self.now).features_count }
    {
        self.own.features_count
    }

    /// How many children a node of the index has; 16 where the header does not say it, and 0 where there is
    /// no index.
    pub fn index_node_size(&self) -> u16
        ensures { result ≡ (header_shown self.now).node_size }
    {
        self.own.node_size
    }

    /// The coordinate reference system.
    pub fn crs(&self) -> Option<CrsView<'a>>
        ensures { option_map crs_shown result ≡ (header_shown self.now).crs }
    {
        self.own.crs
    }

    /// The title of the data.
    pub fn title(&self) -> Option<&'a str>
        ensures { option_map (λ s. s.now) result ≡ (header_shown self.now).title }
    {
        self.own.texts.title
    }

    /// What the data is.
    pub fn description(&self) -> Option<&'a str>
        ensures { option_map (λ s. s.now) result ≡ (header_shown self.now).description }
    {
        self.own.texts.description
    }

    /// What else the writer says of the data, as JSON. It is kept, and is not judged.
    pub fn metadata(&self) -> Option<&'a str>
        ensures { option_map (λ s. s.now) result ≡ (header_shown self.now).metadata }
    {
        self.own.texts.metadata
    }
}
