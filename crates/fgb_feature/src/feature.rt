// A feature.
ghost use Rattle.std.specs.Prelude.{◌≡◌, ◌+◌, ◌*◌, ◌^◌, ◌≤◌, length, option_map, IfErr, IfOk};
ghost use Rattle.flat_layout.specs.Layout.{place_in, target};
ghost use Rattle.flat_layout.specs.Promises.{Judges, Names};
ghost use Rattle.flat_views.specs.Meters.{left_of, meter_place};
ghost use Rattle.flat_views.specs.Tables.{base_of, bytes_of, place_of};
ghost use Rattle.flat_views.specs.Vectors.{ShowsVector};
ghost use Rattle.geometry_view.specs.Views.{geometry_shown};
ghost use Rattle.fgb_schema.specs.Headers.{Header, holding, types};
ghost use Rattle.fgb_schema.specs.Paths.{feature_part, feature_root, geometry_field, properties_field};
ghost use Rattle.fgb_schema.specs.Weights.{BreaksBuffer, Goes};
ghost use Rattle.fgb_schema.specs.Properties.{BreaksProperties};
ghost use Rattle.fgb_schema.specs.Shapes.{shape_at};
ghost use Rattle.fgb_schema.specs.Features.{feature_of, own_box};
ghost use Rattle.fgb_header.specs.Views.{columns_shown, header_shown};
ghost use Rattle.fgb_feature.specs.Lists.{bytes_shown, first_place};
ghost use Rattle.fgb_feature.specs.Views.{ShowsFeature, feature_shown, held_shown, properties_of};

use crate::props::Props;
use fgb_header::{Columns, HeaderView};
use flat_views::{Broken, Buf, Meter, Table, VecView};
use geometry_view::GeometryView;
use order_keys::Bounds;

/// The fields of the schema (FlatGeobuf, feature.fbs, table Feature).
const GEOMETRY: u16 = 0;

const PROPERTIES: u16 = 1;

const COLUMNS: u16 = 2;

/// What a table weighs by itself.
const TABLE: u64 = 4;

/// A feature, each field of which was read under its header. (FlatGeobuf, feature.fbs, table Feature)
#[derive(Clone, Copy)]
pub struct FeatureView<'a> {
    geometry: Option<GeometryView<'a>>,
    /// With the columns that hold for them.
    properties: Props<'a>,
    /// Its own columns.
    columns: Columns<'a>,
}

impl<'a> FeatureView<'a> {
    /// The feature in a buffer of at most 268,435,456 bytes, the first of which stands at `base` in the file,
    /// under a header.
    ///
    /// Refuses Offset, Vtable, Field, Vector, Zero or Utf8 where the layout is broken; Kind or Depth at a
    /// geometry's table; PairCount, PointCount, Ends or Ordinates at a vector; NotFinite at a pattern; Required
    /// or ColumnType at a column's table; ColumnCount at the list of columns; PropColumn or PropEnd at a key;
    /// Weight at `base` where the paths weigh more than four times the buffer. (FlatGeobuf, feature.fbs)
    #[inline(always)]
    pub fn read(
        bytes: &'a [u8],
        base: u64,
        header: &HeaderView<'a>,
    ) -> Result<FeatureView<'a>, Broken>
        requires small { length bytes.now ≤ 268435456 }
        requires near { base ≤ 2 ^ 48 }
        ensures { let h = header_shown header.now in
            Judges base (BreaksBuffer bytes.now (feature_root h)) (ShowsFeature h bytes.now (target bytes.now 0)) result }
    {
        let table = Buf::new(bytes, base).root()?;
        let mut meter = meter_for(bytes, base);
        FeatureView::in_table(table, header, &mut meter)
    }

    /// The feature in a table, under a header and a meter.
    #[inline(always)]
    fn in_table(
        table: Table<'a>,
        header: &HeaderView<'a>,
        meter: &mut Meter,
    ) -> Result<FeatureView<'a>, Broken>
        ensures { let h = header_shown header.now in let b = bytes_of table.entry in let t = place_of table.entry in
            Goes (base_of table.entry) b (feature_part h t) (meter_place meter.old) (left_of meter.old) (left_of meter.new) (ShowsFeature h b t) result }
    {
        meter.spend(TABLE)?;
        let geometry = geometry_in(table, header.geometry_type(), meter)?;
        let list = properties_in(table, meter)?;
        let columns = Columns::in_field(table, COLUMNS, meter)?;
        let properties = judged(list, columns, header.columns())?;
        Ok(FeatureView {
            geometry,
            properties,
            columns,
        })
    }

    /// Its geometry, if it has one.
    pub fn geometry(&self) -> Option<GeometryView<'a>>
        ensures { option_map geometry_shown result ≡ (feature_shown self.now).shape }
    {
        self.geometry
    }

    /// Its properties in order.
    pub fn properties(&self) -> Props<'a>
        ensures { properties_of result ≡ (feature_shown self.now).properties }
    {
        self.properties
    }

    /// The columns that hold for its properties: its own where it has some, else those of its header.
    pub fn columns(&self) -> Columns<'a>
        ensures { columns_shown result ≡ held_shown self.now }
    {
        self.properties.columns()
    }

    /// Its own columns, which hold for its properties where there are some.
    pub fn own_columns(&self) -> Columns<'a>
        ensures { columns_shown result ≡ (feature_shown self.now).columns }
    {
        self.columns
    }

    /// Its own box: that of all its points, or the empty box where it has none.
    pub fn bounds(&self) -> Bounds
        ensures { result ≡ own_box (feature_shown self.now) }
    {
        match self.geometry {
            Some(geometry) => geometry.bounds(),
            None => Bounds::empty(),
        }
    }
}

/// The geometry of the feature in a buffer of at most 268,435,456 bytes, the first of which stands at `base` in the
/// file, under a header of this geometry type: what [`FeatureView::read`] shows, without a look at the properties and
/// the own columns.
///
/// Refuses what is broken on the way to the geometry and in it: Offset, Vtable, Field or Vector; Kind or Depth at its
/// table; PairCount, PointCount, Ends or Ordinates at a vector; NotFinite at a pattern; Weight at `base` where the
/// feature's table and the geometry weigh more than four times the buffer. So it refuses no buffer that breaks no rule
/// under such a header. (FlatGeobuf, feature.fbs)
pub fn geometry_under<'a>(
    bytes: &'a [u8],
    base: u64,
    geometry_type: u8,
) -> Result<Option<GeometryView<'a>>, Broken>
    requires small { length bytes.now ≤ 268435456 }
    requires near { base ≤ 2 ^ 48 }
    ensures shown { IfOk result (λ g. (h : Header) → h.geometry_type ≡ geometry_type → option_map geometry_shown g ≡ (feature_of h bytes.now).shape) }
    ensures refused { IfErr result (λ e. (h : Header) → h.geometry_type ≡ geometry_type → Names base (BreaksBuffer bytes.now (feature_root h)) e) }
{
    let table = Buf::new(bytes, base).root()?;
    let mut meter = meter_for(bytes, base);
    meter.spend(TABLE)?;
    geometry_in(table, geometry_type, &mut meter)
}

/// A meter for a buffer, the first byte of which stands at `base` in the file.
#[inline(always)]
fn meter_for(bytes: &[u8], base: u64) -> Meter
    requires { length bytes.now ≤ 268435456 }
    ensures left { left_of result ≡ 4 * length bytes.now }
    ensures place { meter_place result ≡ base }
{
    Meter::new(bytes.len() as u64, base)
}

/// The geometry of the feature in a table, under a header of this geometry type and under a meter.
#[inline(always)]
fn geometry_in<'a>(
    table: Table<'a>,
    outer: u8,
    meter: &mut Meter,
) -> Result<Option<GeometryView<'a>>, Broken>
    ensures goes { let b = bytes_of table.entry in let t = place_of table.entry in
        Goes (base_of table.entry) b (geometry_field outer t) (meter_place meter.old) (left_of meter.old) (left_of meter.new)
        (λ g. option_map geometry_shown g ≡ option_map (shape_at 15 outer b) (place_in b t 0)) result }
    ensures place { meter_place meter.new ≡ meter_place meter.old }
{
    match table.table(GEOMETRY)? {
        Some(geometry) => Ok(Some(GeometryView::read_under(geometry, outer, 1, meter)?)),
        None => Ok(None),
    }
}

/// The bytes of the properties of the feature in a table, under a meter.
#[inline(always)]
fn properties_in<'a>(table: Table<'a>, meter: &mut Meter) -> Result<Option<VecView<'a>>, Broken>
    ensures goes { let b = bytes_of table.entry in let t = place_of table.entry in
        Goes (base_of table.entry) b (properties_field t) (meter_place meter.old) (left_of meter.old) (left_of meter.new)
        (ShowsVector 1 b (base_of table.entry) t 1) result }
    ensures place { meter_place meter.new ≡ meter_place meter.old }
{
    match table.vector(PROPERTIES, 1)? {
        Some(list) => {
            meter.spend(list.len() as u64)?;
            Ok(Some(list))
        }
        None => Ok(None),
    }
}

/// The properties in a vector of bytes, if there is one, under a feature's own columns, or those of its header
/// where it has none. Refuses PropColumn or PropEnd at a key.
#[inline(always)]
fn judged<'a>(
    list: Option<VecView<'a>>,
    own: Columns<'a>,
    header: Columns<'a>,
) -> Result<Props<'a>, Broken>
    ensures { let columns = holding (columns_shown own.entry) (columns_shown header.entry) in
        Judges (first_place list.entry) (BreaksProperties (types columns) (bytes_shown list.entry))
        (λ props. (props.bytes.now ≡ bytes_shown list.entry) × (columns_shown props.columns ≡ columns)) result }
{
    let columns = held(own, header);
    match list {
        Some(list) => Props::read(list.bytes(), list.place() + 4, columns),
        None => Props::read(&[], 0, columns),
    }
}

/// Of a feature's own columns and those of its header, the ones that hold: its own where it has some.
#[inline(always)]
fn held<'a>(own: Columns<'a>, header: Columns<'a>) -> Columns<'a>
    ensures { columns_shown result ≡ holding (columns_shown own.entry) (columns_shown header.entry) }
{
    if own.len() > 0 { own } else { header }
}
