// A feature that is owned.
ghost use Rattle.std.specs.Prelude.{◌≡◌, ◌≢◌, ◌<◌, ◌≤◌, ◌↔◌, ◌⊎◌, [], ◌∷◌, ◌++◌, Err, IfOk, OnOk, OnErr, IsTrue, length, slice_get};
ghost use Rattle.std.specs.Option.{ForSome, option_copied, option_map};
ghost use Rattle.std.specs.List.{AllByRecursion};
ghost use Rattle.flat_layout.specs.Promises.{IsClean};
ghost use Rattle.flat_builder.specs.Laying.{laid};
ghost use Rattle.fgb_schema.specs.Headers.{Header, types};
ghost use Rattle.fgb_schema.specs.Features.{columns_holding, feature_of};
ghost use Rattle.fgb_schema.specs.Paths.{feature_root};
ghost use Rattle.fgb_schema.specs.Weights.{BreaksBuffer};
ghost use Rattle.geometry_view.specs.Kinds.{number_of};
ghost use Rattle.geometry_view.specs.Views.{geometry_shown};
ghost use Rattle.shape_tables.specs.Records.{IsRecord as IsShape, Suits};
ghost use Rattle.feature_tables.specs.Laying.{feature_table};
ghost use Rattle.feature_tables.specs.Records.{Fits, IsRecord, NamesColumn};
ghost use Rattle.fgb_feature.specs.Pairs.{property_of};
ghost use Rattle.fgb_feature.specs.Views.{feature_shown};
ghost use Rattle.feature_info.specs.Records.{bare};

use crate::prop::{PropInfo, bytes_of, props_of};
use crate::puts::{put_bytes, put_shape};
use feature_tables::laid_features_read_back;
use fgb_feature::{FeatureView, Value};
use flat_builder::{BuildError, FlatTable};
use geometry_view::{GeometryView, Kind};
use header_info::{ColumnInfo, HeaderInfo, columns_of, put_columns};
use owned_shape::Shape;
use std::alloc::{AllocError, Global};
use std::marker::Model;

/// The most bytes of a feature (FlatGeobuf: 256 MiB).
const MAX_BYTES: u32 = 268_435_456;

/// The fields of the schema (FlatGeobuf, feature.fbs, table Feature).
const GEOMETRY: u16 = 0;

const PROPERTIES: u16 = 1;

const COLUMNS: u16 = 2;

/// A feature that is owned, seen as its record (FlatGeobuf, feature.fbs, table Feature).
#[derive(Drop)]
pub struct FeatureInfo {
    geometry: Option<Shape>,
    properties: Vec<PropInfo>,
    /// Its own columns.
    columns: Vec<ColumnInfo>,
}

impl Model for FeatureInfo {
    ghost use Rattle.fgb_schema.specs.Features.{Feature};
    ghost use Rattle.std.specs.Coded.{codes};
    ghost use Rattle.owned_shape.specs.Codes.{shape_code};

    ghost Value = { Feature };

    ghost coded = { Prim.hlevel (codes, shape_code) };

    ghost use Rattle.feature_info.specs.OwnedFeature.{owned_feature, IsWritable};

    ghost view = { owned_feature };

    ghost invariant = { IsWritable };
}

impl FeatureInfo {
    /// A feature of this geometry, or of none, without properties and columns of its own. It takes no memory.
    pub fn new(alloc: Global, geometry: Option<Shape>) -> FeatureInfo
        ensures { result ≡ bare geometry }
    {
        can_stand(&geometry);
        FeatureInfo {
            geometry,
            properties: Vec::new(alloc),
            columns: Vec::new(alloc),
        }
    }

    /// Puts a property behind the others: the number of its column, and its value.
    pub fn push_prop(&mut self, column: u16, value: Value<'_>) -> Result<(), AllocError>
        ensures ok { OnOk result (self.new ≡ record self.old { properties = self.old.properties ++ property_of (column, value.entry) ∷ [] }) }
        ensures err { OnErr result (self.new ≡ self.old) }
    {
        let prop = PropInfo::of(*self.properties.allocator(), column, value)?;
        self.properties.push(prop)?;
        Ok(())
    }

    /// A copy of a feature that was read.
    pub fn of(alloc: Global, view: &FeatureView<'_>) -> Result<FeatureInfo, AllocError>
        ensures { IfOk result (λ feature. feature ≡ feature_shown view.now) }
    {
        let geometry = shape_of(alloc, view.geometry())?;
        let properties = props_of(alloc, view.properties())?;
        let columns = columns_of(alloc, view.own_columns())?;
        Ok(FeatureInfo {
            geometry,
            properties,
            columns,
        })
    }

    /// Its geometry, if it has one.
    pub fn geometry(&self) -> Option<&Shape>
        ensures { option_copied result ≡ self.now.shape }
    {
        self.geometry.as_ref()
    }

    /// Whether it may stand under a header: its geometry has the header's type, where that is known, and each property
    /// names a column that holds and has its type.
    pub fn fits(&self, header: &HeaderInfo) -> bool
        ensures { IsTrue result ↔ Fits header.now self.now }
    {
        self.has_type(header.geometry_type()) && self.names_columns(header)
    }

    /// Whether its geometry, if it has one, may stand where this type is given.
    fn has_type(&self, outer: u8) -> bool
        ensures { IsTrue result ↔ ForSome self.now.shape (Suits outer) }
    {
        match &self.geometry {
            Some(shape) => suits(outer, shape.kind()),
            None => true,
        }
    }

    /// Whether each property names a column that holds, and has its type.
    fn names_columns(&self, header: &HeaderInfo) -> bool
        ensures { IsTrue result ↔ AllByRecursion (NamesColumn (types (columns_holding header.now self.now))) self.now.properties }
    {
        for prop in &self.properties {
            if !self.names_column(header, prop) {
                return false;
            }
        }
        true
    }

    /// Whether a property names a column that holds, and has its type.
    fn names_column(&self, header: &HeaderInfo, prop: &PropInfo) -> bool
        ensures { IsTrue result ↔ NamesColumn (types (columns_holding header.now self.now)) prop.now }
    {
        self.column_kind(header, usize::from(prop.column())) == Some(prop.kind())
    }

    /// The type of the i-th of the columns that hold, if there are so many: its own where it has some, else the header's.
    fn column_kind(&self, header: &HeaderInfo, i: usize) -> Option<u8>
        ensures { result ≡ slice_get (types (columns_holding header.now self.now)) i }
    {
        if self.columns.is_empty() {
            kind_in_header(header, i)
        } else {
            kind_in(&self.columns, i)
        }
    }

    /// The buffer of the feature. Refuses TooLarge where that would be longer than 268,435,456 bytes.
    pub fn to_bytes(&self, alloc: Global) -> Result<Vec<u8>, BuildError>
        ensures ok { IfOk result (λ bytes. bytes.items ≡ laid (feature_table self.now)) }
        ensures within { OnOk result (length (laid (feature_table self.now)) ≤ 268435456) }
        ensures too_large { result ≡ Err BuildError.TooLarge → 268435456 < length (laid (feature_table self.now)) }

        // under a header that it fits, it breaks no rule, and reads back
        ensures clean { (h : Header) → Fits h self.now → IfOk result (λ bytes. IsClean (BreaksBuffer bytes.items (feature_root h))) }
        ensures shown { (h : Header) → Fits h self.now → IfOk result (λ bytes. feature_of h bytes.items ≡ self.now) }
    {
        laid_features_read_back();
        self.table(alloc)?.finish(alloc, MAX_BYTES)
    }

    /// The table as which it is laid.
    fn table(&self, alloc: Global) -> Result<FlatTable, BuildError>
        ensures ok { IfOk result (λ t. t ≡ feature_table self.now) }
        ensures memory { result ≢ Err BuildError.TooLarge }
        ensures writable { IsRecord self.now }
    {
        let mut table = FlatTable::new(alloc);
        put_shape(&mut table, GEOMETRY, &self.geometry, alloc)?;
        put_bytes(&mut table, PROPERTIES, bytes_of(alloc, &self.properties)?)?;
        put_columns(&mut table, COLUMNS, &self.columns, alloc)?;
        Ok(table)
    }
}

/// An owned geometry, if there is one, can stand in a file. It does nothing when it is called.
fn can_stand(geometry: &Option<Shape>)
    ensures { ForSome geometry.now IsShape }
{
    if let Some(shape) = geometry {
        // so that what it keeps is known
        let _ = shape.kind();
    }
}

/// A copy of a geometry that was read, if there is one.
fn shape_of(alloc: Global, view: Option<GeometryView>) -> Result<Option<Shape>, AllocError>
    ensures ok { IfOk result (λ shape. shape ≡ option_map geometry_shown view.entry) }
    ensures sound { IfOk result (λ shape. ForSome shape IsShape) }
{
    match view {
        Some(view) => Ok(Some(Shape::of(alloc, &view)?)),
        None => Ok(None),
    }
}

/// Whether a geometry of this type may stand where that type is given: none is, or its own.
fn suits(outer: u8, kind: Kind) -> bool
    ensures { IsTrue result ↔ (outer ≡ 0) ⊎ (outer ≡ number_of kind) }
{
    outer == 0 || outer == kind.number()
}

/// The type of the i-th column of a header, if it has so many.
fn kind_in_header(header: &HeaderInfo, i: usize) -> Option<u8>
    ensures { result ≡ slice_get (types header.now.columns) i }
{
    if i < header.columns() {
        Some(header.column_kind(i))
    } else {
        None
    }
}

/// The type of the i-th of some columns, if there are so many.
fn kind_in(columns: &[ColumnInfo], i: usize) -> Option<u8>
    ensures { result ≡ slice_get (types columns.now) i }
{
    if i < columns.len() {
        Some(columns[i].kind())
    } else {
        None
    }
}
