// A header that is owned.
ghost use Rattle.std.specs.Prelude.{◌≡◌, ◌≢◌, ◌<◌, ◌≤◌, [], ◌∷◌, ◌++◌, Err, Some, IfOk, OnOk, OnErr, length, slice_get};
ghost use Rattle.flat_layout.specs.Promises.{IsClean};
ghost use Rattle.flat_builder.specs.Laying.{laid};
ghost use Rattle.fgb_schema.specs.Headers.{header_of, types};
ghost use Rattle.fgb_schema.specs.Paths.{header_root};
ghost use Rattle.fgb_schema.specs.Weights.{BreaksBuffer};
ghost use Rattle.fgb_header.specs.Views.{header_shown};
ghost use Rattle.header_tables.specs.Laying.{header_table};
ghost use Rattle.header_tables.specs.Records.{IsRecord, plain, plain_column};

use crate::column::{ColumnInfo, columns_again, columns_of, put_columns};
use crate::crs::{CrsInfo, crs_again, crs_of, put_crs};
use crate::envelope::{numbers_of, put_doubles};
use crate::puts::{put_flag, put_text, put_u8, put_u16, put_u64};
use crate::texts;
use fgb_header::HeaderView;
use flat_builder::{BuildError, FlatTable};
use header_tables::laid_headers_read_back;
use std::alloc::{AllocError, Global};
use std::marker::Model;

/// The most bytes of a header (FlatGeobuf: 10 MiB).
const MAX_BYTES: u32 = 10_485_760;

/// The node size of a header that does not say it.
const NODE_SIZE: u16 = 16;

/// The fields of the schema (FlatGeobuf, header.fbs, table Header).
const NAME: u16 = 0;

const ENVELOPE: u16 = 1;

const GEOMETRY_TYPE: u16 = 2;

const HAS_Z: u16 = 3;

const HAS_M: u16 = 4;

const HAS_T: u16 = 5;

const HAS_TM: u16 = 6;

const COLUMNS: u16 = 7;

const FEATURES_COUNT: u16 = 8;

const INDEX_NODE_SIZE: u16 = 9;

const CRS: u16 = 10;

const TITLE: u16 = 11;

const DESCRIPTION: u16 = 12;

const METADATA: u16 = 13;

/// What the coordinates have besides x and y.
#[derive(Clone, Copy)]
struct Dimensions {
    z: bool,
    m: bool,
    t: bool,
    tm: bool,
}

/// A header that is owned, seen as its record (FlatGeobuf, header.fbs, table Header).
#[derive(Drop)]
pub struct HeaderInfo {
    name: Option<String>,
    envelope: Vec<u64>,
    geometry_type: u8,
    dimensions: Dimensions,
    columns: Vec<ColumnInfo>,
    features_count: u64,
    node_size: u16,
    crs: Option<CrsInfo>,
    title: Option<String>,
    description: Option<String>,
    metadata: Option<String>,
}

impl Model for HeaderInfo {
    ghost use Rattle.fgb_schema.specs.Headers.{Header};

    ghost Value = { Header };

    ghost use Rattle.header_info.specs.OwnedHeader.{owned_header, IsWritable};

    ghost view = { owned_header };

    ghost invariant = { IsWritable };
}

impl HeaderInfo {
    /// A header of this geometry type, 0 to 7, with every other field at its default. It takes no memory.
    pub fn plain(alloc: Global, geometry_type: u8) -> HeaderInfo
        requires { geometry_type ≤ 7 }
        ensures { result ≡ plain geometry_type }
    {
        HeaderInfo {
            name: None,
            envelope: Vec::new(alloc),
            geometry_type,
            dimensions: Dimensions {
                z: false,
                m: false,
                t: false,
                tm: false,
            },
            columns: Vec::new(alloc),
            features_count: 0,
            node_size: NODE_SIZE,
            crs: None,
            title: None,
            description: None,
            metadata: None,
        }
    }

    /// Says how many features there are; 0 where that is unknown.
    pub fn set_count(&mut self, features: u64)
        ensures { self.new ≡ record self.old { features_count = features } }
    {
        self.features_count = features;
    }

    /// Says how many children a node of the index has; 0 where there is no index.
    pub fn set_node_size(&mut self, size: u16)
        requires { size ≢ 1 }
        ensures { self.new ≡ record self.old { node_size = size } }
    {
        self.node_size = size;
    }

    /// Says whether the coordinates have z and m.
    pub fn set_dimensions(&mut self, z: bool, m: bool)
        ensures { self.new ≡ record self.old { has_z = z; has_m = m } }
    {
        self.dimensions.z = z;
        self.dimensions.m = m;
    }

    /// Puts a column of this name and this type, 0 to 14, behind the others.
    pub fn push_column(&mut self, name: &str, kind: u8) -> Result<(), AllocError>
        requires known { kind ≤ 14 }
        requires room { length self.old.columns < 65536 }
        ensures ok { OnOk result (self.new ≡ record self.old { columns = self.old.columns ++ plain_column name.now kind ∷ [] }) }
        ensures err { OnErr result (self.new ≡ self.old) }
    {
        let column = ColumnInfo::plain(*self.columns.allocator(), name, kind)?;
        self.columns.push(column)?;
        Ok(())
    }

    /// A copy of a header that was read.
    pub fn of(alloc: Global, view: &HeaderView<'_>) -> Result<HeaderInfo, AllocError>
        ensures { IfOk result (λ header. header ≡ header_shown view.now) }
    {
        Ok(HeaderInfo {
            name: texts::owned(alloc, view.name())?,
            envelope: numbers_of(alloc, view.envelope())?,
            geometry_type: view.geometry_type(),
            dimensions: Dimensions {
                z: view.has_z(),
                m: view.has_m(),
                t: view.has_t(),
                tm: view.has_tm(),
            },
            columns: columns_of(alloc, view.columns())?,
            features_count: view.features_count(),
            node_size: view.index_node_size(),
            crs: crs_of(alloc, view.crs())?,
            title: texts::owned(alloc, view.title())?,
            description: texts::owned(alloc, view.description())?,
            metadata: texts::owned(alloc, view.metadata())?,
        })
    }

    /// 0 where each geometry says its own type, else the type of all: 1 to 7.
    pub fn geometry_type(&self) -> u8
        ensures { result ≡ self.now.geometry_type }
    {
        self.geometry_type
    }

    /// How many columns there are.
    pub fn columns(&self) -> usize
        ensures { result ≡ length self.now.columns }
    {
        self.columns.len()
    }

    /// The type of the i-th column.
    pub fn column_kind(&self, i: usize) -> u8
        requires { i < length self.now.columns }
        ensures { slice_get (types self.now.columns) i ≡ Some result }
    {
        self.columns[i].kind()
    }

    /// A copy.
    pub fn again(&self, alloc: Global) -> Result<HeaderInfo, AllocError>
        ensures { IfOk result (λ copy. copy ≡ self.now) }
    {
        Ok(HeaderInfo {
            name: texts::again(alloc, &self.name)?,
            envelope: Vec::from_slice(alloc, self.envelope.as_slice())?,
            geometry_type: self.geometry_type,
            dimensions: self.dimensions,
            columns: columns_again(alloc, self.columns.as_slice())?,
            features_count: self.features_count,
            node_size: self.node_size,
            crs: crs_again(alloc, &self.crs)?,
            title: texts::again(alloc, &self.title)?,
            description: texts::again(alloc, &self.description)?,
            metadata: texts::again(alloc, &self.metadata)?,
        })
    }

    /// The buffer of the header. Refuses TooLarge where that would be longer than 10,485,760 bytes.
    pub fn to_bytes(&self, alloc: Global) -> Result<Vec<u8>, BuildError>
        ensures ok { IfOk result (λ bytes. bytes.items ≡ laid (header_table self.now)) }
        ensures within { OnOk result (length (laid (header_table self.now)) ≤ 10485760) }
        ensures too_large { result ≡ Err BuildError.TooLarge → 10485760 < length (laid (header_table self.now)) }

        // it breaks no rule, and reads back
        ensures clean { IfOk result (λ bytes. IsClean (BreaksBuffer bytes.items header_root)) }
        ensures shown { IfOk result (λ bytes. header_of bytes.items ≡ self.now) }
    {
        laid_headers_read_back();
        self.table(alloc)?.finish(alloc, MAX_BYTES)
    }

    /// The table as which it is laid.
    fn table(&self, alloc: Global) -> Result<FlatTable, BuildError>
        ensures ok { IfOk result (λ t. t ≡ header_table self.now) }
        ensures memory { result ≢ Err BuildError.TooLarge }
        ensures writable { IsRecord self.now }
    {
        let mut table = FlatTable::new(alloc);
        put_text(&mut table, NAME, &self.name)?;
        put_doubles(&mut table, ENVELOPE, self.envelope.as_slice(), alloc)?;
        put_u8(&mut table, GEOMETRY_TYPE, self.geometry_type, 0)?;
        put_flag(&mut table, HAS_Z, self.dimensions.z, false)?;
        put_flag(&mut table, HAS_M, self.dimensions.m, false)?;
        put_flag(&mut table, HAS_T, self.dimensions.t, false)?;
        put_flag(&mut table, HAS_TM, self.dimensions.tm, false)?;
        put_columns(&mut table, COLUMNS, self.columns.as_slice(), alloc)?;
        put_u64(&mut table, FEATURES_COUNT, self.features_count, 0)?;
        put_u16(&mut table, INDEX_NODE_SIZE, self.node_size, NODE_SIZE)?;
        put_crs(&mut table, CRS, &self.crs, alloc)?;
        put_text(&mut table, TITLE, &self.title)?;
        put_text(&mut table, DESCRIPTION, &self.description)?;
        put_text(&mut table, METADATA, &self.metadata)?;
        Ok(table)
    }
}
