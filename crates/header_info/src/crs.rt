// A coordinate reference system that is owned.
ghost use Rattle.std.specs.Prelude.{◌≡◌, ◌≢◌, ◌+◌, ◌<◌, ◌≤◌, Err, IfOk, OnOk, option_map};
ghost use Rattle.std.specs.Option.{ForSome};
ghost use Rattle.flat_builder.specs.Trees.{entry_count, table as table_item};
ghost use Rattle.header_tables.specs.Laying.{crs_table};
ghost use Rattle.header_tables.specs.Records.{IsCrs};
ghost use Rattle.fgb_header.specs.Views.{crs_shown};
ghost use Rattle.header_info.specs.Puts.{put_some};

use crate::puts::{put_i32, put_text};
use crate::texts;
use fgb_header::CrsView;
use flat_builder::{BuildError, FlatTable};
use std::alloc::{AllocError, Global};
use std::marker::Model;

/// The fields of the schema (FlatGeobuf, header.fbs, table Crs).
const ORG: u16 = 0;

const CODE: u16 = 1;

const NAME: u16 = 2;

const DESCRIPTION: u16 = 3;

const WKT: u16 = 4;

const CODE_STRING: u16 = 5;

/// A coordinate reference system (FlatGeobuf, header.fbs, table Crs).
#[derive(Drop)]
pub(crate) struct CrsInfo {
    org: Option<String>,
    code: i32,
    name: Option<String>,
    description: Option<String>,
    wkt: Option<String>,
    code_string: Option<String>,
}

impl Model for CrsInfo {
    ghost use Rattle.fgb_schema.specs.Headers.{Crs};

    ghost Value = { Crs };

    ghost use Rattle.header_info.specs.OwnedCrs.{owned_crs};

    ghost view = { owned_crs };
}

impl CrsInfo {
    /// A copy of a coordinate reference system that was read.
    pub(crate) fn of(alloc: Global, view: &CrsView) -> Result<CrsInfo, AllocError>
        ensures ok { IfOk result (λ c. c ≡ crs_shown view.now) }
        ensures sound { IfOk result (λ c. IsCrs c) }
    {
        Ok(CrsInfo {
            org: texts::owned(alloc, view.org())?,
            code: view.code(),
            name: texts::owned(alloc, view.name())?,
            description: texts::owned(alloc, view.description())?,
            wkt: texts::owned(alloc, view.wkt())?,
            code_string: texts::owned(alloc, view.code_string())?,
        })
    }

    /// A copy.
    pub(crate) fn again(&self, alloc: Global) -> Result<CrsInfo, AllocError>
        ensures { IfOk result (λ c. c ≡ self.now) }
    {
        Ok(CrsInfo {
            org: texts::again(alloc, &self.org)?,
            code: self.code,
            name: texts::again(alloc, &self.name)?,
            description: texts::again(alloc, &self.description)?,
            wkt: texts::again(alloc, &self.wkt)?,
            code_string: texts::again(alloc, &self.code_string)?,
        })
    }

    /// The table as which it is laid.
    pub(crate) fn table(&self, alloc: Global) -> Result<FlatTable, BuildError>
        ensures ok { IfOk result (λ t. t ≡ crs_table self.now) }
        ensures memory { result ≢ Err BuildError.TooLarge }
    {
        let mut table = FlatTable::new(alloc);
        put_text(&mut table, ORG, &self.org)?;
        put_i32(&mut table, CODE, self.code, 0)?;
        put_text(&mut table, NAME, &self.name)?;
        put_text(&mut table, DESCRIPTION, &self.description)?;
        put_text(&mut table, WKT, &self.wkt)?;
        put_text(&mut table, CODE_STRING, &self.code_string)?;
        Ok(table)
    }
}

/// A copy of a coordinate reference system that was read, if there is one.
pub(crate) fn crs_of(alloc: Global, view: Option<CrsView>) -> Result<Option<CrsInfo>, AllocError>
    ensures ok { IfOk result (λ crs. crs ≡ option_map crs_shown view.entry) }
    ensures sound { IfOk result (λ crs. ForSome crs IsCrs) }
{
    match view {
        Some(view) => Ok(Some(CrsInfo::of(alloc, &view)?)),
        None => Ok(None),
    }
}

/// A copy, if there is one.
pub(crate) fn crs_again(alloc: Global, crs: &Option<CrsInfo>) -> Result<Option<CrsInfo>, AllocError>
    ensures { IfOk result (λ copy. copy ≡ crs.now) }
{
    match crs {
        Some(crs) => Ok(Some(crs.again(alloc)?)),
        None => Ok(None),
    }
}

/// Puts a coordinate reference system, if there is one.
pub(crate) fn put_crs(
    table: &mut FlatTable,
    id: u16,
    crs: &Option<CrsInfo>,
    alloc: Global,
) -> Result<(), BuildError>
    requires above { entry_count table.old ≤ id }
    requires known { id < 1000 }
    ensures ok { OnOk result (table.new ≡ put_some table.old id (option_map (λ c. table_item (crs_table c)) crs.now)) }
    ensures next { entry_count table.new ≤ id + 1 }
    ensures memory { result ≢ Err BuildError.TooLarge }
{
    match crs {
        Some(crs) => table.put_table(id, crs.table(alloc)?),
        None => Ok(()),
    }
}
