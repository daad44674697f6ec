// A column that is owned.
ghost use Rattle.std.specs.Prelude.{◌≡◌, ◌≢◌, ◌+◌, ◌<◌, ◌≤◌, Err, IfOk, OnOk};
ghost use Rattle.std.specs.List.{AllByRecursion};
ghost use Rattle.flat_builder.specs.Trees.{entry_count};
ghost use Rattle.flat_builder.specs.Shown.{tables_of};
ghost use Rattle.header_tables.specs.Laying.{column_table, column_tables, columns_item};
ghost use Rattle.header_tables.specs.Records.{IsColumn, plain_column};
ghost use Rattle.fgb_header.specs.Views.{column_shown, columns_shown};
ghost use Rattle.header_info.specs.Puts.{put_some};

use crate::puts::{put_flag, put_i32, put_text, put_u8};
use crate::texts;
use fgb_header::{ColumnView, Columns};
use flat_builder::{BuildError, FlatTable};
use std::alloc::{AllocError, Global};
use std::marker::Model;

/// The fields of the schema (FlatGeobuf, header.fbs, table Column).
const NAME: u16 = 0;

const TYPE: u16 = 1;

const TITLE: u16 = 2;

const DESCRIPTION: u16 = 3;

const WIDTH: u16 = 4;

const PRECISION: u16 = 5;

const SCALE: u16 = 6;

const NULLABLE: u16 = 7;

const UNIQUE: u16 = 8;

const PRIMARY_KEY: u16 = 9;

const METADATA: u16 = 10;

/// A width, a precision or a scale that is not said.
const UNSAID: i32 = -1;

/// A column of the features' properties (FlatGeobuf, header.fbs, table Column).
#[derive(Drop)]
pub struct ColumnInfo {
    name: String,
    kind: u8,
    title: Option<String>,
    description: Option<String>,
    width: i32,
    precision: i32,
    scale: i32,
    nullable: bool,
    unique: bool,
    primary_key: bool,
    metadata: Option<String>,
}

impl Model for ColumnInfo {
    ghost use Rattle.fgb_schema.specs.Headers.{Column};

    ghost Value = { Column };

    ghost use Rattle.header_info.specs.OwnedColumn.{owned_column};

    ghost view = { owned_column };
}

impl ColumnInfo {
    /// A column of this name and this type; every other field is at its default.
    pub(crate) fn plain(alloc: Global, name: &str, kind: u8) -> Result<ColumnInfo, AllocError>
        requires { kind ≤ 14 }
        ensures ok { IfOk result (λ c. c ≡ plain_column name.now kind) }
        ensures sound { IfOk result (λ c. IsColumn c) }
    {
        Ok(ColumnInfo {
            name: String::from_str(alloc, name)?,
            kind,
            title: None,
            description: None,
            width: UNSAID,
            precision: UNSAID,
            scale: UNSAID,
            nullable: true,
            unique: false,
            primary_key: false,
            metadata: None,
        })
    }

    /// A copy of a column that was read.
    pub(crate) fn of(alloc: Global, view: &ColumnView) -> Result<ColumnInfo, AllocError>
        ensures ok { IfOk result (λ c. c ≡ column_shown view.now) }
        ensures sound { IfOk result (λ c. IsColumn c) }
    {
        Ok(ColumnInfo {
            name: String::from_str(alloc, view.name())?,
            kind: view.kind(),
            title: texts::owned(alloc, view.title())?,
            description: texts::owned(alloc, view.description())?,
            width: view.width(),
            precision: view.precision(),
            scale: view.scale(),
            nullable: view.nullable(),
            unique: view.unique(),
            primary_key: view.primary_key(),
            metadata: texts::owned(alloc, view.metadata())?,
        })
    }

    /// A copy.
    fn again(&self, alloc: Global) -> Result<ColumnInfo, AllocError>
        ensures { IfOk result (λ c. c ≡ self.now) }
    {
        Ok(ColumnInfo {
            name: String::from_str(alloc, self.name.as_str())?,
            kind: self.kind,
            title: texts::again(alloc, &self.title)?,
            description: texts::again(alloc, &self.description)?,
            width: self.width,
            precision: self.precision,
            scale: self.scale,
            nullable: self.nullable,
            unique: self.unique,
            primary_key: self.primary_key,
            metadata: texts::again(alloc, &self.metadata)?,
        })
    }

    /// The type of its values.
    pub fn kind(&self) -> u8
        ensures { result ≡ self.now.kind }
    {
        self.kind
    }

    /// The table as which it is laid.
    fn table(&self, alloc: Global) -> Result<FlatTable, BuildError>
        ensures ok { IfOk result (λ t. t ≡ column_table self.now) }
        ensures memory { result ≢ Err BuildError.TooLarge }
    {
        let mut table = FlatTable::new(alloc);
        table.put_string(NAME, self.name.as_str())?;
        put_u8(&mut table, TYPE, self.kind, 0)?;
        put_text(&mut table, TITLE, &self.title)?;
        put_text(&mut table, DESCRIPTION, &self.description)?;
        put_i32(&mut table, WIDTH, self.width, UNSAID)?;
        put_i32(&mut table, PRECISION, self.precision, UNSAID)?;
        put_i32(&mut table, SCALE, self.scale, UNSAID)?;
        put_flag(&mut table, NULLABLE, self.nullable, true)?;
        put_flag(&mut table, UNIQUE, self.unique, false)?;
        put_flag(&mut table, PRIMARY_KEY, self.primary_key, false)?;
        put_text(&mut table, METADATA, &self.metadata)?;
        Ok(table)
    }
}

/// Copies of columns that were read.
pub fn columns_of(alloc: Global, view: Columns) -> Result<Vec<ColumnInfo>, AllocError>
    ensures ok { IfOk result (λ columns. columns.items ≡ columns_shown view.entry) }
    ensures sound { IfOk result (λ columns. AllByRecursion IsColumn columns.items) }
{
    let mut columns = Vec::new(alloc);
    for i in 0..view.len() {
        let column = view.get(i);
        columns.push(ColumnInfo::of(alloc, &column)?)?;
    }
    Ok(columns)
}

/// Copies of columns.
pub(crate) fn columns_again(
    alloc: Global,
    columns: &[ColumnInfo],
) -> Result<Vec<ColumnInfo>, AllocError>
    ensures { IfOk result (λ copies. copies.items ≡ columns.now) }
{
    let mut copies = Vec::new(alloc);
    for column in columns {
        copies.push(column.again(alloc)?)?;
    }
    Ok(copies)
}

/// Gives the field of this id the columns, as a vector of tables, if there are any. Never refuses TooLarge.
pub fn put_columns(
    table: &mut FlatTable,
    id: u16,
    columns: &[ColumnInfo],
    alloc: Global,
) -> Result<(), BuildError>
    requires above { entry_count table.old ≤ id }
    requires known { id < 1000 }
    ensures ok { OnOk result (table.new ≡ put_some table.old id (columns_item columns.now)) }
    ensures next { entry_count table.new ≤ id + 1 }
    ensures memory { result ≢ Err BuildError.TooLarge }
{
    if columns.is_empty() {
        return Ok(());
    }
    table.put_tables(id, tables_for(alloc, columns)?)
}

/// The tables as which columns are laid.
fn tables_for(alloc: Global, columns: &[ColumnInfo]) -> Result<Vec<FlatTable>, BuildError>
    ensures ok { IfOk result (λ all. tables_of all.items ≡ column_tables columns.now) }
    ensures memory { result ≢ Err BuildError.TooLarge }
{
    let mut all = Vec::new(alloc);
    for column in columns {
        all.push(column.table(alloc)?)?;
    }
    Ok(all)
}
