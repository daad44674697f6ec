// The table as which a shape is laid.
ghost use Rattle.std.specs.Prelude.{◌≡◌, ◌≢◌, ◌+◌, ◌<◌, ◌≤◌, ◌∷◌, [], length, map, true, false, Err, IfOk, OnOk};
ghost use Rattle.fgb_schema.specs.Shapes.{ordinates_in, points_in, rings_from, rings_in, type_in};
ghost use Rattle.flat_builder.specs.Trees.{entry_count, none};
ghost use Rattle.flat_builder.specs.Shown.{tables_of};
ghost use Rattle.shape_tables.specs.Laying.{numbers_item, shape_items, shape_table, tables_item, told_ends, with_fields};
ghost use Rattle.shape_tables.specs.Records.{IsRecord as CanStand};

use crate::shape::Shape;
use flat_builder::{BuildError, FlatTable, FlatVector, Scalar};
use shape_tables::laid_shapes_read_back;
use std::alloc::Global;

/// The fields of the schema (FlatGeobuf, feature.fbs, table Geometry).
const ENDS: u16 = 0;

const XY: u16 = 1;

const Z: u16 = 2;

const M: u16 = 3;

const T: u16 = 4;

const TM: u16 = 5;

const TYPE: u16 = 6;

const PARTS: u16 = 7;

impl Shape {
    /// The table as which it is laid (FlatGeobuf, feature.fbs, Geometry). Never refuses TooLarge.
    #[cycle(laying)]
    pub fn to_table(&self, alloc: Global) -> Result<FlatTable, BuildError>
        ensures ok { IfOk result (λ t. t ≡ shape_table self.now) }
        ensures memory { result ≢ Err BuildError.TooLarge }

        // it can stand in a file, so that what is laid reads back
        ensures sound { CanStand self.now }
    {
        laid_shapes_read_back();
        let parts = tables_for(&self.parts, alloc)?;
        self.table_with(parts, alloc)
    }

    /// Its table with these tables of parts.
    fn table_with(&self, parts: Vec<FlatTable>, alloc: Global) -> Result<FlatTable, BuildError>
        ensures ok { let s = self.now in IfOk result (λ t. t ≡ with_fields none 0 (shape_items (type_in s) (points_in s) (rings_in s) (ordinates_in s) (tables_of parts.items))) }
        ensures memory { result ≢ Err BuildError.TooLarge }
    {
        let mut table = FlatTable::new(alloc);
        put_ends(&mut table, &self.ends, alloc)?;
        put_longs(&mut table, XY, &self.xy, alloc)?;
        put_longs(&mut table, Z, &self.lists.z, alloc)?;
        put_longs(&mut table, M, &self.lists.m, alloc)?;
        put_longs(&mut table, T, &self.lists.t, alloc)?;
        put_longs(&mut table, TM, &self.lists.tm, alloc)?;
        table.put_scalar(TYPE, Scalar::U8(self.kind.number()))?;
        put_parts(&mut table, parts)?;
        Ok(table)
    }
}

/// The tables as which parts are laid.
#[cycle(laying)]
fn tables_for(parts: &[Shape], alloc: Global) -> Result<Vec<FlatTable>, BuildError>
    ensures ok { IfOk result (λ all. all.items ≡ map shape_table parts.now) }
    ensures memory { result ≢ Err BuildError.TooLarge }
{
    let mut all = Vec::new(alloc);
    for part in parts {
        all.push(part.to_table(alloc)?)?;
    }
    Ok(all)
}

/// Puts numbers of 8 bytes, if there are any.
fn put_longs(
    table: &mut FlatTable,
    id: u16,
    numbers: &[u64],
    alloc: Global,
) -> Result<(), BuildError>
    requires above { entry_count table.old ≤ id }
    requires known { id < 1000 }
    ensures ok { OnOk result (table.new ≡ with_fields table.old id (numbers_item 8 numbers.now ∷ [])) }
    ensures next { entry_count table.new ≤ id + 1 }
    ensures memory { result ≢ Err BuildError.TooLarge }
{
    if numbers.is_empty() {
        return Ok(());
    }
    let items = Vec::from_slice(alloc, numbers)?;
    table.put_vector(id, FlatVector::Longs(items))
}

/// Puts the ends of rings, where the points alone do not tell them.
fn put_ends(table: &mut FlatTable, ends: &[u32], alloc: Global) -> Result<(), BuildError>
    requires { table.old ≡ none }
    ensures ok { OnOk result (table.new ≡ with_fields none 0 (numbers_item 4 (told_ends (rings_from 0 ends.now)) ∷ [])) }
    ensures next { entry_count table.new ≤ 1 }
    ensures memory { result ≢ Err BuildError.TooLarge }
{
    if are_told(ends) {
        return Ok(());
    }
    let items = Vec::from_slice(alloc, ends)?;
    table.put_vector(ENDS, FlatVector::Words(items))
}

/// Whether the points alone tell the ends of rings: there are none, or there is one that is not empty.
fn are_told(ends: &[u32]) -> bool
    ensures told { result ≡ true → told_ends (rings_from 0 ends.now) ≡ [] }
    ensures untold { result ≡ false → told_ends (rings_from 0 ends.now) ≡ ends.now }
    ensures some { result ≡ false → 0 < length ends.now }
{
    match ends {
        [] => true,
        [end] => *end != 0,
        _ => false,
    }
}

/// Puts the tables of parts, if there are any.
fn put_parts(table: &mut FlatTable, parts: Vec<FlatTable>) -> Result<(), BuildError>
    requires { entry_count table.old ≤ 7 }
    ensures ok { OnOk result (table.new ≡ with_fields table.old 7 (tables_item (tables_of parts.items) ∷ [])) }
    ensures memory { result ≢ Err BuildError.TooLarge }
{
    if parts.is_empty() {
        return Ok(());
    }
    table.put_tables(PARTS, parts)
}
