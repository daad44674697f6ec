ghost use Rattle.std.specs.Prelude.{◌≡◌, ◌<◌, [], ◌≤◌, Some, length, slice_get, IsOkAnd, MatchOption, ⊤};
ghost use Rattle.std.specs.Option.{ForSome};
ghost use Rattle.flat_layout.specs.Layout.{count, entry_place};
ghost use Rattle.flat_layout.specs.Promises.{IsClean};
ghost use Rattle.flat_views.specs.Meters.{left_of, meter_place};
ghost use Rattle.flat_views.specs.TableVecs.{tables_base, tables_bytes, tables_place};
ghost use Rattle.flat_views.specs.Tables.{base_of, bytes_of, place_of};
ghost use Rattle.fgb_schema.specs.Tables.{column as column_name, table as table_thing};
ghost use Rattle.fgb_schema.specs.Paths.{Breaks, columns_part, offset, columns_field};
ghost use Rattle.fgb_schema.specs.Weights.{Goes};

use crate::column::{ColumnView, known_kind};
use flat_views::{Broken, Meter, Rule, Table, TableVec};

/// The most columns that a list has.
const MAX_COLUMNS: usize = 65536;

/// The columns of a header, or of a feature. An absent list and an empty one are one value.
#[derive(Clone, Copy)]
pub struct Columns<'a> {
    list: Option<TableVec<'a>>,
    // so the columns can be read again
    pub ghost clean: { ForSome list (λ tables. IsClean (Breaks (tables_bytes tables) (columns_part (tables_place tables)))) },
}

impl<'a> Columns<'a> {
    ghost use Rattle.flat_layout.specs.Layout.{target};
    ghost use Rattle.fgb_schema.specs.Headers.{column_at, columns_at, columns_in, types};
    ghost use Rattle.fgb_header.specs.Parts.{column_shown, columns_shown};

    /// The columns of a list, under a meter, which then has less by exactly what the list and what is below
    /// it weigh: 4 for each entry and for each table, and the bytes of each text. Refuses ColumnCount, a rule
    /// of a column, or Weight at the meter's place; the meter then has at most what it had.
    pub fn read(list: Option<TableVec<'a>>, meter: &mut Meter) -> Result<Columns<'a>, Broken>
        ensures none { MatchOption list.entry (IsOkAnd result (λ columns. columns_shown columns ≡ []) × (left_of meter.new ≡ left_of meter.old)) (λ tables. ⊤) }
        ensures some { MatchOption list.entry ⊤ (λ tables.
            Goes (tables_base tables) (tables_bytes tables) (columns_part (tables_place tables)) (meter_place meter.old) (left_of meter.old) (left_of meter.new)
            (λ columns. columns_shown columns ≡ columns_at (tables_bytes tables) (tables_place tables)) result) }
        ensures place { meter_place meter.new ≡ meter_place meter.old }
    {
        let Some(tables) = list else {
            return Ok(Columns { list: None });
        };
        read_all(tables, meter)?;
        Ok(Columns { list: Some(tables) })
    }

    /// The columns of the list in a field of a table, as `read` does. Refuses Field, Offset or Vector besides.
    pub fn in_field(table: Table<'a>, field: u16, meter: &mut Meter) -> Result<Columns<'a>, Broken>
        ensures goes { let b = bytes_of table.entry in let t = place_of table.entry in
            Goes (base_of table.entry) b (columns_field t field) (meter_place meter.old) (left_of meter.old) (left_of meter.new)
            (λ columns. columns_shown columns ≡ columns_in b t field) result }
        ensures place { meter_place meter.new ≡ meter_place meter.old }
    {
        let list = table.tables(field)?;
        Columns::read(list, meter)
    }

    /// How many columns there are.
    pub fn len(self) -> usize
        ensures { result ≡ length (columns_shown self.entry) }
    {
        match self.list {
            Some(tables) => tables.len(),
            None => 0,
        }
    }

    /// The i-th column.
    pub fn get(self, i: usize) -> ColumnView<'a>
        requires { i < length (columns_shown self) }
        ensures { slice_get (columns_shown self.entry) i ≡ Some (column_shown result) }
    {
        match self.list {
            Some(tables) => Columns::sound_column(tables, i),
            None => unreachable!(),
        }
    }

    /// The type of the i-th column, read without the rest of it.
    pub fn kind(self, i: usize) -> u8
        requires { i < length (columns_shown self) }
        ensures value { slice_get (types (columns_shown self.entry)) i ≡ Some result }
        ensures known { result ≤ 14 }
    {
        match self.list {
            Some(tables) => Columns::sound_kind(tables, i),
            None => unreachable!(),
        }
    }

    /// The type of the column of the i-th entry of a list that breaks no rule.
    fn sound_kind(tables: TableVec<'a>, i: usize) -> u8
        requires early { i < count (tables_bytes tables) (tables_place tables) }
        requires clean { IsClean (Breaks (tables_bytes tables) (columns_part (tables_place tables))) }
        ensures value { let b = tables_bytes tables.entry in
            result ≡ (column_at b (target b (entry_place b (tables_place tables.entry) i))).kind }
        ensures known { result ≤ 14 }
    {
        let Ok(table) = tables.get(i) else {
            unreachable!()
        };
        match known_kind(table) {
            Ok(kind) => kind,
            Err(_) => unreachable!(),
        }
    }

    /// The column of the i-th entry of a list that breaks no rule.
    fn sound_column(tables: TableVec<'a>, i: usize) -> ColumnView<'a>
        requires early { i < count (tables_bytes tables) (tables_place tables) }
        requires clean { IsClean (Breaks (tables_bytes tables) (columns_part (tables_place tables))) }
        ensures { let b = tables_bytes tables.entry in
            column_shown result ≡ column_at b (target b (entry_place b (tables_place tables.entry) i)) }
    {
        let Ok(table) = tables.get(i) else {
            unreachable!()
        };
        match ColumnView::read(table) {
            Ok(column) => column,
            Err(_) => unreachable!(),
        }
    }
}

/// Reads every column of a list, under a meter.
fn read_all(tables: TableVec, meter: &mut Meter) -> Result<(), Broken>
    ensures goes { let b = tables_bytes tables.entry in let v = tables_place tables.entry in
        Goes (tables_base tables.entry) b (columns_part v) (meter_place meter.old) (left_of meter.old) (left_of meter.new) (λ _. ⊤) result }
    ensures place { meter_place meter.new ≡ meter_place meter.old }
{
    if tables.len() > MAX_COLUMNS {
        return Err(Broken {
            place: tables.place(),
            rule: Rule::ColumnCount,
        });
    }
    meter.spend(4 * tables.len() as u64)?;
    for i in 0..tables.len() {
        read_entry(tables, i, meter)?;
    }
    Ok(())
}

/// Reads the column of the i-th entry, under a meter.
fn read_entry(tables: TableVec, i: usize, meter: &mut Meter) -> Result<(), Broken>
    requires { i < count (tables_bytes tables) (tables_place tables) }
    ensures goes { let b = tables_bytes tables.entry in
        let entry = offset (table_thing column_name) (entry_place b (tables_place tables.entry) i) in
        Goes (tables_base tables.entry) b entry (meter_place meter.old) (left_of meter.old) (left_of meter.new) (λ _. ⊤) result }
    ensures place { meter_place meter.new ≡ meter_place meter.old }
{
    let column = ColumnView::read(tables.get(i)?)?;
    meter.spend(column.weight())
}
