// Where what is laid stands and ends, with no memory.
ghost use Rattle.std.specs.Prelude.{◌≡◌, ◌+◌, ◌*◌, ◌^◌, ◌<◌, ◌≤◌, length};
ghost use Rattle.flat_builder.specs.Trees.{IsAscending, entry_count, table};
ghost use Rattle.flat_builder.specs.Shown.{tables_of};
ghost use Rattle.flat_builder.specs.Fields.{fields_of, item_of};
ghost use Rattle.flat_builder.specs.Laying.{laid, lay, lay_fields, lay_tables, round_up, table_len, table_place, vtable_len, width_of};
ghost use Rattle.flat_builder.specs.Blanks.{EndsAt};

use crate::table::{Field, FlatTable, Value};

impl FlatTable {
    // The bytes of the buffer whose root this is, if it has at most so many.
    pub(crate) fn buffer_len(&self, limit: usize) -> Option<usize>
        requires { limit ≤ 2 ^ 28 }
        ensures { EndsAt limit (length (laid self.now)) result }
    {
        self.end(within(4, limit)?, limit)
    }

    // Where the table stands whose vtable stands at `cursor`.
    pub(crate) fn table_place(&self, cursor: usize) -> usize
        requires { cursor < 2 ^ 63 }
        ensures value { result ≡ table_place self.now cursor }
        ensures near { result ≤ cursor + 2011 }
        ensures behind { cursor ≤ result }
    {
        (cursor + vtable_len(&self.fields)).next_multiple_of(8)
    }

    // Where the table ends that is laid from `cursor` on, with all that it leads to.
    #[cycle(measuring)]
    fn end(&self, cursor: usize, limit: usize) -> Option<usize>
        requires near { limit ≤ 2 ^ 28 }
        requires inside { cursor ≤ limit }
        ensures { EndsAt limit (cursor + length (lay (table self.now) cursor)) result }
    {
        let children = (self.table_place(cursor) + table_len(&self.fields)).next_multiple_of(4);
        fields_end(&self.fields, within(children, limit)?, limit)
    }
}

impl Value {
    // The bytes of the field: an offset has 4.
    #[tactic(auto, unfolding(crate::specs::Laying::width_of))]
    pub(crate) fn width(&self) -> usize
        ensures value { result ≡ width_of (item_of self.now) }
        ensures few { result ≤ 8 }
    {
        match self {
            Value::Number(number) => number.width(),
            _ => 4,
        }
    }

    // Where the cursor is when it is laid.
    #[cycle(measuring)]
    fn end(&self, cursor: usize, limit: usize) -> Option<usize>
        requires near { limit ≤ 2 ^ 28 }
        requires inside { cursor ≤ limit }
        ensures { EndsAt limit (cursor + length (lay (item_of self.now) cursor)) result }
    {
        match self {
            Value::Number(_) => Some(cursor),
            Value::Text(text) => padded_end(cursor + 5, text.len(), 1, limit),
            Value::Vector(vector) => {
                padded_end(
                    vector.stands(cursor) + 4,
                    vector.len(),
                    vector.width(),
                    limit,
                )
            }
            Value::Table(inner) => inner.end(cursor, limit),
            Value::TableVector(all) => {
                let start = items_end(cursor + 4, all.len(), 4, limit)?;
                tables_end(all, start, limit)
            }
        }
    }
}

// Where that ends to which these fields lead, if it is laid from `start` on.
#[cycle(measuring)]
fn fields_end(fields: &[Field], start: usize, limit: usize) -> Option<usize>
    requires near { limit ≤ 2 ^ 28 }
    requires inside { start ≤ limit }
    ensures { EndsAt limit (start + length (lay_fields (fields_of fields.now) start).bytes) result }
{
    let mut end = start;
    for field in fields {
        end = field.value.end(end, limit)?;
    }
    Some(end)
}

// Where the last of these tables ends, if they are laid from `start` on.
#[cycle(measuring)]
fn tables_end(all: &[FlatTable], start: usize, limit: usize) -> Option<usize>
    requires near { limit ≤ 2 ^ 28 }
    requires inside { start ≤ limit }
    ensures { EndsAt limit (start + length (lay_tables (tables_of all.now) start).bytes) result }
{
    let mut end = start;
    for inner in all {
        end = inner.end(end, limit)?;
    }
    Some(end)
}

// Where so many elements of so many bytes end that stand from `start` on, with the zero bytes behind them.
fn padded_end(start: usize, count: usize, width: usize, limit: usize) -> Option<usize>
    requires near { limit ≤ 2 ^ 28 }
    requires inside { start ≤ 2 ^ 29 }
    requires some { 0 < width }
    requires few { width ≤ 8 }
    ensures { EndsAt limit (round_up 4 (start + width * count)) result }
{
    within(
        items_end(start, count, width, limit)?.next_multiple_of(4),
        limit,
    )
}

// Where the elements themselves end.
fn items_end(start: usize, count: usize, width: usize, limit: usize) -> Option<usize>
    requires near { limit ≤ 2 ^ 28 }
    requires inside { start ≤ 2 ^ 29 }
    requires some { 0 < width }
    requires few { width ≤ 8 }
    ensures { EndsAt limit (start + width * count) result }
{
    if count > limit {
        return None;
    }
    within(start + width * count, limit)
}

// This place, if it is not behind the limit.
fn within(end: usize, limit: usize) -> Option<usize>
    ensures { EndsAt limit end result }
{
    if end <= limit { Some(end) } else { None }
}

// How many entries the vtable of these fields has.
pub(crate) fn entry_count(fields: &[Field]) -> usize
    requires { IsAscending (fields_of fields.now) }
    ensures value { result ≡ entry_count (fields_of fields.now) }
    ensures few { result ≤ 1000 }
{
    match fields.last() {
        Some(field) => usize::from(field.id) + 1,
        None => 0,
    }
}

// The bytes of the vtable of these fields.
pub(crate) fn vtable_len(fields: &[Field]) -> usize
    requires { IsAscending (fields_of fields.now) }
    ensures value { result ≡ vtable_len (fields_of fields.now) }
    ensures few { result ≤ 2004 }
{
    4 + 2 * entry_count(fields)
}

// The bytes of the table of these fields.
pub(crate) fn table_len(fields: &[Field]) -> usize
    requires { IsAscending (fields_of fields.now) }
    ensures value { result ≡ table_len (fields_of fields.now) }
    ensures few { result ≤ 8004 }
{
    let mut len = 4;
    for field in fields {
        len += field.value.width();
    }
    len
}
