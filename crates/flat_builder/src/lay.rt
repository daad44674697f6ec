// A tree of tables is laid at the end of a buffer.
ghost use Rattle.std.specs.Prelude.{◌≡◌, ◌≢◌, ◌+◌, ◌-◌, ◌*◌, ◌^◌, ◌<◌, ◌≤◌, ◌++◌, ◌∷◌, [], ℕ, List, length, replicate, IfOk, OnOk};
ghost use Rattle.std.specs.List.{flat_map};
ghost use Rattle.byteorder.specs.Endian.{little_bytes};
ghost use Rattle.flat_builder.specs.Trees.{IsAscending, entry_count, table, tables};
ghost use Rattle.flat_builder.specs.Shown.{tables_of, vector_item};
ghost use Rattle.flat_builder.specs.Fields.{fields_of, item_of};
ghost use Rattle.flat_builder.specs.Laying.{Slot, by_width, lay, lay_fields, lay_tables, of_width, slot_bytes, slot_of, slots_bytes, table_bytes, table_place, text_bytes, width_of};
ghost use Rattle.flat_builder.specs.Blanks.{IsFresh, Lacks, LeadsTo, blank, begun, blank_of, blanks, elements_in, held, slots_len, width_in};

use crate::bytes::{fill, push_number, push_zeros, set_number};
use crate::measure::{entry_count, table_len, vtable_len};
use crate::table::{Field, FlatTable, Value};
use crate::value::FlatVector;
use std::alloc::AllocError;

impl FlatTable {
    // Lays the table, and all that it leads to behind it.
    #[cycle(laying)]
    pub(crate) fn lay(&self, out: &mut Vec<u8>) -> Result<(), AllocError>
        ensures { OnOk result (out.new.items ≡ out.old.items ++ lay (table self.now) (length out.old.items)) }
    {
        let fours = lay_table(&self.fields, out)?;
        lay_children(&self.fields, fours, out)
    }
}

// Lays the vtable and the table, with 0 for each offset. Answers where the fields of 4 bytes begin.
fn lay_table(fields: &[Field], out: &mut Vec<u8>) -> Result<usize, AllocError>
    requires { IsAscending (fields_of fields.now) }
    ensures table { OnOk result (out.new.items ≡ out.old.items ++ table_bytes (fields_of fields.now) (by_width (blanks fields.now)) (length out.old.items)) }
    ensures fours { IfOk result (λ place. place ≡ table_place (fields_of fields.now) (length out.old.items) + 4 + slots_len (of_width 8 (blanks fields.now))) }
{
    let vtable = out.len();
    push_number(out, vtable_len(fields) as u64, 2)?;
    push_number(out, table_len(fields) as u64, 2)?;
    push_zeros(out, 2 * entry_count(fields))?;
    fill(out, 8)?;
    let table = out.len();
    push_number(out, (table - vtable) as u64, 4)?;
    lay_width(fields, 8, vtable, table, out)?;
    let fours = out.len();
    lay_width(fields, 4, vtable, table, out)?;
    lay_width(fields, 2, vtable, table, out)?;
    lay_width(fields, 1, vtable, table, out)?;
    fill(out, 4)?;
    Ok(fours)
}

// Lays the fields of `width` bytes, and tells the vtable where they stand.
fn lay_width(
    fields: &[Field],
    width: usize,
    vtable: usize,
    table: usize,
    out: &mut Vec<u8>,
) -> Result<(), AllocError>
    requires ascends { IsAscending (fields_of fields.now) }
    requires inside { vtable + 4 + 2 * entry_count (fields_of fields.now) ≤ table }
    requires behind { table ≤ length out.old.items }
    ensures grown { OnOk result (length out.old.items ≤ length out.new.items) }
    ensures laid { (front middle : List ℕ) (before : List Slot) → let count = entry_count (fields_of fields.now) in
        length front ≡ vtable + 4 → length front + 2 * count + length middle ≡ table + 4 → IsFresh width fields.now before
        → out.old.items ≡ begun front count middle (table + 4) before
        → OnOk result (out.new.items ≡ begun front count middle (table + 4) (before ++ of_width width (blanks fields.now))) }
{
    for field in fields {
        if field.value.width() == width {
            lay_field(field, vtable, table, out)?;
        }
    }
    Ok(())
}

// Lays a field, with 0 for an offset, and tells the vtable where it stands.
fn lay_field(
    field: &Field,
    vtable: usize,
    table: usize,
    out: &mut Vec<u8>,
) -> Result<(), AllocError>
    requires inside { vtable + 4 + 2 * field.now.id + 2 ≤ table }
    requires behind { table ≤ length out.old.items }
    ensures grown { OnOk result (length out.old.items ≤ length out.new.items) }
    ensures laid { (front middle : List ℕ) (count : ℕ) (before : List Slot) → length front ≡ vtable + 4
        → length front + 2 * count + length middle ≡ table + 4 → field.now.id < count → Lacks field.now.id before
        → out.old.items ≡ begun front count middle (table + 4) before
        → OnOk result (out.new.items ≡ begun front count middle (table + 4) (before ++ blank field.now ∷ [])) }
{
    let place = out.len() - table;
    set_number(out, vtable + 4 + 2 * usize::from(field.id), place as u64, 2);
    push_number(out, field.value.number(), field.value.width())
}

// Lays what the fields lead to, and writes the offsets into the fields of 4 bytes, which begin at `fours`.
#[cycle(laying)]
fn lay_children(fields: &[Field], fours: usize, out: &mut Vec<u8>) -> Result<(), AllocError>
    requires { fours + slots_len (of_width 4 (blanks fields.now)) ≤ length out.old.items }
    ensures { (front rest : List ℕ) → let laid = lay_fields (fields_of fields.now) (length out.old.items) in
        length front ≡ fours → out.old.items ≡ front ++ slots_bytes fours (of_width 4 (blanks fields.now)) ++ rest
        → OnOk result (out.new.items ≡ front ++ slots_bytes fours (of_width 4 laid.slots) ++ rest ++ laid.bytes) }
{
    let mut place = fours;
    for field in fields {
        place = field.value.lay_behind(place, out)?;
    }
    Ok(())
}

impl Value {
    // What stands in the field until an offset does.
    fn number(&self) -> u64
        ensures { result ≡ held (item_of self.now) }
    {
        match self {
            Value::Number(number) => number.pattern(),
            _ => 0,
        }
    }

    // Where an offset leads to it, if it is laid from `cursor` on.
    fn stands(&self, cursor: usize) -> Option<usize>
        requires { cursor < 2 ^ 63 }
        ensures { LeadsTo (item_of self.now) cursor result }
    {
        match self {
            Value::Number(_) => None,
            Value::Text(_) => Some(cursor),
            Value::Vector(vector) => Some(vector.stands(cursor)),
            Value::Table(inner) => Some(inner.table_place(cursor)),
            Value::TableVector(_) => Some(cursor),
        }
    }

    // Writes the offset that leads to it at `place`, before it is laid at the end.
    fn write_offset(&self, place: usize, out: &mut Vec<u8>)
        requires { width_of (item_of self.now) ≡ 4 → place + 4 ≤ length out.old.items }
        ensures len { length out.new.items ≡ length out.old.items }
        ensures four { (front rest : List ℕ) → let item = item_of self.now in
            width_of item ≡ 4 → length front ≡ place → out.old.items ≡ front ++ slot_bytes place (blank_of 0 item) ++ rest
            → out.new.items ≡ front ++ slot_bytes place (slot_of 0 item (length out.old.items)) ++ rest }
        ensures other { width_of (item_of self.now) ≢ 4 → out.new.items ≡ out.old.items }
    {
        if let Some(stands) = self.stands(out.len()) {
            set_number(out, place, (stands - place) as u64, 4);
        }
    }

    // Lays it, with its offset at `place` if it has one. Answers where the next field of 4 bytes stands.
    #[cycle(laying)]
    fn lay_behind(&self, place: usize, out: &mut Vec<u8>) -> Result<usize, AllocError>
        requires { width_of (item_of self.now) ≡ 4 → place + 4 ≤ length out.old.items }
        ensures len { OnOk result (length out.new.items ≡ length out.old.items + length (lay (item_of self.now) (length out.old.items))) }
        ensures four { (front rest : List ℕ) → let item = item_of self.now in
            width_of item ≡ 4 → length front ≡ place → out.old.items ≡ front ++ slot_bytes place (blank_of 0 item) ++ rest
            → OnOk result (out.new.items ≡ front ++ slot_bytes place (slot_of 0 item (length out.old.items)) ++ rest ++ lay item (length out.old.items)) }
        ensures other { width_of (item_of self.now) ≢ 4 → OnOk result (out.new.items ≡ out.old.items ++ lay (item_of self.now) (length out.old.items)) }
        ensures next { IfOk result (λ next. next ≡ place + slots_len (of_width 4 (blank_of 0 (item_of self.now) ∷ []))) }
    {
        self.write_offset(place, out);
        self.lay(out)?;
        Ok(if self.width() == 4 { place + 4 } else { place })
    }

    // Lays it; a number stands in its table alone.
    #[cycle(laying)]
    fn lay(&self, out: &mut Vec<u8>) -> Result<(), AllocError>
        ensures { OnOk result (out.new.items ≡ out.old.items ++ lay (item_of self.now) (length out.old.items)) }
    {
        match self {
            Value::Number(_) => Ok(()),
            Value::Text(text) => lay_text(text.as_bytes(), out),
            Value::Vector(vector) => vector.lay(out),
            Value::Table(inner) => inner.lay(out),
            Value::TableVector(all) => lay_tables(all, out),
        }
    }
}

// Lays a vector of tables, and the tables.
#[cycle(laying)]
fn lay_tables(all: &[FlatTable], out: &mut Vec<u8>) -> Result<(), AllocError>
    ensures { OnOk result (out.new.items ≡ out.old.items ++ lay (tables (tables_of all.now)) (length out.old.items)) }
{
    push_number(out, all.len() as u64, 4)?;
    let offsets = out.len();
    push_zeros(out, 4 * all.len())?;
    lay_each(all, offsets, out)
}

// Lays the tables, and writes the offsets that lead to them, the first at `offsets`.
#[cycle(laying)]
fn lay_each(all: &[FlatTable], offsets: usize, out: &mut Vec<u8>) -> Result<(), AllocError>
    requires { offsets + 4 * length all.now ≤ length out.old.items }
    ensures { (front : List ℕ) → let laid = lay_tables (tables_of all.now) (length out.old.items) in
        length front ≡ offsets → out.old.items ≡ front ++ replicate (4 * length all.now) 0
        → OnOk result (out.new.items ≡ front ++ slots_bytes offsets laid.slots ++ laid.bytes) }
{
    let mut place = offsets;
    for inner in all {
        let stands = inner.table_place(out.len());
        set_number(out, place, (stands - place) as u64, 4);
        inner.lay(out)?;
        place += 4;
    }
    Ok(())
}

// Lays a string.
fn lay_text(text: &[u8], out: &mut Vec<u8>) -> Result<(), AllocError>
    ensures { OnOk result (out.new.items ≡ out.old.items ++ text_bytes text.now (length out.old.items)) }
{
    push_number(out, text.len() as u64, 4)?;
    out.extend_from_slice(text)?;
    out.push(0)?;
    fill(out, 4)
}

impl FlatVector {
    // Lays it, with the zero bytes in front.
    fn lay(&self, out: &mut Vec<u8>) -> Result<(), AllocError>
        ensures { OnOk result (out.new.items ≡ out.old.items ++ lay (vector_item self.now) (length out.old.items)) }
    {
        let cursor = out.len();
        push_zeros(out, self.stands(cursor) - cursor)?;
        push_number(out, self.len() as u64, 4)?;
        self.lay_elements(out)?;
        fill(out, 4)
    }

    // Lays its elements.
    fn lay_elements(&self, out: &mut Vec<u8>) -> Result<(), AllocError>
        ensures { OnOk result (out.new.items ≡ out.old.items ++ flat_map (little_bytes (width_in self.now)) (elements_in self.now)) }
    {
        match self {
            FlatVector::Bytes(items) => lay_bytes(items, out),
            FlatVector::Words(items) => lay_words(items, out),
            FlatVector::Longs(items) => lay_longs(items, out),
        }
    }
}

fn lay_bytes(items: &[u8], out: &mut Vec<u8>) -> Result<(), AllocError>
    ensures { OnOk result (out.new.items ≡ out.old.items ++ flat_map (little_bytes 1) items.now) }
{
    out.extend_from_slice(items)
}

fn lay_words(items: &[u32], out: &mut Vec<u8>) -> Result<(), AllocError>
    ensures { OnOk result (out.new.items ≡ out.old.items ++ flat_map (little_bytes 4) items.now) }
{
    for item in items {
        push_number(out, u64::from(*item), 4)?;
    }
    Ok(())
}

fn lay_longs(items: &[u64], out: &mut Vec<u8>) -> Result<(), AllocError>
    ensures { OnOk result (out.new.items ≡ out.old.items ++ flat_map (little_bytes 8) items.now) }
{
    for item in items {
        push_number(out, *item, 8)?;
    }
    Ok(())
}
