// A table, as it is made by puts.
ghost use Rattle.std.specs.Prelude.{◌≡◌, ◌≢◌, ◌<◌, ◌≤◌, length, Err, IfOk, OnOk, OnErr};
ghost use Rattle.flat_builder.specs.Trees.{none, put, string, table, tables, entry_count};
ghost use Rattle.flat_builder.specs.Shown.{scalar_item, vector_item, tables_of};
ghost use Rattle.flat_builder.specs.Fields.{item_of};
ghost use Rattle.flat_builder.specs.Laying.{laid};

use crate::bytes::push_number;
use crate::error::BuildError;
use crate::value::{FlatVector, Scalar};
use std::alloc::Global;
use std::marker::Model;

/// A table that is being made, shown as its fields in the order of the puts.
#[cycle(flat)]
#[derive(Drop)]
pub struct FlatTable {
    pub(crate) fields: Vec<Field>,
}

/// A field: its id in the schema, and what stands in it.
#[cycle(flat)]
#[derive(Drop)]
pub(crate) struct Field {
    pub(crate) id: u16,
    pub(crate) value: Value,
}

/// What stands in a field: a number, or an offset to the rest.
#[cycle(flat)]
#[derive(Drop)]
pub(crate) enum Value {
    Number(Scalar),
    Text(String),
    Vector(FlatVector),
    Table(FlatTable),
    TableVector(Vec<FlatTable>),
}

impl Model for FlatTable {
    ghost use Rattle.flat_builder.specs.Trees.{Fields, IsAscending, fields_size};
    ghost use Rattle.flat_builder.specs.Codes.{fields_code};

    ghost Value = { Fields };

    ghost coded = { fields_code };

    ghost use Rattle.flat_builder.specs.Fields.{fields_of};

    ghost view = { λ t. fields_of t.fields.items };

    ghost invariant = { λ t. IsAscending (fields_of t.fields.items) };

    ghost size = { fields_size };

    ghost use Rattle.flat_builder.specs.Sizes.{fields_hold};

    ghost size_decreases = { λ t _. fields_hold t };
}

impl FlatTable {
    /// A table without fields.
    pub fn new(alloc: Global) -> FlatTable
        ensures { result ≡ none }
    {
        FlatTable {
            fields: Vec::new(alloc),
        }
    }

    /// Gives the field of this id a number. The id is above those of the fields before, and below 1,000.
    pub fn put_scalar(&mut self, id: u16, value: Scalar) -> Result<(), BuildError>
        requires above { entry_count self.old ≤ id }
        requires known { id < 1000 }
        ensures ok { OnOk result (self.new ≡ put self.old id (scalar_item value)) }
        ensures err { OnErr result (self.new ≡ self.old) }
        ensures memory { result ≢ Err BuildError.TooLarge }
    {
        self.put(id, Value::Number(value))
    }

    /// Gives the field of this id a string.
    pub fn put_string(&mut self, id: u16, text: &str) -> Result<(), BuildError>
        requires above { entry_count self.old ≤ id }
        requires known { id < 1000 }
        ensures ok { OnOk result (self.new ≡ put self.old id (string text.now)) }
        ensures err { OnErr result (self.new ≡ self.old) }
        ensures memory { result ≢ Err BuildError.TooLarge }
    {
        let owned = String::from_str(*self.fields.allocator(), text)?;
        self.put(id, Value::Text(owned))
    }

    /// Gives the field of this id a vector of numbers.
    pub fn put_vector(&mut self, id: u16, items: FlatVector) -> Result<(), BuildError>
        requires above { entry_count self.old ≤ id }
        requires known { id < 1000 }
        ensures ok { OnOk result (self.new ≡ put self.old id (vector_item items)) }
        ensures err { OnErr result (self.new ≡ self.old) }
        ensures memory { result ≢ Err BuildError.TooLarge }
    {
        self.put(id, Value::Vector(items))
    }

    /// Gives the field of this id a table.
    pub fn put_table(&mut self, id: u16, child: FlatTable) -> Result<(), BuildError>
        requires above { entry_count self.old ≤ id }
        requires known { id < 1000 }
        ensures ok { OnOk result (self.new ≡ put self.old id (table child)) }
        ensures err { OnErr result (self.new ≡ self.old) }
        ensures memory { result ≢ Err BuildError.TooLarge }
    {
        self.put(id, Value::Table(child))
    }

    /// Gives the field of this id a vector of tables.
    pub fn put_tables(&mut self, id: u16, children: Vec<FlatTable>) -> Result<(), BuildError>
        requires above { entry_count self.old ≤ id }
        requires known { id < 1000 }
        ensures ok { OnOk result (self.new ≡ put self.old id (tables (tables_of children.items))) }
        ensures err { OnErr result (self.new ≡ self.old) }
        ensures memory { result ≢ Err BuildError.TooLarge }
    {
        self.put(id, Value::TableVector(children))
    }

    // Gives the field of this id a value, which is dropped where there is no memory.
    fn put(&mut self, id: u16, value: Value) -> Result<(), BuildError>
        requires above { entry_count self.old ≤ id }
        requires known { id < 1000 }
        ensures ok { OnOk result (self.new ≡ put self.old id (item_of value)) }
        ensures err { OnErr result (self.new ≡ self.old) }
        ensures memory { result ≢ Err BuildError.TooLarge }
    {
        self.fields.push(Field { id, value })?;
        Ok(())
    }

    /// The buffer whose root is this table, if it has at most `limit` bytes; `TooLarge` where it has more, which is
    /// decided before any memory is taken.
    pub fn finish(&self, alloc: Global, limit: u32) -> Result<Vec<u8>, BuildError>
        requires { limit ≤ 268435456 }
        ensures ok { IfOk result (λ buffer. buffer.items ≡ laid self.now) }
        ensures within { OnOk result (length (laid self.now) ≤ limit) }
        ensures too_large { result ≡ Err BuildError.TooLarge → limit < length (laid self.now) }
        ensures large { limit < length (laid self.now) → result ≡ Err BuildError.TooLarge }
    {
        let Some(len) = self.buffer_len(limit as usize) else {
            return Err(BuildError::TooLarge);
        };
        let mut buffer = Vec::with_capacity(alloc, len)?;
        push_number(&mut buffer, self.table_place(4) as u64, 4)?;
        self.lay(&mut buffer)?;
        Ok(buffer)
    }
}
