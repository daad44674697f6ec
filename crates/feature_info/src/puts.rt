// Puts of a feature's fields, which are left out where there is nothing.
ghost use Rattle.std.specs.Prelude.{◌≡◌, ◌≢◌, ◌+◌, ◌<◌, ◌≤◌, Err, OnOk};
ghost use Rattle.std.specs.Option.{option_map};
ghost use Rattle.flat_builder.specs.Trees.{entry_count, table as table_item};
ghost use Rattle.shape_tables.specs.Laying.{numbers_item, shape_table};
ghost use Rattle.header_info.specs.Puts.{put_some};

use flat_builder::{BuildError, FlatTable, FlatVector};
use owned_shape::Shape;
use std::alloc::Global;

/// Puts the table of a shape, if there is one.
pub(crate) fn put_shape(
    table: &mut FlatTable,
    id: u16,
    shape: &Option<Shape>,
    alloc: Global,
) -> Result<(), BuildError>
    requires above { entry_count table.old ≤ id }
    requires known { id < 1000 }
    ensures ok { OnOk result (table.new ≡ put_some table.old id (option_map (λ s. table_item (shape_table s)) shape.now)) }
    ensures next { entry_count table.new ≤ id + 1 }
    ensures memory { result ≢ Err BuildError.TooLarge }
{
    match shape {
        Some(shape) => table.put_table(id, shape.to_table(alloc)?),
        None => Ok(()),
    }
}

/// Puts bytes, if there are any.
pub(crate) fn put_bytes(table: &mut FlatTable, id: u16, bytes: Vec<u8>) -> Result<(), BuildError>
    requires above { entry_count table.old ≤ id }
    requires known { id < 1000 }
    ensures ok { OnOk result (table.new ≡ put_some table.old id (numbers_item 1 bytes.items)) }
    ensures next { entry_count table.new ≤ id + 1 }
    ensures memory { result ≢ Err BuildError.TooLarge }
{
    if bytes.is_empty() {
        return Ok(());
    }
    table.put_vector(id, FlatVector::Bytes(bytes))
}
