// Puts of fields that are left out where they hold their default, or where there is nothing.
ghost use Rattle.std.specs.Prelude.{◌≡◌, ◌≢◌, ◌+◌, ◌<◌, ◌≤◌, Err, OnOk, option_map, string_bytes};
ghost use Rattle.flat_builder.specs.Trees.{entry_count};
ghost use Rattle.header_tables.specs.Laying.{flag, scalar, signed, text as text_item};
ghost use Rattle.header_info.specs.Puts.{put_some};

use flat_builder::{BuildError, FlatTable, Scalar};

/// Puts a number of 1 byte that is not this default.
pub(crate) fn put_u8(
    table: &mut FlatTable,
    id: u16,
    value: u8,
    default: u8,
) -> Result<(), BuildError>
    requires above { entry_count table.old ≤ id }
    requires known { id < 1000 }
    ensures ok { OnOk result (table.new ≡ put_some table.old id (scalar 1 default value)) }
    ensures next { entry_count table.new ≤ id + 1 }
    ensures memory { result ≢ Err BuildError.TooLarge }
{
    if value == default {
        return Ok(());
    }
    table.put_scalar(id, Scalar::U8(value))
}

/// Puts a number of 2 bytes that is not this default.
pub(crate) fn put_u16(
    table: &mut FlatTable,
    id: u16,
    value: u16,
    default: u16,
) -> Result<(), BuildError>
    requires above { entry_count table.old ≤ id }
    requires known { id < 1000 }
    ensures ok { OnOk result (table.new ≡ put_some table.old id (scalar 2 default value)) }
    ensures next { entry_count table.new ≤ id + 1 }
    ensures memory { result ≢ Err BuildError.TooLarge }
{
    if value == default {
        return Ok(());
    }
    table.put_scalar(id, Scalar::U16(value))
}

/// Puts a signed number of 4 bytes that is not this default.
pub(crate) fn put_i32(
    table: &mut FlatTable,
    id: u16,
    value: i32,
    default: i32,
) -> Result<(), BuildError>
    requires above { entry_count table.old ≤ id }
    requires known { id < 1000 }
    ensures ok { OnOk result (table.new ≡ put_some table.old id (signed default value)) }
    ensures next { entry_count table.new ≤ id + 1 }
    ensures memory { result ≢ Err BuildError.TooLarge }
{
    if value == default {
        return Ok(());
    }
    table.put_scalar(id, Scalar::I32(value))
}

/// Puts a number of 8 bytes that is not this default.
pub(crate) fn put_u64(
    table: &mut FlatTable,
    id: u16,
    value: u64,
    default: u64,
) -> Result<(), BuildError>
    requires above { entry_count table.old ≤ id }
    requires known { id < 1000 }
    ensures ok { OnOk result (table.new ≡ put_some table.old id (scalar 8 default value)) }
    ensures next { entry_count table.new ≤ id + 1 }
    ensures memory { result ≢ Err BuildError.TooLarge }
{
    if value == default {
        return Ok(());
    }
    table.put_scalar(id, Scalar::U64(value))
}

/// Puts a flag that is not this default, as a byte of 0 or 1.
pub(crate) fn put_flag(
    table: &mut FlatTable,
    id: u16,
    value: bool,
    default: bool,
) -> Result<(), BuildError>
    requires above { entry_count table.old ≤ id }
    requires known { id < 1000 }
    ensures ok { OnOk result (table.new ≡ put_some table.old id (flag default value)) }
    ensures next { entry_count table.new ≤ id + 1 }
    ensures memory { result ≢ Err BuildError.TooLarge }
{
    put_u8(table, id, u8::from(value), u8::from(default))
}

/// Puts a text, if there is one.
pub(crate) fn put_text(
    table: &mut FlatTable,
    id: u16,
    text: &Option<String>,
) -> Result<(), BuildError>
    requires above { entry_count table.old ≤ id }
    requires known { id < 1000 }
    ensures ok { OnOk result (table.new ≡ put_some table.old id (text_item (option_map string_bytes text.now))) }
    ensures next { entry_count table.new ≤ id + 1 }
    ensures memory { result ≢ Err BuildError.TooLarge }
{
    match text {
        Some(text) => table.put_string(id, text.as_str()),
        None => Ok(()),
    }
}
