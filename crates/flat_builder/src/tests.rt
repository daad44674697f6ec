use super::*;
use std::alloc::Global;
use std::test::Fail;

// A table without fields.
const EMPTY: [u8; 12] = [8, 0, 0, 0, 4, 0, 4, 0, 4, 0, 0, 0];

// A table in which each kind of field stands.
const EACH: [u8; 108] = [
    0x18, 0, 0, 0, 0x10, 0, 0x15, 0, 0x14, 0, 0, 0, 4, 0, 8, 0, 0x0c, 0, 0x10, 0, 0, 0, 0, 0, 0x14,
    0, 0, 0, 0x14, 0, 0, 0, 0x18, 0, 0, 0, 0x24, 0, 0, 0, 0x24, 0, 0, 0, 7, 0, 0, 0, 3, 0, 0, 0,
    0x61, 0x62, 0x63, 0, 1, 0, 0, 0, 9, 0, 0, 0, 0, 0, 0, 0, 4, 0, 4, 0, 4, 0, 0, 0, 2, 0, 0, 0,
    0x10, 0, 0, 0, 0x14, 0, 0, 0, 4, 0, 4, 0, 0, 0, 0, 0, 8, 0, 0, 0, 4, 0, 4, 0, 4, 0, 0, 0,
];

// A table that holds a table with a vector of doubles.
const INNER: [u8; 84] = [
    0x10, 0, 0, 0, 6, 0, 8, 0, 4, 0, 0, 0, 0, 0, 0, 0, 0x0c, 0, 0, 0, 0x1c, 0, 0, 0, 0x12, 0, 9, 0,
    0, 0, 4, 0, 0, 0, 0, 0, 0, 0, 0, 0, 8, 0, 0, 0, 0, 0, 0, 0, 0x18, 0, 0, 0, 0x0c, 0, 0, 0, 1, 0,
    0, 0, 0, 0, 0, 0, 2, 0, 0, 0, 0, 0, 0, 0, 0, 0, 0xf0, 0x3f, 0, 0, 0, 0, 0, 0, 0, 0x40,
];

fn each_kind(alloc: Global) -> Result<FlatTable, Fail> {
    let mut table = FlatTable::new(alloc);
    table.put_scalar(0, Scalar::U8(7))?;
    table.put_string(2, "abc")?;
    table.put_vector(3, FlatVector::Longs(vec![in alloc; 9]?))?;
    table.put_table(4, FlatTable::new(alloc))?;
    table.put_tables(
        5,
        vec![in alloc; FlatTable::new(alloc), FlatTable::new(alloc)]?,
    )?;
    Ok(table)
}

#[test]
fn each_kind_is_laid(rt: HostRuntime) -> Result<(), Fail> {
    let table = each_kind(rt.alloc())?;
    let buffer = table.finish(rt.alloc(), 108)?;
    assert_eq!(rt; buffer.as_slice(), EACH.as_slice());
    assert_eq!(rt;
        table.finish(rt.alloc(), 107).err(),
        Some(BuildError::TooLarge)
    );
    Ok(())
}

#[test]
fn an_empty_table_is_laid(rt: HostRuntime) -> Result<(), Fail> {
    let table = FlatTable::new(rt.alloc());
    let buffer = table.finish(rt.alloc(), 12)?;
    assert_eq!(rt; buffer.as_slice(), EMPTY.as_slice());
    assert_eq!(rt;
        table.finish(rt.alloc(), 11).err(),
        Some(BuildError::TooLarge)
    );
    Ok(())
}

#[test]
fn a_table_stands_behind_its_parent(rt: HostRuntime) -> Result<(), Fail> {
    let doubles = vec![in rt.alloc(); 0x3ff0_0000_0000_0000, 0x4000_0000_0000_0000]?;
    let mut inner = FlatTable::new(rt.alloc());
    inner.put_vector(1, FlatVector::Longs(doubles))?;
    inner.put_scalar(6, Scalar::U8(1))?;
    let mut outer = FlatTable::new(rt.alloc());
    outer.put_table(0, inner)?;
    let buffer = outer.finish(rt.alloc(), 84)?;
    assert_eq!(rt; buffer.as_slice(), INNER.as_slice());
    Ok(())
}
