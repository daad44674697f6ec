ghost use Rattle.std.specs.Prelude.{if◌then◌else◌, ◌==◌, ◌≡◌, ◌⊎◌, ◌+◌, ◌^◌, ◌≤◌, true, false, length, MatchOption, slice_index};
ghost use Rattle.flat_layout.specs.Layout.{count, is_absent, led_to, longs, number_in, target};
ghost use Rattle.flat_layout.specs.Promises.{BreaksField, BreaksRoot, BreaksTable, BreaksTo, BreaksVector, Judges};
ghost use Rattle.flat_views.specs.Tables.{base_of, bytes_of, place_of};

use super::*;
use std::test::Fail;

// the header of a file of type Point without features
const HEADER: [u8; 24] = [
    16, 0, 0, 0, 10, 0, 5, 0, 0, 0, 0, 0, 4, 0, 0, 0, 12, 0, 0, 0, 1, 0, 0, 0,
];

// the feature with the point (1, 2)
const POINT: [u8; 84] = [
    16, 0, 0, 0, 6, 0, 8, 0, 4, 0, 0, 0, 0, 0, 0, 0, 12, 0, 0, 0, 28, 0, 0, 0, 18, 0, 9, 0, 0, 0,
    4, 0, 0, 0, 0, 0, 0, 0, 0, 0, 8, 0, 0, 0, 0, 0, 0, 0, 24, 0, 0, 0, 12, 0, 0, 0, 1, 0, 0, 0, 0,
    0, 0, 0, 2, 0, 0, 0, 0, 0, 0, 0, 0, 0, 240, 63, 0, 0, 0, 0, 0, 0, 0, 64,
];

/// What a reader of headers does: the type, the number of features and the node size.
fn read_header(bytes: &[u8], base: u64) -> Result<(u8, u64, u16), Broken>
    requires small { length bytes.now ≤ 268435456 }
    requires near { base ≤ 2 ^ 48 }
    ensures { let b = bytes.now in let t = target b 0 in
        Judges base
        (λ q r. BreaksRoot b q r ⊎ (BreaksField 1 b t 2 q r ⊎ (BreaksField 8 b t 8 q r ⊎ BreaksField 2 b t 9 q r)))
        (λ v. (v.0 ≡ number_in 1 b t 2 0) × (v.1 ≡ number_in 8 b t 8 0) × (v.2 ≡ number_in 2 b t 9 16))
        result }
{
    let table = Buf::new(bytes, base).root()?;
    let kind = table.scalar_u8(2, 0)?;
    let count = table.scalar_u64(8, 0)?;
    let node_size = table.scalar_u16(9, 16)?;
    Ok((kind, count, node_size))
}

#[test]
fn header(rt: HostRuntime) -> Result<(), Fail> {
    assert_eq!(rt; read_header(&HEADER, 12)?, (1, 0, 16));
    let table = Buf::new(&HEADER, 12).root()?;
    assert_eq!(rt; table.place(), 28);
    assert_eq!(rt; table.scalar_i32(4, -1)?, -1);
    Ok(())
}

/// What a reader of geometries does: the type, where no outer type holds, and the first number of xy
/// with its place.
fn read_geometry(geometry: Table, outer: u8) -> Result<(u8, Option<(u64, u64)>), Broken>
    ensures { let b = bytes_of geometry.entry in let g = place_of geometry.entry in let base = base_of geometry.entry in
        Judges base
        (λ q r. ((outer ≡ 0) × BreaksField 1 b g 6 q r) ⊎ BreaksTo (BreaksVector 8) b g 1 q r)
        (λ v. (v.0 ≡ (if outer == 0 then number_in 1 b g 6 0 else outer))
        × MatchOption v.1 ((is_absent b g 1 ≡ false) → count b (led_to b g 1) ≡ 0)
        (λ x. (x.0 ≡ base + led_to b g 1) × (x.1 ≡ slice_index (longs b (led_to b g 1)) 0)))
        result }
{
    let kind = if outer == 0 {
        geometry.scalar_u8(6, 0)?
    } else {
        outer
    };
    let Some(xy) = geometry.vector(1, 8)? else {
        return Ok((kind, None));
    };
    if xy.len() == 0 {
        return Ok((kind, None));
    }
    Ok((kind, Some((xy.place(), xy.at_u64(0)))))
}

/// What a reader of features does.
fn read_point(bytes: &[u8], base: u64) -> Result<Option<(u8, Option<(u64, u64)>)>, Broken>
    requires small { length bytes.now ≤ 268435456 }
    requires near { base ≤ 2 ^ 48 }
    ensures { let b = bytes.now in let t = target b 0 in let g = led_to b t 0 in
        Judges base
        (λ q r. BreaksRoot b q r ⊎ (BreaksTo BreaksTable b t 0 q r
        ⊎ ((is_absent b t 0 ≡ false) × (BreaksField 1 b g 6 q r ⊎ BreaksTo (BreaksVector 8) b g 1 q r))))
        (λ o. MatchOption o (is_absent b t 0 ≡ true) (λ v. v.0 ≡ number_in 1 b g 6 0))
        result }
{
    let table = Buf::new(bytes, base).root()?;
    if let Some(geometry) = table.table(0)? {
        Ok(Some(read_geometry(geometry, 0)?))
    } else {
        Ok(None)
    }
}

#[test]
fn point(rt: HostRuntime) -> Result<(), Fail> {
    let (one, two) = (0x3ff0_0000_0000_0000, 0x4000_0000_0000_0000);
    assert_eq!(rt; read_point(&POINT, 1000)?, Some((1, Some((1064, one)))));
    let table = Buf::new(&POINT, 1000).root()?;
    let Some(geometry) = table.table(0)? else {
        panic!(rt; "no geometry");
    };
    assert_eq!(rt; geometry.place(), 1048);
    let Some(xy) = geometry.vector(1, 8)? else {
        panic!(rt; "no xy");
    };
    assert_eq!(rt; xy.len(), 2);
    assert_eq!(rt; xy.at_u64(1), two);
    // the same two elements, read narrower
    let Some(halves) = geometry.vector(1, 4)? else {
        panic!(rt; "no xy");
    };
    assert_eq!(rt; halves.len(), 2);
    assert_eq!(rt; halves.at_u32(1), 0x3ff0_0000);
    let Some(bytes) = geometry.vector(1, 1)? else {
        panic!(rt; "no xy");
    };
    assert_eq!(rt; bytes.bytes(), [0, 0].as_slice());
    assert!(rt; geometry.vector(0, 4)?.is_none());
    Ok(())
}

/// Reads the root table, its field 0 as a byte and its field 1 as a vector.
fn look(bytes: &[u8]) -> Result<(), Broken> {
    if bytes.len() > 64 {
        return Ok(());
    }
    let table = Buf::new(bytes, 100).root()?;
    let _byte = table.scalar_u8(0, 0)?;
    let _vector = table.vector(1, 8)?;
    Ok(())
}

#[test]
fn hostile(rt: HostRuntime) {
    let below_four = [3, 0, 0, 0, 0, 0, 0, 0];
    let outside = [8, 0, 0, 0];
    let three_bytes = [4, 0, 0];
    let before = [12, 0, 0, 0, 4, 0, 4, 0, 0, 0, 0, 0, 13, 0, 0, 0];
    let odd = [12, 0, 0, 0, 5, 0, 4, 0, 0, 0, 0, 0, 8, 0, 0, 0];
    let on_vtable = [12, 0, 0, 0, 6, 0, 4, 0, 3, 0, 0, 0, 8, 0, 0, 0];
    let long = [
        12, 0, 0, 0, 8, 0, 8, 0, 0, 0, 4, 0, 8, 0, 0, 0, 4, 0, 0, 0, 255, 255, 255, 255,
    ];
    // a vtable behind its table is sound
    let behind = [4, 0, 0, 0, 252, 255, 255, 255, 4, 0, 4, 0];
    let cases = [
        (below_four.as_slice(), Rule::Offset, 100),
        (outside.as_slice(), Rule::Offset, 100),
        (three_bytes.as_slice(), Rule::Offset, 100),
        (before.as_slice(), Rule::Vtable, 112),
        (odd.as_slice(), Rule::Vtable, 112),
        (on_vtable.as_slice(), Rule::Field, 108),
        (long.as_slice(), Rule::Vector, 120),
    ];
    for (bytes, rule, place) in cases {
        assert_eq!(rt; look(bytes), Err(Broken { place, rule }));
    }
    assert_eq!(rt; look(&behind), Ok(()));
}

// a table with the string "\u{e9}!" and a vector of two empty tables, which share a vtable
const NAMED: [u8; 56] = [
    12, 0, 0, 0, 8, 0, 12, 0, 4, 0, 8, 0, 8, 0, 0, 0, 8, 0, 0, 0, 12, 0, 0, 0, 3, 0, 0, 0, 195,
    169, 33, 0, 2, 0, 0, 0, 8, 0, 0, 0, 8, 0, 0, 0, 248, 255, 255, 255, 252, 255, 255, 255, 4, 0,
    4, 0,
];

#[test]
fn named(rt: HostRuntime) -> Result<(), Fail> {
    let table = Buf::new(&NAMED, 100).root()?;
    assert_eq!(rt; table.string(0)?, Some("\u{e9}!"));
    assert_eq!(rt; table.string(2)?, None);
    assert!(rt; table.tables(2)?.is_none());
    let Some(tables) = table.tables(1)? else {
        panic!(rt; "no tables");
    };
    assert_eq!(rt; tables.place(), 132);
    assert_eq!(rt; tables.len(), 2);
    assert_eq!(rt; tables.get(0)?.place(), 144);
    assert_eq!(rt; tables.get(1)?.place(), 148);
    Ok(())
}

/// Reads the string of the root table, and the first of its tables.
fn look_named(bytes: &[u8; 56]) -> Result<(), Broken> {
    let table = Buf::new(bytes, 100).root()?;
    let _name = table.string(0)?;
    if let Some(tables) = table.tables(1)?
        && tables.len() > 0
    {
        let _first = tables.get(0)?;
    }
    Ok(())
}

#[test]
fn hostile_named(rt: HostRuntime) {
    let cases = [
        // the byte behind the string is not zero
        (28, [195, 169, 33, 1], Rule::Zero, 124),
        // the string ends where the buffer ends
        (24, [28, 0, 0, 0], Rule::Zero, 124),
        (28, [195, 33, 33, 0], Rule::Utf8, 124),
        (24, [255, 255, 255, 255], Rule::Vector, 124),
        (32, [255, 255, 255, 255], Rule::Vector, 132),
        (36, [3, 0, 0, 0], Rule::Offset, 136),
    ];
    for (at, four, rule, place) in cases {
        let mut bytes = NAMED;
        assert!(rt; at <= 52);
        bytes[at..at + 4].copy_from_slice(&four);
        assert_eq!(rt; look_named(&bytes), Err(Broken { place, rule }));
    }
    assert_eq!(rt; look_named(&NAMED), Ok(()));
}

#[test]
fn meter(rt: HostRuntime) {
    let mut meter = Meter::new(3, 100);
    let refusal = Err(Broken {
        place: 100,
        rule: Rule::Weight,
    });
    assert_eq!(rt; meter.spend(8), Ok(()));
    assert_eq!(rt; meter.spend(5), refusal);
    assert_eq!(rt; meter.spend(4), Ok(()));
    assert_eq!(rt; meter.spend(1), refusal);
}
