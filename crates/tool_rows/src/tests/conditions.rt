// What queries with a condition answer.
use super::*;
use std::alloc::{AllocError, Global};
use std::test::Fail;

/// The start and the header of a file of type Point, without an index: one column, `id` of type ULong, whose table
/// stands at 76. The header's table stands at 44.
const HEADER: [u8; 96] = [
    102, 103, 98, 3, 102, 103, 98, 1, 84, 0, 0, 0, 32, 0, 0, 0, 24, 0, 11, 0, 0, 0, 0, 0, 10, 0, 0,
    0, 0, 0, 0, 0, 0, 0, 4, 0, 0, 0, 8, 0, 0, 0, 0, 0, 28, 0, 0, 0, 8, 0, 0, 0, 0, 0, 1, 0, 1, 0,
    0, 0, 16, 0, 0, 0, 8, 0, 9, 0, 4, 0, 8, 0, 0, 0, 0, 0, 12, 0, 0, 0, 8, 0, 0, 0, 8, 0, 0, 0, 2,
    0, 0, 0, 105, 100, 0, 0,
];

/// A feature with a point and an id, up to the point; and what stands between the point and the id.
const FRONT: [u8; 72] = [
    100, 0, 0, 0, 16, 0, 0, 0, 8, 0, 12, 0, 4, 0, 8, 0, 0, 0, 0, 0, 12, 0, 0, 0, 28, 0, 0, 0, 60,
    0, 0, 0, 18, 0, 9, 0, 0, 0, 4, 0, 0, 0, 0, 0, 0, 0, 0, 0, 8, 0, 0, 0, 20, 0, 0, 0, 12, 0, 0, 0,
    1, 0, 0, 0, 0, 0, 0, 0, 2, 0, 0, 0,
];

const MIDDLE: [u8; 6] = [10, 0, 0, 0, 0, 0];

/// The points of the features 0 to 4 of the plain grid.
const POINTS: [(u64, u64); 5] = [
    (0xc066_8000_0000_0000, 0xc056_8000_0000_0000),
    (0xc061_e000_0000_0000, 0xc042_8000_0000_0000),
    (0xc05a_8000_0000_0000, 0x4030_0000_0000_0000),
    (0xc051_4000_0000_0000, 0x4051_4000_0000_0000),
    (0xc040_0000_0000_0000, 0xc04d_8000_0000_0000),
];

const ANYWHERE: &str = "--box=-180,-90,180,90";

/// The file of these five points, whose ids are 0 to 4.
fn grid_file(alloc: Global) -> Result<Vec<u8>, AllocError> {
    let mut file = Vec::from_slice(alloc, &HEADER)?;
    for ((x, y), id) in POINTS.iter().zip(0u64..) {
        file.extend_from_slice(&FRONT)?;
        file.extend_from_slice(&x.to_le_bytes())?;
        file.extend_from_slice(&y.to_le_bytes())?;
        file.extend_from_slice(&MIDDLE)?;
        file.extend_from_slice(&id.to_le_bytes())?;
        file.extend_from_slice(&[0, 0])?;
    }
    Ok(file)
}

#[test]
fn the_condition_holds_for_what_is_written(rt: HostRuntime) -> Result<(), Fail> {
    let file = grid_file(rt.alloc())?;
    let words = ["query", "m.fgb", ANYWHERE, "--where=id:ge:3"];
    let lines = "3 312 100 c051400000000000 4051400000000000 c051400000000000 4051400000000000
4 416 100 c040000000000000 c04d800000000000 c040000000000000 c04d800000000000
";
    answers(&rt, &words, &file, lines)
}

#[test]
fn a_condition_is_refused_at_its_column(rt: HostRuntime) -> Result<(), Fail> {
    let file = grid_file(rt.alloc())?;
    let words = ["query", "m.fgb", ANYWHERE, "--where=pop:eq:1"];
    let asked = refuses(&rt, &words, &file, "", "refused: WhereColumn at 44\n")?;
    assert_eq!(rt; asked, 96);
    let words = ["query", "m.fgb", ANYWHERE, "--where=id:eq:x"];
    let asked = refuses(&rt, &words, &file, "", "refused: WhereValue at 76\n")?;
    assert_eq!(rt; asked, 96);
    Ok(())
}
