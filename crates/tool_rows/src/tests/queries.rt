// What queries answer.
use super::*;
use std::test::Fail;

#[test]
fn a_query_is_answered(rt: HostRuntime) -> Result<(), Fail> {
    let alloc = rt.alloc();
    let three = file_of(alloc, &THREE)?;
    answers(&rt, &QUERY, &three, BOTH)?;
    answers(
        &rt,
        &["query", "--box=0,0,10,10", "three.fgb"],
        &three,
        BOTH,
    )?;
    answers(&rt, &QUERY, &EMPTY, "")?;
    answers(
        &rt,
        &["query", "three.fgb", "--box=1/2,0,20/2,10"],
        &three,
        BOTH,
    )?;

    let zeros = file_of(alloc, &[(NEG_ZERO, ZERO)])?;
    let line = "0 0 84 8000000000000000 0000000000000000 8000000000000000 0000000000000000\n";
    answers(&rt, &["query", "zeros.fgb", "--box=0,0,0,0"], &zeros, line)
}

#[test]
fn several_boxes_are_sought(rt: HostRuntime) -> Result<(), Fail> {
    let three = file_of(rt.alloc(), &THREE)?;
    let words = ["query", "three.fgb", "--box=1,2,1,2+11,5,11,5"];
    let lines = "0 0 84 3ff0000000000000 4000000000000000 3ff0000000000000 4000000000000000
2 176 84 4026000000000000 4014000000000000 4026000000000000 4014000000000000
";
    answers(&rt, &words, &three, lines)
}

#[test]
fn a_polygon_is_found(rt: HostRuntime) -> Result<(), Fail> {
    // the header says Polygon: one ring of one point
    let mut file = file_of(rt.alloc(), &[(ONE, TWO)])?;
    if let Some(kind) = file.get_mut(32) {
        *kind = 3;
    }
    answers(&rt, &QUERY, &file, FIRST)
}

#[test]
fn a_feature_without_geometry_is_passed(rt: HostRuntime) -> Result<(), Fail> {
    let mut file = Vec::from_slice(rt.alloc(), &EMPTY)?;
    file.extend_from_slice(&BARE)?;
    push_points(&mut file, &THREE)?;
    let line = "3 192 84 4026000000000000 4014000000000000 4026000000000000 4014000000000000\n";
    answers(
        &rt,
        &["query", "bare.fgb", "--box=11,5,11,x4014000000000000"],
        &file,
        line,
    )
}
