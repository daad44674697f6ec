// Files that break a rule.
use super::*;
use std::alloc::{AllocError, Global};
use std::process::Abort;
use std::test::Fail;

/// Changes the file of the three points at these places, and wants this refusal. The header's vtable stands at
/// 16 and its table at 28; the first feature's prefix at 36, its buffer at 40, its vtable at 44, its table at 56,
/// its geometry's vtable at 64, its geometry's table at 88 and xy at 104.
fn breaks<R: Abort + AllocGlobal>(
    rt: &R,
    changes: &[(usize, u8)],
    refusal: &str,
) -> Result<(), Fail> {
    let file = changed(rt.alloc(), changes)?;
    let text = format!(in rt.alloc(); "refused: {refusal}\n")?;
    refuses(rt, &QUERY, &file, "", &text)?;
    Ok(())
}

#[test]
fn a_broken_header_is_refused(rt: HostRuntime) -> Result<(), Fail> {
    breaks(&rt, &[(3, 2)], "Magic at 3")?;
    breaks(&rt, &[(11, 1)], "HeaderSize at 8")?;
    breaks(&rt, &[(8, 33), (9, 1)], "HeaderSize at 8")?;
    breaks(&rt, &[(12, 0)], "Offset at 12")?;
    breaks(&rt, &[(16, 11)], "Vtable at 28")?;
    breaks(&rt, &[(24, 5)], "Field at 24")?;
    breaks(&rt, &[(32, 8)], "Kind at 28")?;
    let asked = refuses(&rt, &QUERY, &INDEXED, "", "refused: IndexPastEnd at 60\n")?;
    assert_eq!(rt; asked, 60);
    let asked = refuses(&rt, &QUERY, &NARROW, "", "refused: NodeSize at 44\n")?;
    assert_eq!(rt; asked, 52);
    let asked = refuses(&rt, &QUERY, &EMPTY[..5], "", "refused: Short at 5\n")?;
    assert_eq!(rt; asked, 0);
    Ok(())
}

#[test]
fn a_broken_feature_is_refused(rt: HostRuntime) -> Result<(), Fail> {
    breaks(&rt, &[(32, 0), (96, 0)], "Kind at 88")?;
    breaks(&rt, &[(32, 0), (96, 8)], "Kind at 88")?;
    breaks(&rt, &[(32, 0), (80, 9)], "Field at 80")?;
    breaks(&rt, &[(40, 3)], "Offset at 40")?;
    breaks(&rt, &[(40, 81)], "Offset at 40")?;
    breaks(&rt, &[(44, 7)], "Vtable at 56")?;
    breaks(&rt, &[(48, 3)], "Field at 48")?;
    breaks(&rt, &[(60, 0)], "Offset at 60")?;
    breaks(&rt, &[(64, 19)], "Vtable at 88")?;
    breaks(&rt, &[(70, 3)], "Field at 70")?;
    breaks(&rt, &[(92, 33)], "Offset at 92")?;
    breaks(
        &rt,
        &[(104, 255), (105, 255), (106, 255), (107, 255)],
        "Vector at 104",
    )?;
    breaks(&rt, &[(104, 1)], "PairCount at 104")?;
    breaks(&rt, &[(36, 172), (104, 4)], "PointCount at 104")?;
    breaks(&rt, &[(115, 0x7F)], "NotFinite at 108")?;
    breaks(&rt, &[(122, 0xF0), (123, 0xFF)], "NotFinite at 116")?;
    breaks(&rt, &[(37, 1)], "FeaturePastEnd at 36")?;
    let last = changed(rt.alloc(), &[(212, 85)])?;
    refuses(&rt, &QUERY, &last, BOTH, "refused: FeaturePastEnd at 212\n")?;
    Ok(())
}

/// A feature up to its geometry, at 60: its table, and the vtables of a GeometryCollection and of a Point.
const SHARED: [u8; 60] = [
    12, 0, 0, 0, 6, 0, 8, 0, 4, 0, 0, 0, 8, 0, 0, 0, 44, 0, 0, 0, 20, 0, 12, 0, 0, 0, 0, 0, 0, 0,
    0, 0, 0, 0, 0, 0, 8, 0, 4, 0, 18, 0, 8, 0, 0, 0, 0, 0, 0, 0, 0, 0, 0, 0, 0, 0, 4, 0, 0, 0,
];

/// A file with one feature of 428 bytes: collections at depths 1 to 15, each with two parts that are one table,
/// and a Point without points at depth 16. Along the paths its 65,535 geometries weigh 524,280 with their lists.
fn shared_parts(alloc: Global) -> Result<Vec<u8>, AllocError> {
    let mut file = Vec::from_slice(alloc, &EMPTY)?;
    file.extend_from_slice(&[172, 1, 0, 0])?;
    file.extend_from_slice(&SHARED)?;
    for level in 0..15u32 {
        // the distance to the vtable, the offset of the list, the type, and the list of two
        file.extend_from_slice(&(40 + 24 * level).to_le_bytes())?;
        file.extend_from_slice(&[8, 0, 0, 0, 7, 0, 0, 0, 2, 0, 0, 0, 8, 0, 0, 0, 4, 0, 0, 0])?;
    }
    file.extend_from_slice(&[124, 1, 0, 0, 1, 0, 0, 0])?;
    if let Some(kind) = file.get_mut(32) {
        *kind = 7;
    }
    Ok(file)
}

#[test]
fn shared_parts_are_heavy(rt: HostRuntime) -> Result<(), Fail> {
    let file = shared_parts(rt.alloc())?;
    refuses(&rt, &QUERY, &file, "", "refused: Weight at 40\n")?;
    refuses(&rt, &CHECK, &file, "", "refused: Weight at 40\n")?;
    Ok(())
}
