// What conversions answer.
use super::*;
use fgb_outside::MemorySource;
use std::alloc::{AllocError, Global};
use std::process::Abort;
use std::test::Fail;

/// The point (1, 2) in well-known binary: the lowest byte first, the type 1, and two patterns.
const VALUE: [u8; 21] = [
    1, 1, 0, 0, 0, 0, 0, 0, 0, 0, 0, 240, 63, 0, 0, 0, 0, 0, 0, 0, 64,
];

/// The start and the header of a file of one feature, of no type and without an index: the header's vtable stands at 16
/// and its table at 44, with the number of features at 48 and the node size at 56.
const UNTYPED: [u8; 60] = [
    102, 103, 98, 3, 102, 103, 98, 1, 48, 0, 0, 0, 32, 0, 0, 0, 24, 0, 14, 0, 0, 0, 0, 0, 0, 0, 0,
    0, 0, 0, 0, 0, 0, 0, 0, 0, 4, 0, 12, 0, 0, 0, 0, 0, 28, 0, 0, 0, 1, 0, 0, 0, 0, 0, 0, 0, 0, 0,
    0, 0,
];

/// The file without an index over the value.
fn untyped_file(alloc: Global) -> Result<Vec<u8>, AllocError> {
    let mut file = Vec::from_slice(alloc, &UNTYPED)?;
    push_points(&mut file, &[(ONE, TWO)])?;
    Ok(file)
}

/// Converts these bytes from the one form to the other, and wants this end, with these bytes written.
fn converts<R: Abort + AllocGlobal>(
    rt: &R,
    forms: [&str; 2],
    image: &[u8],
    wanted: &[u8],
    end: (u8, &str),
) -> Result<(), Fail> {
    let alloc = rt.alloc();
    let words = ["convert", forms[0], forms[1], "one.bin"];
    let mut file = MemorySource::new(alloc, image, &[])?;
    let ran = run_over(alloc, &words, &mut file, &[])?;
    assert_eq!(rt; (ran.status, ran.err()?), end);
    assert_eq!(rt; ran.out.bytes(), wanted);
    Ok(())
}

#[test]
fn a_value_is_written_as_a_file(rt: HostRuntime) -> Result<(), Fail> {
    let file = untyped_file(rt.alloc())?;
    converts(&rt, ["--from=wkb", "--to=fgb"], &VALUE, &file, (0, ""))
}

#[test]
fn a_file_is_written_as_a_value(rt: HostRuntime) -> Result<(), Fail> {
    let file = untyped_file(rt.alloc())?;
    converts(&rt, ["--from=fgb", "--to=wkb"], &file, &VALUE, (0, ""))
}

#[test]
fn a_file_is_written_anew(rt: HostRuntime) -> Result<(), Fail> {
    let file = untyped_file(rt.alloc())?;
    converts(&rt, ["--from=fgb", "--to=fgb"], &file, &file, (0, ""))
}

#[test]
fn a_feature_without_geometry_is_no_value(rt: HostRuntime) -> Result<(), Fail> {
    let mut file = file_of(rt.alloc(), &[(ONE, TWO)])?;
    file.extend_from_slice(&BARE)?;
    push_points(&mut file, &[(ONE, TWO)])?;
    let refused = (1, "refused: NoWkb at 124\n");
    converts(&rt, ["--from=fgb", "--to=wkb"], &file, &[], refused)
}

#[test]
fn a_value_without_its_end_is_refused(rt: HostRuntime) -> Result<(), Fail> {
    let refused = (1, "refused: WkbEnd at 13\n");
    converts(&rt, ["--from=wkb", "--to=fgb"], &VALUE[..20], &[], refused)
}
