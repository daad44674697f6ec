// What `pack` answers.
use super::*;
use fgb_outside::MemorySource;
use std::alloc::{AllocError, Global};
use std::test::Fail;
use tool_rows::{BARE, CHECK, ONE, TWO, file_of, push_points, run_over};

/// The start and the header of a file of three Points, which has an index.
const PACKED: [u8; 60] = [
    102, 103, 98, 3, 102, 103, 98, 1, 48, 0, 0, 0, 32, 0, 0, 0, 22, 0, 13, 0, 0, 0, 0, 0, 12, 0, 0,
    0, 0, 0, 0, 0, 0, 0, 0, 0, 4, 0, 0, 0, 0, 0, 0, 0, 28, 0, 0, 0, 3, 0, 0, 0, 0, 0, 0, 0, 1, 0,
    0, 0,
];

const INFINITY: u64 = 0x7FF0_0000_0000_0000;

const NEG_INFINITY: u64 = 0xFFF0_0000_0000_0000;

/// The four patterns of a box and the offset of each node: the root, the leaves of both points, and that of the feature
/// without a geometry.
const NODES: [[u64; 5]; 4] = [
    [ONE, TWO, ONE, TWO, 1],
    [ONE, TWO, ONE, TWO, 0],
    [ONE, TWO, ONE, TWO, 88],
    [INFINITY, INFINITY, NEG_INFINITY, NEG_INFINITY, 176],
];

/// The words of a packing.
const PACK: [&str; 3] = ["pack", "three.fgb", "--node=16"];

/// A point, a feature without a geometry, and the same point.
fn unpacked(alloc: Global) -> Result<Vec<u8>, AllocError> {
    let mut file = file_of(alloc, &[(ONE, TWO)])?;
    file.extend_from_slice(&BARE)?;
    push_points(&mut file, &[(ONE, TWO)])?;
    Ok(file)
}

/// The packing of these three features, with nodes of 16: both points come first.
fn packed(alloc: Global) -> Result<Vec<u8>, AllocError> {
    let mut file = Vec::from_slice(alloc, &PACKED)?;
    for node in NODES {
        for number in node {
            file.extend_from_slice(&number.to_le_bytes())?;
        }
    }
    push_points(&mut file, &[(ONE, TWO), (ONE, TWO)])?;
    file.extend_from_slice(&BARE)?;
    Ok(file)
}

#[test]
fn a_file_is_packed(rt: HostRuntime) -> Result<(), Fail> {
    let alloc = rt.alloc();
    let image = unpacked(alloc)?;
    let mut file = MemorySource::new(alloc, &image, &[])?;
    let ran = run_over(alloc, &PACK, &mut file, &[])?;
    let wanted = packed(alloc)?;
    assert_eq!(rt; wanted.len(), 412);
    assert_eq!(rt;
        (ran.status, ran.out.bytes(), ran.err()?),
        (0, wanted.as_slice(), "")
    );
    Ok(())
}

#[test]
fn what_is_packed_is_accepted(rt: HostRuntime) -> Result<(), Fail> {
    let alloc = rt.alloc();
    let image = unpacked(alloc)?;
    let mut file = MemorySource::new(alloc, &image, &[])?;
    let ran = run_over(alloc, &PACK, &mut file, &[])?;
    let mut again = MemorySource::new(alloc, ran.out.bytes(), &[])?;
    let checked = run_over(alloc, &CHECK, &mut again, &[])?;
    assert_eq!(rt;
        (checked.status, checked.out()?),
        (0, "accepted 3 features 4 nodes\n")
    );
    Ok(())
}

#[test]
fn a_broken_file_is_not_packed(rt: HostRuntime) -> Result<(), Fail> {
    let alloc = rt.alloc();
    let image = unpacked(alloc)?;
    let Some(cut) = image.get(..200) else {
        return Err(Fail::new("a short file"));
    };
    let mut file = MemorySource::new(alloc, cut, &[])?;
    let ran = run_over(alloc, &PACK, &mut file, &[])?;
    assert_eq!(rt;
        (ran.status, ran.out()?, ran.err()?),
        (1, "", "refused: FeaturePastEnd at 140\n")
    );
    Ok(())
}

#[test]
fn packing_is_cut_off(rt: HostRuntime) -> Result<(), Fail> {
    let alloc = rt.alloc();
    let image = unpacked(alloc)?;
    for call in 1..4 {
        let mut file = MemorySource::new(alloc, &image, &[call])?;
        let ran = run_over(alloc, &PACK, &mut file, &[])?;
        assert_eq!(rt;
            (ran.status, ran.out()?, ran.err()?),
            (3, "", "source failed\n")
        );
    }
    let wanted = packed(alloc)?;
    for call in 1..4 {
        let mut file = MemorySource::new(alloc, &image, &[])?;
        let ran = run_over(alloc, &PACK, &mut file, &[call])?;
        assert_eq!(rt; (ran.status, ran.err()?), (4, "sink failed\n"));
        assert!(rt; wanted.starts_with(ran.out.bytes()));
    }
    Ok(())
}
