// Sources and sinks that fail.
use super::*;
use fgb_outside::MemorySource;
use std::alloc::{AllocError, Global};
use std::process::Abort;
use std::test::Fail;

/// Runs these words over the file of the three points, whose source fails at the call of this number, and wants that
/// so many positions were asked for; and once more, where it does not fail, and wants these lines.
fn source_fails<R: Abort + AllocGlobal>(
    rt: &R,
    words: &[&str],
    call: u64,
    asked: u64,
    lines: &str,
) -> Result<(), Fail> {
    let alloc = rt.alloc();
    let three = file_of(alloc, &THREE)?;
    let mut file = MemorySource::new(alloc, &three, &[call])?;
    let ran = run_over(alloc, words, &mut file, &[])?;
    assert_eq!(rt;
        (ran.status, ran.out()?, ran.err()?),
        (3, "", "source failed\n")
    );
    assert_eq!(rt; front_of(file.asked()), Some(asked));
    let again = run_over(alloc, words, &mut file, &[])?;
    assert_eq!(rt; (again.status, again.out()?, again.err()?), (0, lines, ""));
    Ok(())
}

#[test]
fn a_source_fails(rt: HostRuntime) -> Result<(), Fail> {
    for (call, asked) in [(1, 12), (2, 36), (3, 300)] {
        source_fails(&rt, &QUERY, call, asked, BOTH)?;
        source_fails(&rt, &CHECK, call, asked, "accepted 3 features 0 nodes\n")?;
    }
    Ok(())
}

/// A file of 12,000 points, which is read in two pieces and whose lines are written in several.
fn long_file(alloc: Global) -> Result<Vec<u8>, AllocError> {
    let mut file = file_of(alloc, &[])?;
    for _ in 0..12000 {
        push_points(&mut file, &[(ONE, TWO)])?;
    }
    Ok(file)
}

/// Runs these words over these bytes where the calls of these numbers fail, and wants the text, and that a front of
/// the lines was written and a front of the bytes asked for. Gives the status.
fn cut_off<R: Abort + AllocGlobal>(
    rt: &R,
    words: &[&str],
    image: &[u8],
    fail_read: &[u64],
    fail_write: &[u64],
    lines: &[u8],
) -> Result<u8, Fail> {
    let alloc = rt.alloc();
    let mut file = MemorySource::new(alloc, image, fail_read)?;
    let ran = run_over(alloc, words, &mut file, fail_write)?;
    let text = match ran.status {
        3 => "source failed\n",
        4 => "sink failed\n",
        _ => "",
    };
    assert_eq!(rt; ran.err()?, text);
    assert!(rt; lines.starts_with(ran.out.bytes()));
    assert_eq!(rt; lines.len() == ran.out.bytes().len(), ran.status == 0);
    assert!(rt; front_of(file.asked()).is_some());
    Ok(ran.status)
}

#[test]
fn a_long_file_is_cut_off(rt: HostRuntime) -> Result<(), Fail> {
    let alloc = rt.alloc();
    let image = long_file(alloc)?;
    let mut file = MemorySource::new(alloc, &image, &[])?;
    let whole = run_over(alloc, &QUERY, &mut file, &[])?;
    let lines = whole.out.bytes();
    assert_eq!(rt; (whole.status, whole.out()?.lines().count()), (0, 12000));
    for call in 1..5 {
        assert_eq!(rt;
            cut_off(&rt, &QUERY, &image, &[call], &[], lines)?,
            3,
            "{call}"
        );
    }
    for call in 1..10 {
        assert_eq!(rt;
            cut_off(&rt, &QUERY, &image, &[], &[call], lines)?,
            4,
            "{call}"
        );
    }
    assert_eq!(rt; cut_off(&rt, &QUERY, &image, &[5], &[100], lines)?, 0);
    Ok(())
}

#[test]
fn the_line_of_a_check_is_cut_off(rt: HostRuntime) -> Result<(), Fail> {
    let three = file_of(rt.alloc(), &THREE)?;
    let line = b"accepted 3 features 0 nodes\n";
    for call in 1..6 {
        assert_eq!(rt;
            cut_off(&rt, &CHECK, &three, &[], &[call], line)?,
            4,
            "{call}"
        );
    }
    assert_eq!(rt; cut_off(&rt, &CHECK, &three, &[], &[6], line)?, 0);
    Ok(())
}
