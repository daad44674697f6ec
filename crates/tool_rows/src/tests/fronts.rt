// Each front of a file, and a wrong count.
use super::*;
use std::alloc::{AllocError, Global};
use std::process::Abort;
use std::test::Fail;

/// The refusal of the first `len` bytes of the file of the three points, if they are refused.
fn refusal_of(alloc: Global, len: usize) -> Result<Option<String>, AllocError> {
    if len < 12 {
        return Ok(Some(format!(in alloc; "refused: Short at {len}\n")?));
    }
    if len < 36 {
        return Ok(Some(format!(in alloc; "refused: HeaderSize at 8\n")?));
    }
    let over = (len - 36) % 88;
    if over == 0 {
        return Ok(None);
    }
    let place = len - over;
    Ok(Some(format!(in alloc; "refused: FeaturePastEnd at {place}\n")?))
}

/// Queries a front of the file of the three points.
fn check_front<R: Abort + AllocGlobal>(rt: &R, image: &[u8]) -> Result<(), Fail> {
    let lines = match image.len() {
        0..124 => "",
        124..212 => FIRST,
        _ => BOTH,
    };
    match refusal_of(rt.alloc(), image.len())? {
        Some(refusal) => {
            refuses(rt, &QUERY, image, lines, &refusal)?;
            Ok(())
        }
        None => answers(rt, &QUERY, image, lines),
    }
}

#[test]
fn each_front_of_a_file_is_answered(rt: HostRuntime) -> Result<(), Fail> {
    let three = file_of(rt.alloc(), &THREE)?;
    for len in 0..=three.len() {
        check_front(&rt, &three[..len])?;
    }
    Ok(())
}

#[test]
fn a_wrong_count_is_refused(rt: HostRuntime) -> Result<(), Fail> {
    let file = counted_file(rt.alloc(), &[(ONE, TWO), (TEN, TEN), (ONE, TWO)])?;
    let third = "2 176 84 3ff0000000000000 4000000000000000 3ff0000000000000 4000000000000000\n";
    let lines = format!(in rt.alloc(); "{BOTH}{third}")?;
    refuses(&rt, &QUERY, &file, &lines, "refused: FeatureCount at 236\n")?;
    Ok(())
}
