use super::*;

mod checks;
mod conditions;
mod conversions;
mod faults;
mod fronts;
mod makings;
mod outputs;
mod queries;
mod refusals;
mod words;

use fgb_outside::MemorySource;
use std::process::Abort;
use std::test::Fail;

/// Runs these words over these bytes, and wants these lines, and all of the bytes asked for once.
fn answers<R: Abort + AllocGlobal>(
    rt: &R,
    words: &[&str],
    image: &[u8],
    lines: &str,
) -> Result<(), Fail> {
    let alloc = rt.alloc();
    let mut file = MemorySource::new(alloc, image, &[])?;
    let ran = run_over(alloc, words, &mut file, &[])?;
    assert_eq!(rt; (ran.status, ran.out()?, ran.err()?), (0, lines, ""));
    assert_eq!(rt; front_of(file.asked()), Some(image.len() as u64));
    Ok(())
}

/// Runs these words over these bytes, and wants this refusal, with these lines before it. Gives how many positions
/// were asked for.
fn refuses<R: Abort + AllocGlobal>(
    rt: &R,
    words: &[&str],
    image: &[u8],
    lines: &str,
    refusal: &str,
) -> Result<u64, Fail> {
    let alloc = rt.alloc();
    let mut file = MemorySource::new(alloc, image, &[])?;
    let ran = run_over(alloc, words, &mut file, &[])?;
    assert_eq!(rt; (ran.status, ran.out()?, ran.err()?), (1, lines, refusal));
    let Some(asked) = front_of(file.asked()) else {
        panic!(rt; "{refusal}");
    };
    Ok(asked)
}
