// What checks answer.
use super::*;
use std::test::Fail;

#[test]
fn a_file_is_checked(rt: HostRuntime) -> Result<(), Fail> {
    answers(&rt, &CHECK, &EMPTY, "accepted 0 features 0 nodes\n")?;
    let two = counted_file(rt.alloc(), &[(ONE, TWO), (TEN, TEN)])?;
    answers(&rt, &CHECK, &two, "accepted 2 features 0 nodes\n")
}

#[test]
fn a_broken_file_is_not_accepted(rt: HostRuntime) -> Result<(), Fail> {
    let alloc = rt.alloc();
    refuses(&rt, &CHECK, &EMPTY[..5], "", "refused: Short at 5\n")?;
    let magic = changed(alloc, &[(3, 2)])?;
    refuses(&rt, &CHECK, &magic, "", "refused: Magic at 3\n")?;
    let one = counted_file(alloc, &[(ONE, TWO)])?;
    refuses(&rt, &CHECK, &one, "", "refused: FeatureCount at 148\n")?;
    let three = counted_file(alloc, &THREE)?;
    refuses(&rt, &CHECK, &three, "", "refused: FeatureCount at 236\n")?;
    Ok(())
}
