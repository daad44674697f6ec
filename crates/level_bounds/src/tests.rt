use super::*;
use std::test::Fail;

fn levels(features: u64, node_size: u16) -> Result<Levels, Fail> {
    match Levels::new(features, node_size) {
        Some(levels) => Ok(levels),
        None => Err(Fail::new("no levels")),
    }
}

#[test]
fn one_feature_has_two_levels(rt: HostRuntime) -> Result<(), Fail> {
    let one = levels(1, 16)?;
    assert_eq!(rt; one.count(), 2);
    assert_eq!(rt; one.nodes(), 2);
    assert_eq!(rt; one.level(0), (1, 2));
    assert_eq!(rt; one.level(1), (0, 1));
    assert_eq!(rt; one.group(0), (1, 2));
    assert_eq!(rt; levels(16, 16)?.nodes(), 17);
    Ok(())
}

#[test]
fn some_have_none(rt: HostRuntime) {
    assert!(rt; Levels::new(0, 16).is_none());
    assert!(rt; Levels::new(5, 1).is_none());
    assert!(rt; Levels::new(u64::MAX, 65535).is_none());
}

#[test]
fn two_levels_of_inner_nodes(rt: HostRuntime) -> Result<(), Fail> {
    let levels = levels(17, 16)?;
    assert_eq!(rt; levels.nodes(), 20);
    assert_eq!(rt; levels.count(), 3);
    assert_eq!(rt; levels.level(0), (3, 20));
    assert_eq!(rt; levels.group(1), (3, 19));
    assert_eq!(rt; levels.group(2), (19, 20));
    assert_eq!(rt; levels.position(19), (0, 16));
    assert_eq!(rt; levels.parent(19), Some(2));
    assert_eq!(rt; levels.parent(0), None);
    assert_eq!(rt; levels.first_child(2), Some(19));
    assert_eq!(rt; levels.first_child(3), None);
    Ok(())
}
