ghost use Rattle.std.specs.Prelude.{◌≡◌, ◌≤◌, length};
ghost use Rattle.std.specs.Option.{option_map};
ghost use Rattle.fgb_header.specs.Views.{header_shown};
ghost use Rattle.found_features.specs.Visits.{TellsOnly};
ghost use Rattle.fgb_where.specs.Filtering.{Under};

use super::*;
use fgb_feature::FeatureView;
use fgb_header::HeaderView;
use flat_views::{Broken, Rule};
use found_features::{Collect, Found, VisitError, Visitor};
use order_keys::{Bounds, Coord};
use std::alloc::Global;
use std::test::Fail;

#[test]
fn texts_of_conditions(rt: HostRuntime) -> Result<(), Fail> {
    let condition = Condition {
        name: "pop",
        op: Op::Ge,
        value: "a:b",
    };
    assert_eq!(rt; read_condition("pop:ge:a:b"), Some(condition));
    let empty = Condition {
        name: "a b",
        op: Op::Ne,
        value: "",
    };
    assert_eq!(rt; read_condition("a b:ne:"), Some(empty));
    assert_eq!(rt; read_condition("pop:ge"), None);
    assert_eq!(rt; read_condition(":ge:1"), None);
    assert_eq!(rt; read_condition("pop:GE:1"), None);
    assert_eq!(rt; read_condition("pop::1"), None);
    assert_eq!(rt; read_condition(""), None);
    Ok(())
}

/// A header with the columns `t`, of type String, `n`, of type Int, and `d`, of type Double.
const HEADER: [u8; 116] = [
    // the root, the vtable of the header, whose last entry is that of the columns, and the header
    24, 0, 0, 0, 20, 0, 8, 0, 0, 0, 0, 0, 0, 0, 0, 0, 0, 0, 0, 0, 0, 0, 4, 0, 20, 0, 0, 0, 4, 0, 0,
    0,
    // three columns, and the vtable of each: a name and a type
    3, 0, 0, 0, 20, 0, 0, 0, 28, 0, 0, 0, 36, 0, 0, 0, 8, 0, 9, 0, 4, 0, 8, 0,
    // the columns
    8, 0, 0, 0, 32, 0, 0, 0, 11, 0, 0, 0, 20, 0, 0, 0, 28, 0, 0, 0, 5, 0, 0, 0, 32, 0, 0, 0, 24, 0,
    0, 0, 10, 0, 0, 0,
    // their names
    1, 0, 0, 0, 116, 0, 0, 0, 1, 0, 0, 0, 110, 0, 0, 0, 1, 0, 0, 0, 100, 0, 0, 0,
];

/// A feature whose values are Malta, 519 and 1.5.
const MALTA: [u8; 59] = [
    16, 0, 0, 0, 8, 0, 8, 0, 0, 0, 4, 0, 0, 0, 0, 0, 12, 0, 0, 0, 8, 0, 0, 0, 0, 0, 0, 0,
    // the values
    27, 0, 0, 0, 0, 0, 5, 0, 0, 0, 77, 97, 108, 116, 97, 1, 0, 7, 2, 0, 0, 2, 0, 0, 0, 0, 0, 0, 0,
    248, 63,
];

/// A feature without anything.
const BARE: [u8; 12] = [8, 0, 0, 0, 4, 0, 4, 0, 4, 0, 0, 0];

/// Whether a condition holds for a feature.
fn holds(text: &str, feature: &[u8]) -> Result<bool, Fail>
    requires { length feature.now ≤ 59 }
{
    let header = HeaderView::read(&HEADER, 12)?;
    let Some(condition) = read_condition(text) else {
        return Err(Fail::new("no condition"));
    };
    let bound = condition.bind(&header)?;
    let feature = FeatureView::read(feature, 40, &header)?;
    Ok(bound.holds(&feature))
}

#[test]
fn whole_numbers(rt: HostRuntime) -> Result<(), Fail> {
    assert!(rt; holds("n:eq:519", &MALTA)?);
    assert!(rt; !holds("n:eq:-519", &MALTA)?);
    assert!(rt; holds("n:ge:0519", &MALTA)?);
    assert!(rt; !holds("n:gt:519", &MALTA)?);
    assert!(rt; !holds("n:lt:519", &MALTA)?);
    assert!(rt; holds("n:lt:99999999999999999999", &MALTA)?);
    assert!(rt; holds("n:gt:-99999999999999999999", &MALTA)?);
    Ok(())
}

#[test]
fn doubles_and_texts(rt: HostRuntime) -> Result<(), Fail> {
    assert!(rt; holds("d:eq:3/2", &MALTA)?);
    assert!(rt; holds("d:le:x3ff8000000000000", &MALTA)?);
    assert!(rt; !holds("d:lt:-2", &MALTA)?);
    assert!(rt; !holds("t:ne:Malta", &MALTA)?);
    assert!(rt; holds("t:lt:Malte", &MALTA)?);
    assert!(rt; holds("t:gt:Malt", &MALTA)?);
    Ok(())
}

#[test]
fn a_missing_value(rt: HostRuntime) -> Result<(), Fail> {
    assert!(rt; !holds("n:ne:5", &BARE)?);
    assert!(rt; !holds("n:eq:5", &BARE)?);
    Ok(())
}

/// The refusal of a condition, where the first column has this type.
fn refusal(text: &str, kind: u8) -> Result<Option<Broken>, Fail> {
    let mut bytes = HEADER;
    bytes[64] = kind;
    let header = HeaderView::read(&bytes, 12)?;
    let Some(condition) = read_condition(text) else {
        return Err(Fail::new("no condition"));
    };
    Ok(condition.bind(&header).err())
}

#[test]
fn refusals(rt: HostRuntime) -> Result<(), Fail> {
    let column = Broken {
        place: 12 + 24,
        rule: Rule::WhereColumn,
    };
    assert_eq!(rt; refusal("N:eq:1", 11)?, Some(column));
    let kind = Broken {
        place: 12 + 56,
        rule: Rule::WhereType,
    };
    assert_eq!(rt; refusal("t:eq:1", 9)?, Some(kind));
    let value = Broken {
        place: 12 + 68,
        rule: Rule::WhereValue,
    };
    assert_eq!(rt; refusal("n:eq:100000000000000000000", 11)?, Some(value));
    assert_eq!(rt; refusal("n:eq:+1", 11)?, Some(value));
    assert_eq!(rt; refusal("n:eq:10000000000000000000", 11)?, None);
    Ok(())
}

/// A header of type Point, with the column `id` of type ULong and without an index.
const POINTS: [u8; 84] = [
    // the root, the vtable of the header, and the header
    32, 0, 0, 0, 24, 0, 11, 0, 0, 0, 0, 0, 10, 0, 0, 0, 0, 0, 0, 0, 0, 0, 4, 0, 0, 0, 8, 0, 0, 0,
    0, 0, 28, 0, 0, 0, 8, 0, 0, 0, 0, 0, 1, 0,
    // its column, and that one's name
    1, 0, 0, 0, 16, 0, 0, 0, 8, 0, 9, 0, 4, 0, 8, 0, 0, 0, 0, 0, 12, 0, 0, 0, 8, 0, 0, 0, 8, 0, 0,
    0, 2, 0, 0, 0, 105, 100, 0, 0,
];

/// The place of a feature's own number in its buffer.
const ID: usize = 90;

/// A feature of number 3.
const POINT: [u8; 100] = [
    16, 0, 0, 0, 8, 0, 12, 0, 4, 0, 8, 0, 0, 0, 0, 0, 12, 0, 0, 0, 28, 0, 0, 0, 60, 0, 0, 0, 18, 0,
    9, 0, 0, 0, 4, 0, 0, 0, 0, 0, 0, 0, 0, 0, 8, 0, 0, 0, 20, 0, 0, 0, 12, 0, 0, 0, 1, 0, 0, 0, 0,
    0, 0, 0, 2, 0, 0, 0,
    // its point, and its number
    0, 0, 0, 0, 0, 64, 81, 192, 0, 0, 0, 0, 0, 64, 81, 64, 10, 0, 0, 0, 0, 0, 3, 0, 0, 0, 0, 0, 0,
    0, 0, 0,
];

/// Hands over the feature of this number.
fn hand(
    header: &HeaderView,
    visitor: &mut WhereVisitor<'_, Collect>,
    number: u8,
) -> Result<(), Fail>
    requires { TellsOnly (header_shown header.now) (option_map (λ (under : Under). under.header) visitor.old.kept) }
    ensures { option_map (λ (under : Under). under.header) visitor.new.kept ≡ option_map (λ (under : Under). under.header) visitor.old.kept }
{
    let mut bytes = POINT;
    bytes[ID] = number;
    let bounds = FeatureView::read(&bytes, 0, header)?.bounds();
    visitor.take(&Found {
        number: u64::from(number),
        offset: 104 * u64::from(number),
        bytes: &bytes,
        bounds,
    })?;
    Ok(())
}

#[test]
fn features_for_which_it_holds(rt: HostRuntime) -> Result<(), Fail> {
    let alloc = rt.alloc();
    let header = HeaderView::read(&POINTS, 12)?;
    let Some(condition) = read_condition("id:ge:3") else {
        return Err(Fail::new("no condition"));
    };
    let mut visitor = WhereVisitor::new(alloc, condition, Collect::new(alloc));
    visitor.begin(&header)?;
    hand(&header, &mut visitor, 2)?;
    hand(&header, &mut visitor, 3)?;
    assert_eq!(rt; visitor.refused(), None);
    let collect = visitor.into_inner();
    assert_eq!(rt; collect.len(), 1);
    let (number, offset, bytes, bounds) = collect.item(0);
    assert_eq!(rt; (number, offset, bytes.len()), (3, 312, 100));
    assert_eq!(rt;
        bounds,
        Bounds::of_point(Coord(0xc051_4000_0000_0000), Coord(0x4051_4000_0000_0000))
    );
    Ok(())
}

/// What the visitor begins with under a condition, and its refusal.
fn begun(alloc: Global, text: &str) -> Result<(Result<(), VisitError>, Option<Broken>), Fail> {
    let header = HeaderView::read(&POINTS, 12)?;
    let Some(condition) = read_condition(text) else {
        return Err(Fail::new("no condition"));
    };
    let mut visitor = WhereVisitor::new(alloc, condition, Collect::new(alloc));
    let begun = visitor.begin(&header);
    Ok((begun, visitor.refused()))
}

#[test]
fn refused_conditions(rt: HostRuntime) -> Result<(), Fail> {
    let alloc = rt.alloc();
    let column = Broken {
        place: 44,
        rule: Rule::WhereColumn,
    };
    assert_eq!(rt;
        begun(alloc, "pop:eq:1")?,
        (Err(VisitError::Stopped), Some(column))
    );
    let value = Broken {
        place: 76,
        rule: Rule::WhereValue,
    };
    assert_eq!(rt;
        begun(alloc, "id:eq:x")?,
        (Err(VisitError::Stopped), Some(value))
    );
    Ok(())
}
