use super::*;

#[test]
fn names_and_numbers(rt: HostRuntime) {
    let rows = [
        (Rule::Indexed, "Indexed", 0),
        (Rule::Offset, "Offset", 5),
        (Rule::Vtable, "Vtable", 6),
        (Rule::Field, "Field", 7),
        (Rule::Vector, "Vector", 8),
        (Rule::FeatureCount, "FeatureCount", 27),
        (Rule::NoWkb, "NoWkb", 44),
        (Rule::WhereColumn, "WhereColumn", 45),
        (Rule::TableWkb, "TableWkb", 53),
    ];
    for (rule, name, number) in rows {
        assert_eq!(rt; rule.name(), name);
        assert_eq!(rt; rule.number(), number);
    }
}

#[test]
fn broken_is_compared_by_place_and_rule(rt: HostRuntime) {
    let broken = Broken {
        place: 12,
        rule: Rule::Offset,
    };
    let copy = broken;
    assert_eq!(rt; copy, broken);
    assert_ne!(rt;
        broken,
        Broken {
            place: 13,
            rule: Rule::Offset
        }
    );
    assert_ne!(rt;
        broken,
        Broken {
            place: 12,
            rule: Rule::Vtable
        }
    );
}
