use super::*;
use fgb_outside::MemorySink;
use fgb_where::{Condition, Op};
use flat_layout::{Broken, Rule};
use std::test::Fail;

#[test]
fn a_served_file_is_planned(rt: HostRuntime) {
    let words = ["report", "http://127.0.0.1:8080/map.fgb", "--box=0,0,10,10"];
    let reported = Plan {
        command: Command::Report,
        target: Target::Http {
            port: 8080,
            path: "/map.fgb",
        },
        port: 0,
    };
    assert_eq!(rt; plan(&words), Some(reported));
    for word in [
        "http://127.0.0.1:0/map.fgb",
        "http://127.0.0.1:65536/map.fgb",
        "http://127.0.0.1/map.fgb",
        "http://127.0.0.1:80",
        "http://127.0.0.1:80/a b",
        "http://localhost:80/map.fgb",
    ] {
        assert_eq!(rt; plan(&["check", word]), None);
    }
}

#[test]
fn several_boxes_and_a_gap_are_asked_for(rt: HostRuntime) {
    let boxes = "--box=1,2,1,2+11,5,11,5";
    match read_words(&["query", "map.fgb", boxes, "--gap=1048576"]) {
        Some(Asked::Query(query)) => {
            assert_eq!(rt; (query.boxes.len(), query.gap), (2, 1_048_576));
        }
        _ => assert!(rt; false),
    }
    match read_words(&["report", "map.fgb", "--box=1,2,1,2"]) {
        Some(Asked::Report(report)) => {
            assert_eq!(rt; (report.boxes.len(), report.gap), (1, 0));
        }
        _ => assert!(rt; false),
    }
    let nine = "--box=0,0,1,1+0,0,1,1+0,0,1,1+0,0,1,1+0,0,1,1+0,0,1,1+0,0,1,1+0,0,1,1+0,0,1,1";
    assert_eq!(rt; plan(&["query", "map.fgb", nine]), None);
    let wide = ["query", "map.fgb", boxes, "--gap=1048577"];
    assert_eq!(rt; plan(&wide), None);
    let twice = ["report", "map.fgb", boxes, "--gap=1", "--gap=1"];
    assert_eq!(rt; plan(&twice), None);
}

#[test]
fn a_condition_is_asked_for(rt: HostRuntime) {
    let anywhere = "--box=-180,-90,180,90";
    match read_words(&["query", "m.fgb", anywhere, "--where=id:ge:3"]) {
        Some(Asked::Query(query)) => {
            let condition = Condition {
                name: "id",
                op: Op::Ge,
                value: "3",
            };
            assert_eq!(rt; query.condition, Some(condition));
        }
        _ => assert!(rt; false),
    }
    match read_words(&["query", "m.fgb", anywhere]) {
        Some(Asked::Query(query)) => assert_eq!(rt; query.condition, None),
        _ => assert!(rt; false),
    }
    for word in [
        "--where=id:3",
        "--where=:ge:3",
        "--where=id:gt3:",
        "--where=",
    ] {
        assert_eq!(rt; plan(&["query", "m.fgb", anywhere, word]), None);
    }
    let twice = [
        "query",
        "m.fgb",
        anywhere,
        "--where=id:ge:3",
        "--where=id:ge:3",
    ];
    assert_eq!(rt; plan(&twice), None);
    let reported = ["report", "m.fgb", anywhere, "--where=id:ge:3"];
    assert_eq!(rt; plan(&reported), None);
}

#[test]
fn a_conversion_is_planned(rt: HostRuntime) {
    let words = ["convert", "--to=wkb", "map.fgb", "--from=fgb"];
    let converting = Converting {
        file: FileWord::Name("map.fgb"),
        from: Format::Fgb,
        to: Format::Wkb,
    };
    match read_words(&words) {
        Some(Asked::Convert(read)) => assert_eq!(rt; read, converting),
        _ => assert!(rt; false),
    }
    let converted = Plan {
        command: Command::Convert,
        target: Target::File("map.fgb"),
        port: 0,
    };
    assert_eq!(rt; plan(&words), Some(converted));
}

#[test]
fn a_conversion_has_two_forms(rt: HostRuntime) {
    assert_eq!(rt; plan(&["convert", "map.fgb", "--from=fgb"]), None);
    let unknown = ["convert", "map.fgb", "--from=fgb", "--to=kml"];
    assert_eq!(rt; plan(&unknown), None);
    let twice = ["convert", "map.fgb", "--from=fgb", "--to=wkb", "--to=wkb"];
    assert_eq!(rt; plan(&twice), None);
}

#[test]
fn a_making_is_planned(rt: HostRuntime) {
    let words = ["make", "--start=32670", "--count=1"];
    let making = Making {
        count: 1,
        start: 32_670,
    };
    match read_words(&words) {
        Some(Asked::Make(read)) => assert_eq!(rt; read, making),
        _ => assert!(rt; false),
    }
    let made = Plan {
        command: Command::Make,
        target: Target::Nothing,
        port: 0,
    };
    assert_eq!(rt; plan(&words), Some(made));
}

#[test]
fn a_making_has_two_numbers_and_no_file(rt: HostRuntime) {
    let largest = ["make", "--count=1000000", "--start=1000000000"];
    assert!(rt; plan(&largest).is_some());
    let many = ["make", "--count=1000001", "--start=0"];
    assert_eq!(rt; plan(&many), None);
    let far = ["make", "--count=1", "--start=1000000001"];
    assert_eq!(rt; plan(&far), None);
    assert_eq!(rt; plan(&["make", "--count=1"]), None);
    let named = ["make", "map.fgb", "--count=1", "--start=0"];
    assert_eq!(rt; plan(&named), None);
}

#[test]
fn a_serving_is_planned(rt: HostRuntime) {
    let words = ["serve", "--connections=1", "map.fgb", "--port=8080"];
    let served = Plan {
        command: Command::Serve,
        target: Target::File("map.fgb"),
        port: 8080,
    };
    assert_eq!(rt; plan(&words), Some(served));
    let serving = Serving {
        file: "map.fgb",
        port: 8080,
        connections: 1,
    };
    match read_words(&words) {
        Some(Asked::Serve(read)) => assert_eq!(rt; read, serving),
        _ => assert!(rt; false),
    }
    let host = [
        "serve",
        "--connections=1",
        "http://127.0.0.1:80/map.fgb",
        "--port=8080",
    ];
    assert_eq!(rt; plan(&host), None);
}

#[test]
fn why_work_stops_is_written(rt: HostRuntime) -> Result<(), Fail> {
    let mut err = MemorySink::new(rt.alloc(), &[])?;
    assert_eq!(rt; refuse_words(&mut err), 2);
    let broken = Broken {
        place: 12,
        rule: Rule::Offset,
    };
    assert_eq!(rt; status_of(Err(Stop::Refused(broken)), &mut err), 1);
    let told = "usage: fgb COMMAND FILE --name=value\nrefused: Offset at 12\n";
    assert_eq!(rt; err.bytes(), told.as_bytes());
    Ok(())
}
