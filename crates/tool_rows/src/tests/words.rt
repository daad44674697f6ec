// Which words ask for something.
use super::*;
use fgb_outside::MemorySource;
use fgb_tool::{Command, Plan, Target, plan};
use std::process::Abort;
use std::test::Fail;

/// Runs these words, and wants that they are refused as usage, with nothing asked for.
fn is_usage<R: Abort + AllocGlobal>(rt: &R, words: &[&str]) -> Result<(), Fail> {
    let alloc = rt.alloc();
    let mut file = MemorySource::new(alloc, &EMPTY, &[])?;
    let ran = run_over(alloc, words, &mut file, &[])?;
    assert_eq!(rt;
        (ran.status, ran.out()?, ran.err()?),
        (2, "", USAGE),
        "{words:?}"
    );
    assert!(rt; file.asked().is_empty(), "{words:?}");
    assert!(rt; plan(words).is_none(), "{words:?}");
    Ok(())
}

#[test]
fn other_words_are_refused(rt: HostRuntime) -> Result<(), Fail> {
    is_usage(&rt, &[])?;
    is_usage(&rt, &["query"])?;
    is_usage(&rt, &["query", "three.fgb"])?;
    for text in ["1,0,0,0", "", "0,0,10", "0,0,10,1/3", "0,0,10,10,10"] {
        let word = format!(in rt.alloc(); "--box={text}")?;
        is_usage(&rt, &["query", "three.fgb", &word])?;
    }
    let area = "--box=0,0,10,10";
    is_usage(&rt, &["query", "three.fgb", area, area])?;
    is_usage(&rt, &["query", "three.fgb", area, "--out=kml"])?;
    is_usage(&rt, &["query", "three.fgb", area, "--out="])?;
    is_usage(&rt, &["query", "three.fgb", area, "--out=wkb", "--out=wkb"])?;
    is_usage(&rt, &["query", "three.fgb", "--out=wkb"])?;
    is_usage(&rt, &["check", "three.fgb", "--out=lines"])?;
    for word in ["", "-three.fgb", "http://127.0.0.1:0/three.fgb", area] {
        is_usage(&rt, &["query", word, area])?;
    }
    is_usage(&rt, &["query", "three.fgb", "three.fgb"])?;
    is_usage(&rt, &["Query", "three.fgb", area])?;
    is_usage(&rt, &["check"])?;
    is_usage(&rt, &["check", "three.fgb", "three.fgb"])?;
    is_usage(&rt, &["check", "three.fgb", "--box=0,0,1,1"])?;
    is_usage(&rt, &["check", "-three.fgb"])?;
    is_usage(&rt, &["pack", "three.fgb"])?;
    for node in ["", "1", "65536", "00000000016", "+16", "16,"] {
        let word = format!(in rt.alloc(); "--node={node}")?;
        is_usage(&rt, &["pack", "three.fgb", &word])?;
    }
    is_usage(&rt, &["pack", "--node=16", "--node=16"])
}

#[test]
fn a_conversion_has_two_forms(rt: HostRuntime) -> Result<(), Fail> {
    is_usage(&rt, &["convert", "three.fgb", "--to=wkb"])?;
    is_usage(&rt, &["convert", "three.fgb", "--from=fgb", "--to=kml"])
}

#[test]
fn a_making_has_two_numbers_and_no_file(rt: HostRuntime) -> Result<(), Fail> {
    is_usage(&rt, &["make", "--count=1"])?;
    is_usage(&rt, &["make", "--start=0"])?;
    is_usage(&rt, &["make", "three.fgb", "--count=1", "--start=0"])?;
    is_usage(&rt, &["make", "--count=1", "--count=1", "--start=0"])?;
    is_usage(&rt, &["make", "--count=1000001", "--start=0"])?;
    is_usage(&rt, &["make", "--count=1", "--start=1000000001"])?;
    is_usage(&rt, &["make", "--count=-1", "--start=0"])
}

#[test]
fn other_calls_are_refused(rt: HostRuntime) -> Result<(), Fail> {
    let alloc = rt.alloc();
    let mut file = MemorySource::new(alloc, &EMPTY, &[])?;
    let words = ["report", "three.fgb", "--box=0,0,10,10"];
    let ran = run_over(alloc, &words, &mut file, &[])?;
    assert_eq!(rt; (ran.status, ran.out()?, ran.err()?), (2, "", USAGE));
    assert!(rt; file.asked().is_empty());
    assert_eq!(rt; plan(&words), planned(Command::Report));
    Ok(())
}

/// What words ask for that do this with the file of the three points.
fn planned(command: Command) -> Option<Plan<'static>> {
    Some(Plan {
        command,
        target: Target::File("three.fgb"),
        port: 0,
    })
}

#[test]
fn commands_are_planned(rt: HostRuntime) {
    let turned = ["query", "--box=0,0,10,10", "three.fgb"];
    assert_eq!(rt; plan(&QUERY), planned(Command::Query));
    assert_eq!(rt; plan(&turned), planned(Command::Query));
    let chosen = ["query", "--out=wkb", "--box=0,0,10,10", "three.fgb"];
    assert_eq!(rt; plan(&chosen), planned(Command::Query));
    assert_eq!(rt; plan(&CHECK), planned(Command::Check));
    let packed = ["pack", "--node=16", "three.fgb"];
    assert_eq!(rt; plan(&packed), planned(Command::Pack));
    let converted = ["convert", "--to=wkb", "--from=fgb", "three.fgb"];
    assert_eq!(rt; plan(&converted), planned(Command::Convert));
    let made = Plan {
        command: Command::Make,
        target: Target::Nothing,
        port: 0,
    };
    let largest = ["make", "--count=1000000", "--start=1000000000"];
    assert_eq!(rt; plan(&largest), Some(made));
}
