//! The program `fgb`, which answers the command of its words over a file and ends with the answer's status.
//!
//! Here are only the process's words, the opened file or connection, the listener, the reporters and the two outputs. What
//! is answered, what is written where, and which status comes when is said by the contracts of `run` of `fgb_tool`, of
//! `report_run` of `report_command` and of `serve_run` of `serve_command`.
//!
//! ```text
//! fgb query map.fgb --box=0,0,10,10
//! fgb serve map.fgb --port=8080 --connections=1
//! fgb query http://127.0.0.1:8080/map.fgb --box=0,0,10,10
//! ```
#![tactic(auto)]

ghost use Rattle.std.specs.Prelude.{◌≤◌, ◌^◌, length};

mod opening;
mod reporting;

use byte_links::TcpAccept;
use command_words::{Command, Plan, Stop, Target, plan, status_of};
use fgb_outside::{PlainSource, RangeSource, StdSink};
use fgb_tool::run;
use opening::{connect, listen, open, read_whole};
use reporting::{is_report, report_over};
use serve_command::serve_run;
use std::alloc::{AllocError, Global};
use std::process::ExitCode;
use std::{env, io};

/// Answers the process's words. Words that are not UTF-8 are answered as no words are.
fn main(rt: HostRuntime) -> ExitCode {
    let status = match read_words(&rt) {
        Ok(words) => answer_words(&rt, &words),
        Err(error) if error.kind() == io::ErrorKind::InvalidData => answer(&rt, &[]),
        Err(_) => end(&rt, Stop::Memory),
    };
    ExitCode::from(status)
}

/// The process's words, without the program's name.
fn read_words(rt: &HostRuntime) -> io::Result<Vec<String>> {
    let words = env::args(rt)?.skip(1).collect(rt.alloc())?;
    Ok(words)
}

/// Answers these words.
fn answer_words(rt: &HostRuntime, words: &[String]) -> u8 {
    match texts(rt.alloc(), words) {
        Ok(texts) => answer(rt, &texts),
        Err(_) => end(rt, Stop::Memory),
    }
}

/// The texts of these words.
fn texts<'a>(alloc: Global, words: &'a [String]) -> Result<Vec<&'a str>, AllocError> {
    words.iter().map(|word| word.as_str()).collect(alloc)
}

/// Answers these words over what they name, or over no bytes where they name nothing.
fn answer(rt: &HostRuntime, words: &[&str]) -> u8 {
    match plan(words) {
        Some(
            Plan {
                command: Command::Serve,
                target: Target::File(name),
                port,
            },
        ) => serve(rt, words, name, port),
        Some(
            Plan {
                target: Target::File(name),
                ..
            },
        ) => answer_over(rt, words, open(rt, name)),
        Some(
            Plan {
                target: Target::Http { port, path },
                ..
            },
        ) => answer_over(rt, words, connect(rt, port, path)),
        Some(
            Plan {
                target: Target::Nothing,
                ..
            },
        )
        | None => answer_over(rt, words, Ok(PlainSource::new(&[]))),
    }
}

/// Answers these words over a source, on the process's two outputs.
fn answer_over<S: RangeSource>(rt: &HostRuntime, words: &[&str], source: Result<S, Stop>) -> u8 {
    let mut file = match source {
        Ok(file) => file,
        Err(stop) => return end(rt, stop),
    };
    if is_report(words) {
        return report_over(rt, words, &mut file);
    }
    let mut out = StdSink::new(rt.stdout());
    let mut err = StdSink::new(rt.stderr());
    run(rt.alloc(), words, &mut file, &mut out, &mut err)
}

/// Serves the file of this name at this port, as these words ask.
fn serve(rt: &HostRuntime, words: &[&str], name: &str, port: u16) -> u8 {
    match read_whole(rt, name) {
        Ok(image) => match listen(rt, port) {
            Ok(listener) => serve_over(rt, words, &image, listener),
            Err(stop) => end(rt, stop),
        },
        Err(stop) => end(rt, stop),
    }
}

/// Serves these bytes over the connections of a listener, on the process's two outputs.
fn serve_over(rt: &HostRuntime, words: &[&str], image: &[u8], mut listener: TcpAccept) -> u8
    requires { length image.now ≤ 2 ^ 48 }
{
    let mut out = StdSink::new(rt.stdout());
    let mut err = StdSink::new(rt.stderr());
    serve_run(rt.alloc(), words, image, &mut listener, &mut out, &mut err)
}

/// Writes why there is no answer, and gives the status to end with.
fn end(rt: &HostRuntime, stop: Stop) -> u8 {
    let mut err = StdSink::new(rt.stderr());
    status_of(Err(stop), &mut err)
}
