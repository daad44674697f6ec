// Runs of the tool over bytes in memory.
use fgb_outside::{MemorySink, RangeSource};
use fgb_tool::run;
use std::alloc::{AllocError, Global};
use std::str;

/// The words of a query of the file of the three points, which finds the first two.
pub const QUERY: [&str; 3] = ["query", "three.fgb", "--box=0,0,10,10"];

/// The words of a check of it.
pub const CHECK: [&str; 2] = ["check", "three.fgb"];

/// The line of the first of the three points.
pub const FIRST: &str =
    "0 0 84 3ff0000000000000 4000000000000000 3ff0000000000000 4000000000000000\n";

/// The lines of the first two of them.
pub const BOTH: &str = "0 0 84 3ff0000000000000 4000000000000000 3ff0000000000000 4000000000000000
1 88 84 4024000000000000 4024000000000000 4024000000000000 4024000000000000
";

/// The text on the error sink where the words are no command.
pub const USAGE: &str = "usage: fgb COMMAND FILE --name=value\n";

/// What a run ended with, and wrote.
#[derive(Drop)]
pub struct Ran {
    pub status: u8,
    pub out: MemorySink,
    pub err: MemorySink,
}

impl Ran {
    /// What was written on the output, if it is UTF-8.
    pub fn out(&self) -> Result<&str, str::Utf8Error> {
        str::from_utf8(self.out.bytes())
    }

    /// What was written on the error sink, if it is UTF-8.
    pub fn err(&self) -> Result<&str, str::Utf8Error> {
        str::from_utf8(self.err.bytes())
    }
}

/// Runs these words over a source, with an output whose calls of these numbers fail.
pub fn run_over<S: RangeSource>(
    alloc: Global,
    words: &[&str],
    file: &mut S,
    fail: &[u64],
) -> Result<Ran, AllocError> {
    let mut out = MemorySink::new(alloc, fail)?;
    let mut err = MemorySink::new(alloc, &[])?;
    let status = run(alloc, words, file, &mut out, &mut err);
    Ok(Ran { status, out, err })
}

/// How many positions from 0 on were asked for, if each was asked for once and in order.
pub fn front_of(asked: &[(u64, u64)]) -> Option<u64> {
    let mut end = 0u64;
    for (at, len) in asked {
        if *at != end {
            return None;
        }
        end = end.checked_add(*len)?;
    }
    Some(end)
}
