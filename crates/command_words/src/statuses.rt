// The statuses that a command ends with.
ghost use Rattle.std.specs.Prelude.{◌≡◌};
ghost use Rattle.command_words.specs.Statuses.{IsStatus};
ghost use Rattle.command_words.specs.Texts.{Tells, usage_text};

use crate::stop::Stop;
use crate::texts::{OUT_OF_MEMORY, SINK_FAILED, SOURCE_FAILED, TOO_LARGE, USAGE, write_refusal};
use fgb_outside::Sink;

/// The work came to its end.
pub const DONE: u8 = 0;

/// The file breaks a rule.
pub const REFUSED: u8 = 1;

/// The words ask for nothing that the call does.
pub const WRONG_WORDS: u8 = 2;

/// The source failed, or the listener.
pub const SOURCE: u8 = 3;

/// The output failed.
pub const SINK: u8 = 4;

/// There was no memory.
pub const MEMORY: u8 = 5;

/// What was to be written would be larger than the format lets it be.
pub const LARGE: u8 = 6;

/// Writes the usage, and gives the status of wrong words.
pub fn refuse_words<E: Sink>(err: &mut E) -> u8
    ensures status { result ≡ 2 }
    ensures tells { Tells (E.shown err.old) (E.shown err.new) usage_text }
{
    let _ = err.write(USAGE.as_bytes());
    WRONG_WORDS
}

/// Writes why the work did not come to its end, and gives its status.
pub fn status_of<E: Sink>(done: Result<(), Stop>, err: &mut E) -> u8
    ensures { IsStatus done (E.shown err.old) (E.shown err.new) result }
{
    match done {
        Ok(()) => DONE,
        Err(Stop::Refused(broken)) => {
            let _ = write_refusal(err, broken);
            REFUSED
        }
        Err(Stop::SourceFailed) => {
            let _ = err.write(SOURCE_FAILED.as_bytes());
            SOURCE
        }
        Err(Stop::SinkFailed) => {
            let _ = err.write(SINK_FAILED.as_bytes());
            SINK
        }
        Err(Stop::Memory) => {
            let _ = err.write(OUT_OF_MEMORY.as_bytes());
            MEMORY
        }
        Err(Stop::TooLarge) => {
            let _ = err.write(TOO_LARGE.as_bytes());
            LARGE
        }
    }
}
