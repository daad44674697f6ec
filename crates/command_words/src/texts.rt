// The texts on the error sink.
ghost use Rattle.command_words.specs.Texts.{Writing, refusal_text};

use fgb_outside::{Sink, SinkError};
use flat_layout::Broken;
use itoa::Buffer;

pub(crate) const USAGE: &str = "usage: fgb COMMAND FILE --name=value\n";

pub(crate) const SOURCE_FAILED: &str = "source failed\n";

pub(crate) const SINK_FAILED: &str = "sink failed\n";

pub(crate) const OUT_OF_MEMORY: &str = "out of memory\n";

pub(crate) const TOO_LARGE: &str = "too large\n";

/// Writes `refused: NAME at PLACE` and a line feed, piece by piece, so that it takes no memory.
pub(crate) fn write_refusal<E: Sink>(err: &mut E, broken: Broken) -> Result<(), SinkError>
    ensures { Writing (E.shown err.old) (E.shown err.new) (refusal_text broken) result }
{
    err.write(b"refused: ")?;
    err.write(broken.rule.name().as_bytes())?;
    err.write(b" at ")?;
    let mut buffer = Buffer::new();
    err.write(buffer.format(broken.place).as_bytes())?;
    err.write(b"\n")?;
    Ok(())
}
