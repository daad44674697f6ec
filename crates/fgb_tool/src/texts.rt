// The line of a check.
ghost use Rattle.std.specs.Prelude.{codes, IsErrOf};
ghost use Rattle.fgb_outside.specs.Source.{Rose};
ghost use Rattle.command_words.specs.Texts.{Writing};
ghost use Rattle.fgb_tool.specs.Texts.{accepted_text};

use fgb_outside::{Sink, SinkError};
use itoa::Buffer;

/// Writes `accepted N features M nodes` and a line feed, piece by piece, so that it takes no memory.
pub(crate) fn write_accepted<W: Sink>(
    out: &mut W,
    features: u64,
    nodes: u64,
) -> Result<(), SinkError>
    ensures writing { Writing (W.shown out.old) (W.shown out.new) (accepted_text features nodes) result }
    ensures failed { IsErrOf result SinkError.Failed → Rose (W.shown out.old).faults (W.shown out.new).faults }
{
    let mut buffer = Buffer::new();
    out.write(b"accepted ")?;
    out.write(buffer.format(features).as_bytes())?;
    out.write(b" features ")?;
    out.write(buffer.format(nodes).as_bytes())?;
    out.write(b" nodes\n")?;
    Ok(())
}
