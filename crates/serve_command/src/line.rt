// The line of connections that were served.
ghost use Rattle.std.specs.Prelude.{◌++◌, decimal};
ghost use Rattle.fgb_outside.specs.Sink.{Writes};
ghost use Rattle.serve_command.specs.Texts.{served_text};

use fgb_outside::{Sink, SinkError};
use itoa::Buffer;
use range_server::Receipt;

/// Writes `served N requests R sent S` and a line feed, piece by piece, so that it takes no memory.
pub(crate) fn write_served<W: Sink>(
    out: &mut W,
    connections: u64,
    receipt: Receipt,
) -> Result<(), SinkError>
    ensures { Writes (W.shown out.old) (W.shown out.new) (served_text connections receipt) result }
{
    write_number(out, b"served ", connections)?;
    write_number(out, b" requests ", receipt.requests)?;
    write_number(out, b" sent ", receipt.sent)?;
    out.write(b"\n")
}

/// Writes a word and a number.
fn write_number<W: Sink>(out: &mut W, word: &[u8], number: u64) -> Result<(), SinkError>
    ensures { Writes (W.shown out.old) (W.shown out.new) (word.now ++ decimal number) result }
{
    out.write(word)?;
    let mut buffer = Buffer::new();
    out.write(buffer.format(number).as_bytes())
}
