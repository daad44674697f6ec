// The line of a file that was made and queried.
ghost use Rattle.std.specs.Prelude.{◌≡◌, ◌++◌, decimal, OnOk};
ghost use Rattle.make_command.specs.Made.{summary_line};

use itoa::Buffer;
use std::alloc::AllocError;

/// What the line tells.
#[derive(Clone, Copy)]
pub(crate) struct Summary {
    pub(crate) features: u64,
    pub(crate) nodes: u64,
    pub(crate) bytes: u64,
    pub(crate) found: u64,
    pub(crate) asked: u64,
}

/// Appends `features N nodes M bytes B found F asked A` and a line feed.
pub(crate) fn push_summary(text: &mut Vec<u8>, summary: Summary) -> Result<(), AllocError>
    ensures { OnOk result (text.new.items ≡ text.old.items ++ summary_line summary.features summary.nodes summary.bytes summary.found summary.asked) }
{
    push_number(text, b"features ", summary.features)?;
    push_number(text, b" nodes ", summary.nodes)?;
    push_number(text, b" bytes ", summary.bytes)?;
    push_number(text, b" found ", summary.found)?;
    push_number(text, b" asked ", summary.asked)?;
    text.push(b'\n')?;
    Ok(())
}

/// Appends a word and a number.
fn push_number(text: &mut Vec<u8>, word: &[u8], number: u64) -> Result<(), AllocError>
    ensures { OnOk result (text.new.items ≡ text.old.items ++ word.now ++ decimal number) }
{
    let mut buffer = Buffer::new();
    text.extend_from_slice(word)?;
    text.extend_from_slice(buffer.format(number).as_bytes())?;
    Ok(())
}
