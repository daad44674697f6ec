// The line of a feature.
ghost use Rattle.std.specs.Prelude.{◌≡◌, ◌∷◌, [], ◌++◌, decimal, OnOk};
ghost use Rattle.order_keys.specs.Keys.{digits_of};
ghost use Rattle.found_features.specs.Lent.{entry_of};
ghost use Rattle.text_query.specs.Lines.{box_text, line as line_of};

use found_features::Found;
use itoa::Buffer;
use order_keys::{Bounds, Coord};
use std::alloc::AllocError;

/// Lays the line of a feature in place of what stood there.
pub(crate) fn lay_line(line: &mut Vec<u8>, found: &Found) -> Result<(), AllocError>
    ensures { OnOk result (line.new.items ≡ line_of (entry_of found.now)) }
{
    line.clear();
    push_number(line, found.number)?;
    push_number(line, found.offset)?;
    push_number(line, found.bytes.len() as u64)?;
    push_box(line, found.bounds)?;
    line.push(b'\n')?;
    Ok(())
}

/// Appends a number and a blank.
fn push_number(line: &mut Vec<u8>, number: u64) -> Result<(), AllocError>
    ensures { OnOk result (line.new.items ≡ line.old.items ++ decimal number ++ 32 ∷ []) }
{
    let mut buffer = Buffer::new();
    line.extend_from_slice(buffer.format(number).as_bytes())?;
    line.push(b' ')?;
    Ok(())
}

/// Appends four patterns with a blank between two.
fn push_box(line: &mut Vec<u8>, bounds: Bounds) -> Result<(), AllocError>
    ensures { OnOk result (line.new.items ≡ line.old.items ++ box_text bounds) }
{
    push_pattern(line, bounds.min_x)?;
    line.push(b' ')?;
    push_pattern(line, bounds.min_y)?;
    line.push(b' ')?;
    push_pattern(line, bounds.max_x)?;
    line.push(b' ')?;
    push_pattern(line, bounds.max_y)?;
    Ok(())
}

/// Appends the sixteen digits of a pattern.
fn push_pattern(line: &mut Vec<u8>, coord: Coord) -> Result<(), AllocError>
    ensures { OnOk result (line.new.items ≡ line.old.items ++ digits_of coord.0) }
{
    line.extend_from_slice(&coord.digits())?;
    Ok(())
}
