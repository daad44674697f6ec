// The lines of reporters.
ghost use Rattle.std.specs.Prelude.{◌≡◌, ◌++◌, ◌∷◌, [], codes, decimal, OnOk, IfOk};
ghost use Rattle.order_keys.specs.Keys.{digits_of};
ghost use Rattle.fgb_reports.specs.Texts.{box_text, extent_text, number_line as number_line_of, extent_line as extent_line_of, cap_line as cap_line_of};

use itoa::Buffer;
use order_keys::{Bounds, Coord};
use std::alloc::{AllocError, Global};

/// A word, a number and a line feed.
pub(crate) fn number_line(alloc: Global, word: &[u8], number: u64) -> Result<Vec<u8>, AllocError>
    ensures { IfOk result (λ line. line.items ≡ number_line_of word.now number) }
{
    let mut line = Vec::from_slice(alloc, word)?;
    push_number(&mut line, number)?;
    line.push(b'\n')?;
    Ok(line)
}

/// The line of a cap.
pub(crate) fn cap_line(alloc: Global, features: u64, limit: u64) -> Result<Vec<u8>, AllocError>
    ensures { IfOk result (λ line. line.items ≡ cap_line_of features limit) }
{
    let mut line = Vec::from_slice(alloc, b"cap ")?;
    push_number(&mut line, features)?;
    line.extend_from_slice(b" of ")?;
    push_number(&mut line, limit)?;
    line.push(b'\n')?;
    Ok(line)
}

/// The line of an extent.
pub(crate) fn extent_line(alloc: Global, bounds: Bounds) -> Result<Vec<u8>, AllocError>
    ensures { IfOk result (λ line. line.items ≡ extent_line_of bounds) }
{
    let mut line = Vec::from_slice(alloc, b"extent ")?;
    push_extent(&mut line, bounds)?;
    line.push(b'\n')?;
    Ok(line)
}

/// Appends decimal digits.
fn push_number(line: &mut Vec<u8>, number: u64) -> Result<(), AllocError>
    ensures { OnOk result (line.new.items ≡ line.old.items ++ decimal number) }
{
    let mut buffer = Buffer::new();
    line.extend_from_slice(buffer.format(number).as_bytes())
}

/// Appends the patterns of a box, or `none` of the empty box.
fn push_extent(line: &mut Vec<u8>, bounds: Bounds) -> Result<(), AllocError>
    ensures { OnOk result (line.new.items ≡ line.old.items ++ extent_text bounds) }
{
    if bounds == Bounds::empty() {
        line.extend_from_slice(b"none")
    } else {
        push_box(line, bounds)
    }
}

/// Appends four patterns with a blank between two.
fn push_box(line: &mut Vec<u8>, bounds: Bounds) -> Result<(), AllocError>
    ensures { OnOk result (line.new.items ≡ line.old.items ++ box_text bounds) }
{
    push_pattern(line, bounds.min_x)?;
    line.push(b' ')?;
    push_pattern(line, bounds.min_y)?;
    line.push(b' ')?;
    push_pattern(line, bounds.max_x)?;
    line.push(b' ')?;
    push_pattern(line, bounds.max_y)?;
    Ok(())
}

/// Appends the sixteen digits of a pattern.
fn push_pattern(line: &mut Vec<u8>, coord: Coord) -> Result<(), AllocError>
    ensures { OnOk result (line.new.items ≡ line.old.items ++ digits_of coord.0) }
{
    line.extend_from_slice(&coord.digits())
}
