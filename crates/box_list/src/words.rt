// The words for lists of boxes.
ghost use Rattle.std.specs.Prelude.{◌≡◌, ◌↔◌, ◌<◌, ◌≤◌, List, length, IsTrue, IfOk, IfErr, Ok, Err};
ghost use Rattle.order_keys.specs.declared.bounds.Bounds.{Bounds};
ghost use Rattle.box_list.specs.Lists.{FirstFault, IsFault, SpellsBoxes, box_parts, cut_parts};

use crate::boxes::{Boxes, MOST};
use order_keys::{BoundFault, read_box};

/// Reads one to eight boxes with a `+` between two of them. No word for a box has a `+` in it.
///
/// Form comes exactly where there are more than eight parts, or the first part that is no box has the fault Form; else
/// the fault of that part comes.
pub fn read_boxes(text: &str) -> Result<Boxes, BoundFault>
    ensures ok { IfOk result (SpellsBoxes text.now) }
    ensures only { (boxes : List Bounds) → length boxes ≤ 8 → SpellsBoxes text.now boxes → result ≡ Ok boxes }
    ensures fault { IfErr result (IsFault text.now) }
    ensures each_fault { (fault : BoundFault) → IsFault text.now fault → result ≡ Err fault }
{
    if has_too_many(text) {
        return Err(BoundFault::Form);
    }
    read_parts(text)
}

/// Reads the boxes of a text of at most eight parts.
fn read_parts(text: &str) -> Result<Boxes, BoundFault>
    requires few { length (box_parts text.now) ≤ 8 }
    ensures ok { IfOk result (SpellsBoxes text.now) }
    ensures fault { IfErr result (FirstFault (box_parts text.now)) }
{
    let (first, mut rest) = cut(text);
    let bounds = read_box(first)?;
    let mut boxes = Boxes::one(bounds);
    while let Some(parts) = rest {
        let (part, later) = cut(parts);
        let next = read_box(part)?;
        boxes = boxes.with(next).ok_or(BoundFault::Form)?;
        rest = later;
    }
    Ok(boxes)
}

/// Whether a text has more than eight parts.
fn has_too_many(text: &str) -> bool
    ensures { IsTrue result ↔ (8 < length (box_parts text.now)) }
{
    text.bytes().filter(|c| *c == b'+').count() >= MOST
}

/// The first part of a text, and the text behind its `+`.
fn cut(text: &str) -> (&str, Option<&str>)
    ensures { box_parts text.now ≡ cut_parts result }
{
    match text.split_once('+') {
        Some((part, later)) => (part, Some(later)),
        None => (text, None),
    }
}
