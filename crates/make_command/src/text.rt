// What is written of a file that is made.
ghost use Rattle.std.specs.Prelude.{◌≡◌, ◌≤◌, pos, int_lt, unsigned_abs, IfOk, IfErr, OnOk, IsErrOf};
ghost use Rattle.fgb_outside.specs.Source.{Rose};
ghost use Rattle.order_keys.specs.Boxes.{IsBox};
ghost use Rattle.grid_features.specs.Grid.{IsPattern};
ghost use Rattle.make_command.specs.Made.{IsFault, IsMadeText, IsTenAround, WritesMade, WritesMadePart};

use crate::making::{Made, make_file};
use crate::querying::{count_found, lines_of};
use crate::summary::{Summary, push_summary};
use box_list::Boxes;
use command_words::Stop;
use fgb_outside::Sink;
use order_keys::{Bounds, Coord};
use std::alloc::{AllocError, Global};

/// Makes a file in memory, of so many features of the grid from this start on, with at most 16 children of a node; queries
/// it with the box from -10 to 10 across and up; and writes the line of each feature found, and the line `features N nodes
/// M bytes B found F asked A`, in which A is how many positions the query asked for.
///
/// The count is at most 1,000,000, and the start at most 1,000,000,000. Stops with SinkFailed or Memory, and then a front
/// of the text was written. The file and the text stand in memory whole.
pub fn make_text<W: Sink>(alloc: Global, count: u64, start: u64, out: &mut W) -> Result<(), Stop>
    requires few { count ≤ 1000000 }
    requires near { start ≤ 1000000000 }
    ensures done { OnOk result (WritesMade count start (W.shown out.old) (W.shown out.new)) }

    // Whatever comes of it, a front of the text was written, or nothing.
    ensures part { WritesMadePart count start (W.shown out.old) (W.shown out.new) }

    // Only the sink and the memory can stop it.
    ensures own { IfErr result IsFault }
    ensures sink_failed { IsErrOf result Stop.SinkFailed → Rose (W.shown out.old).faults (W.shown out.new).faults }
{
    match made_text(alloc, count, start) {
        Ok(text) => Ok(out.write(&text)?),
        Err(_) => Err(Stop::Memory),
    }
}

/// The text of the file that is made.
fn made_text(alloc: Global, count: u64, start: u64) -> Result<Vec<u8>, AllocError>
    requires few { count ≤ 1000000 }
    requires near { start ≤ 1000000000 }
    ensures { IfOk result (λ text. IsMadeText count start text.items) }
{
    let made = make_file(alloc, count, start)?;
    let boxes = Boxes::one(ten_around());
    let found = count_found(alloc, &made.bytes, &boxes)?;
    let mut lines = lines_of(alloc, &made.bytes, &boxes)?;
    let summary = Summary {
        features: made.features,
        nodes: made.nodes,
        bytes: made.bytes.len() as u64,
        found,
        asked: lines.asked,
    };
    push_summary(&mut lines.text, summary)?;
    Ok(lines.text)
}

/// The box from -10 to 10 across and up.
fn ten_around() -> Bounds
    ensures around { IsTenAround result }
    ensures valid { IsBox result }
{
    let low = whole(-10);
    let high = whole(10);
    Bounds {
        min_x: low,
        min_y: low,
        max_x: high,
        max_y: high,
    }
}

/// The pattern of a small whole number.
fn whole(number: i64) -> Coord
    requires { unsigned_abs number ≤ 10 }
    ensures { IsPattern number result.0 }
{
    match Coord::of_whole(number) {
        Some(coordinate) => coordinate,
        None => unreachable!(),
    }
}
