// The query of a file.
ghost use Rattle.std.specs.Prelude.{◌≡◌, ◌≢◌, ◌≤◌};
ghost use Rattle.std.specs.Option.{option_map};
ghost use Rattle.command_words.specs.Asking.{comparison_in, input_in};
ghost use Rattle.command_words.specs.Requests.{Request, query};
ghost use Rattle.fgb_tool.specs.Runs.{Does};

use command_words::{Query, Stop, status_of};
use fgb_outside::{RangeSource, Sink};
use std::alloc::Global;
use text_query::write_found;
use where_query::write_where;

/// Writes what a query finds, with its condition or without one, and gives the status.
pub(crate) fn answer_query<S: RangeSource, W: Sink, E: Sink>(
    alloc: Global,
    sought: &Query,
    file: &mut S,
    out: &mut W,
    err: &mut E,
) -> u8
    requires short { sought.now.gap ≤ 1048576 }
    ensures status { result ≢ 2 }
    ensures does { (request : Request) → query (input_in sought.now.file) sought.now.boxes sought.now.gap (option_map comparison_in sought.now.condition) sought.now.output ≡ request
        → Does request (S.seen file.old) (S.seen file.new) (W.shown out.old) (W.shown out.new) (E.shown err.old) (E.shown err.new) result }
{
    let boxes = &sought.boxes;
    let (gap, output) = (sought.gap, sought.output);
    match sought.condition {
        None => {
            let written = write_found(alloc, boxes, gap, output, file, out);
            status_of(written.map_err(Stop::from), err)
        }
        Some(condition) => {
            let written = write_where(alloc, boxes, gap, condition, output, file, out);
            status_of(written.map_err(Stop::from), err)
        }
    }
}
