// A query that feeds reporters.
ghost use Rattle.std.specs.Prelude.{◌≤◌, ◌≡◌, ◌≢◌, None, Err, OnOk, OnErr, IsErr, IsOk, IsErrOf, map};
ghost use Rattle.fgb_reports.specs.States.{fed};
ghost use Rattle.command_words.specs.Statuses.{IfRefused};
ghost use Rattle.report_command.specs.Feeds.{Feeds};

use box_list::Boxes;
use box_query::{QueryDone, QueryError, VisitError, Visitor, query, searches_are_scans};
use command_words::Stop;
use fgb_header::HeaderView;
use fgb_outside::RangeSource;
use fgb_reports::{Reporter, feed_all};
use found_features::Found;
use std::alloc::Global;

/// Feeds reporters with the features that it is handed.
#[derive(Drop)]
struct Feeder<'r> {
    reports: &'r mut Vec<Box<dyn Reporter>>,
}

impl<'r> Feeder<'r> {
    /// They have been fed with nothing yet.
    fn new(reports: &'r mut Vec<Box<dyn Reporter>>) -> Feeder<'r>
        ensures same_reference { result.reports.ghost_name ≡ reports.entry.ghost_name }
        ensures unfed { result.reports.now ≡ reports.old }
    {
        Feeder { reports }
    }
}

/// It tells no header, never stops, and needs no memory.
impl<'r> Visitor for Feeder<'r> {
    ghost start = { λ v _ w. w ≡ v };

    ghost failed_start = { λ _ _ _. ⊥ };

    ghost step = { λ v e w. (w.reports.ghost_name ≡ v.reports.ghost_name)
        × (map (λ r. (Reporter-box r).shown r.value) w.reports.now.items ≡ fed (map (λ r. (Reporter-box r).shown r.value) v.reports.now.items) e) };

    ghost failed_step = { λ _ _ _. ⊥ };

    ghost stops = { λ _. 0 };

    ghost told = { λ _. None };

    fn begin(&mut self, _header: &HeaderView) -> Result<(), VisitError> {
        Ok(())
    }

    fn take(&mut self, found: &Found) -> Result<(), VisitError> {
        feed_all(self.reports, found);
        Ok(())
    }
}

/// Feeds the reporters with the features whose own boxes meet one of these boxes, in file order. One that refuses a feature is
/// dropped, and the others keep their order.
///
/// Refuses the file as `query` of `box_query` does, and the reporters were fed with the features before a refusal.
pub(crate) fn feed_found<S: RangeSource>(
    alloc: Global,
    boxes: &Boxes,
    gap: u32,
    file: &mut S,
    reports: &mut Vec<Box<dyn Reporter>>,
) -> Result<(), Stop>
    requires short { gap ≤ 1048576 }
    ensures { Feeds boxes.now gap (S.seen file.old) (S.seen file.new) (map (λ r. shown r) reports.old.items) (map (λ r. shown r) reports.new.items) result }
{
    let mut feeder = Feeder::new(reports);
    searches_are_scans();
    let asked = query(alloc, file, boxes, gap, &mut feeder);
    ended(asked)
}

/// Why a query stops whose visitor never does.
fn ended(asked: Result<QueryDone, QueryError>) -> Result<(), Stop>
    requires { asked ≢ Err QueryError.VisitorStopped }
    ensures done { OnOk result (IsOk asked) }
    ensures stopped { OnErr result (IsErr asked) }
    ensures refused { IfRefused result (λ broken. IsErrOf asked (QueryError.Refused broken)) }
    ensures failed { IsErrOf result Stop.SourceFailed → IsErrOf asked QueryError.SourceFailed }
    ensures no_sink { result ≢ Err Stop.SinkFailed }
    ensures no_limit { result ≢ Err Stop.TooLarge }
{
    match asked {
        Ok(_) => Ok(()),
        Err(QueryError::Refused(broken)) => Err(Stop::Refused(broken)),
        Err(QueryError::SourceFailed) => Err(Stop::SourceFailed),
        Err(QueryError::Memory) => Err(Stop::Memory),
        Err(QueryError::VisitorStopped) => unreachable!(),
    }
}
