// The top call.
ghost use Rattle.std.specs.Prelude.{◌≡◌, ◌≢◌, ◌≤◌, ℕ, List, map, IfSome, IfNone, IsSomeAnd};
ghost use Rattle.order_keys.specs.declared.bounds.Bounds.{Bounds as Box};
ghost use Rattle.command_words.specs.Asking.{input_in};
ghost use Rattle.command_words.specs.Requests.{Asks, IsReport, IsUsageOf, report};
ghost use Rattle.command_words.specs.Words.{Input, texts};
ghost use Rattle.command_words.specs.Texts.{Tells, usage_text};
ghost use Rattle.report_command.specs.Reports.{Reported, Reports};

use crate::feeder::feed_found;
use crate::lines::write_lines;
use box_list::Boxes;
use command_words::{Asked, Reporting, Stop, read_words, refuse_words, status_of};
use fgb_outside::{RangeSource, Sink};
use fgb_reports::Reporter;
use std::alloc::Global;

/// Answers the words `report FILE --box=BOXES`, with `--gap=G` or without it, which do not hold the program's name, over a
/// file, and gives the status that the program ends with. Feeds the reporters with the features whose own boxes meet one of
/// the boxes, in file order; one that refuses a feature is dropped. The lines of those that are left are written on `out`, in order, once
/// all features are fed; a text that says why there is no answer, on `err`.
pub fn report_run<S: RangeSource, W: Sink, E: Sink>(
    alloc: Global,
    words: &[&str],
    file: &mut S,
    reports: &mut Vec<Box<dyn Reporter>>,
    out: &mut W,
    err: &mut E,
) -> u8
    // Status 2 comes exactly where the words ask for no report. Then nothing is asked, the reporters are as they were, and
    // nothing but the usage is written, on `err`.
    ensures usage { result ≡ 2 → IsUsageOf IsReport (texts words.now) }
    ensures usage_text { result ≡ 2 → Tells (E.shown err.old) (E.shown err.new) usage_text }
    ensures untouched { result ≡ 2 → (S.seen file.new ≡ S.seen file.old) × (W.shown out.new ≡ W.shown out.old) }
    ensures unfed { result ≡ 2 → reports.new ≡ reports.old }

    // Else the words ask for a report on the features that meet one of these boxes, and this is what happens.
    ensures asked { result ≢ 2 → (input : Input) × (boxes : List Box) × (gap : ℕ) × Asks (texts words.now) (report input boxes gap) }
    ensures does { (input : Input) (boxes : List Box) (gap : ℕ) → Asks (texts words.now) (report input boxes gap) → (result ≢ 2)
        × Reports boxes gap (S.seen file.old) (S.seen file.new) (map (λ r. (Reporter-box r).shown r.value) reports.old.items) (map (λ r. (Reporter-box r).shown r.value) reports.new.items)
        (W.shown out.old) (W.shown out.new) (E.shown err.old) (E.shown err.new) result }
{
    let Some(reporting) = read_report(words) else {
        return refuse_words(err);
    };
    let done = report_found(alloc, &reporting.boxes, reporting.gap, file, reports, out);
    status_of(done, err)
}

/// The report that the words ask for, if they ask for one.
fn read_report<'a>(words: &[&'a str]) -> Option<Reporting<'a>>
    ensures asked { IfSome result (λ r. Asks (texts words.now) (report (input_in r.file) r.boxes r.gap)) }
    ensures short { IfSome result (λ r. r.gap ≤ 1048576) }
    ensures only { (input : Input) (boxes : List Box) (gap : ℕ) → Asks (texts words.now) (report input boxes gap) → IsSomeAnd result (λ r. (r.boxes ≡ boxes) × (r.gap ≡ gap)) }
    ensures usage { IfNone result (IsUsageOf IsReport (texts words.now)) }
{
    match read_words(words)? {
        Asked::Report(reporting) => Some(reporting),
        Asked::Query(_) | Asked::Check(_) | Asked::Pack(_) => None,
        Asked::Convert(_) | Asked::Make(_) | Asked::Serve(_) => None,
    }
}

/// Feeds the reporters with the features whose own boxes meet one of these boxes, and then writes the lines of those that are
/// left.
fn report_found<S: RangeSource, W: Sink>(
    alloc: Global,
    boxes: &Boxes,
    gap: u32,
    file: &mut S,
    reports: &mut Vec<Box<dyn Reporter>>,
    out: &mut W,
) -> Result<(), Stop>
    requires short { gap ≤ 1048576 }
    ensures { Reported boxes.now gap (S.seen file.old) (S.seen file.new) (map (λ r. (Reporter-box r).shown r.value) reports.old.items) (map (λ r. (Reporter-box r).shown r.value) reports.new.items)
        (W.shown out.old) (W.shown out.new) result }
{
    feed_found(alloc, boxes, gap, file, reports)?;
    write_lines(alloc, reports, out)
}
