// The query of a file with a condition, as a text.
ghost use Rattle.std.specs.Prelude.{◌≡◌, ◌⊎◌, ◌≤◌, ◌+◌, ℕ, List, [], None, Option, Some, Err, OnOk, IsOk, IsErrOf, IsTrue};
ghost use Rattle.flat_layout.specs.Promises.{IsClean};
ghost use Rattle.flat_layout.specs.declared.Broken.{Broken};
ghost use Rattle.flat_layout.specs.declared.Rule.{Rule};
ghost use Rattle.level_bounds.specs.Levels.{Shape};
ghost use Rattle.fgb_outside.specs.Source.{IfTold, Rose};
ghost use Rattle.fgb_outside.specs.Sink.{Appends, AppendsPart};
ghost use Rattle.fgb_file.specs.File.{BreaksFirst, IsDeclared, IsFile, IsOpen, IsUnindexed, IsValid, header_in};
ghost use Rattle.read_stop.specs.Asks.{AsksOnly};
ghost use Rattle.fgb_reader.specs.Requests.{AsksAll, AsksFront};
ghost use Rattle.box_query.specs.Needed.{AsksHeaderFront, AsksSearch};
ghost use Rattle.text_query.specs.Causes.{IfRefused};
ghost use Rattle.text_query.specs.Texts.{IsTooWide};
ghost use Rattle.fgb_where.specs.Binding.{Bounded};
ghost use Rattle.where_query.specs.Written.{BindsIn, BreaksIn, ConditionRefused, Headline, HeadlinePart, TextOf, TextPart, TextRefused};

use box_list::Boxes;
use box_query::{QueryDone, QueryError, query, searches_are_scans};
use fgb_outside::{RangeSource, Sink};
use fgb_where::{Condition, WhereVisitor};
use flat_views::Broken;
use std::alloc::Global;
use text_query::{Output, Page, TextError, Writer, finish};

/// Writes the text of the features whose own boxes meet one of these boxes, and for which the condition holds, in file
/// order, each once. Asks for holes of fewer bytes than the gap between what it needs, too; and for the same bytes as
/// without a condition.
///
/// Refuses the condition at a table of the file's header where it breaks a rule there (`bind` of `fgb_where`), before
/// anything behind the header is asked for; then nothing was written. Refuses the file as `query` of `box_query` does, and
/// the text of the features before a refusal was written. TooLarge where the condition breaks no rule and the header of the
/// file that was to be written would be longer than 10,485,760 bytes: then nothing was written. After another error a front
/// of the text was.
pub fn write_where<S: RangeSource, W: Sink>(
    alloc: Global,
    boxes: &Boxes,
    gap: u32,
    condition: Condition<'_>,
    output: Output,
    file: &mut S,
    out: &mut W,
) -> Result<(), TextError>
    requires short { gap ≤ 1048576 }
    // On a file that breaks no rule, where the condition breaks none, just the text of the features whose own boxes meet one
    // of the boxes, and for which it holds, was written, and just the needed positions and the holes shorter than the gap
    // were asked for; or a front of both.
    ensures headline { OnOk result (IfTold (S.seen file.old) (λ image. (index : Option Shape) (pieces : List (List ℕ)) (bounded : Bounded) → IsFile image index pieces → BindsIn image condition.entry bounded
        → Headline image index pieces boxes.now bounded gap output (S.seen file.old) (S.seen file.new) (W.shown out.old) (W.shown out.new))) }
    ensures headline_part { IfTold (S.seen file.old) (λ image. (index : Option Shape) (pieces : List (List ℕ)) (bounded : Bounded) → IsFile image index pieces → BindsIn image condition.entry bounded
        → HeadlinePart image index pieces boxes.now bounded gap output (S.seen file.old) (S.seen file.new) (W.shown out.old) (W.shown out.new)) }

    // Whatever the bytes.
    ensures done { OnOk result (IfTold (S.seen file.old) (λ image. TextOf image boxes.now condition.entry output (W.shown out.old) (W.shown out.new))) }
    ensures sound { OnOk result (IfTold (S.seen file.old) (λ image. IsUnindexed image → IsValid image × AsksAll image (S.seen file.old) (S.seen file.new))) }
    ensures refused { IfRefused result (λ broken. IfTold (S.seen file.old) (λ image.
        ConditionRefused image condition.entry (S.seen file.old) (S.seen file.new) (W.shown out.old) (W.shown out.new) broken
        ⊎ (TextRefused image boxes.now condition.entry output (W.shown out.old) (W.shown out.new) broken × (IsUnindexed image → BreaksFirst image broken)))) }
    ensures unrefused { IfTold (S.seen file.old) (λ image. IsValid image → IsClean (BreaksIn image condition.entry) → IfRefused result (λ _. ⊥)) }
    ensures part { IfTold (S.seen file.old) (λ image. TextPart image boxes.now condition.entry output (W.shown out.old) (W.shown out.new)) }

    // Where the condition breaks a rule it is refused for that one there, but where the source failed before, or there was
    // no memory; nothing was written, and at most the start and the header were asked for.
    ensures broken_condition { IfTold (S.seen file.old) (λ image. (index : Option Shape) (q : ℕ) (r : Rule) → IsOpen image index → BreaksIn image condition.entry q r
        → ((result ≡ Err (TextError.Refused (record { place = 12 + q; rule = r }))) ⊎ (result ≡ Err TextError.Memory) ⊎ (result ≡ Err TextError.SourceFailed))
        × Appends (W.shown out.old) (W.shown out.new) [] × AsksHeaderFront image (S.seen file.old) (S.seen file.new)) }

    // It is too large where the header of the file is too wide and the condition breaks no rule, just there, and then
    // nothing was written.
    ensures large { result ≡ Err TextError.TooLarge → IfTold (S.seen file.old) (λ image.
        IsTooWide output (header_in image) × ((index : Option Shape) × IsOpen image index) × ((bounded : Bounded) × BindsIn image condition.entry bounded)
        × Appends (W.shown out.old) (W.shown out.new) []) }
    ensures large_done { IfTold (S.seen file.old) (λ image. (index : Option Shape) → IsOpen image index → IsClean (BreaksIn image condition.entry) → IsTooWide output (header_in image)
        → ((result ≡ Err TextError.TooLarge) ⊎ (result ≡ Err TextError.Memory) ⊎ (result ≡ Err TextError.SourceFailed))
        × Appends (W.shown out.old) (W.shown out.new) []) }
    ensures large_file { result ≡ Err TextError.TooLarge → output ≡ Output.Fgb }

    // What is asked for rises, each position once, inside the sections that may be asked for, and of an index just
    // wanted nodes.
    ensures declared { IfTold (S.seen file.old) (λ image. AsksOnly (IsDeclared image) (S.seen file.old) (S.seen file.new)) }
    ensures search { IfTold (S.seen file.old) (λ image. (t : Shape) → IsOpen image (Some t) → AsksSearch image t boxes.now gap (S.seen file.old) (S.seen file.new)) }
    ensures front { IfTold (S.seen file.old) (λ image. ((t : Shape) → IsOpen image (Some t) → ⊥) → AsksFront image (S.seen file.old) (S.seen file.new)) }
    ensures failed { IsErrOf result TextError.SourceFailed → Rose (S.seen file.old).faults (S.seen file.new).faults }
    ensures sink_failed { IsErrOf result TextError.SinkFailed → Rose (W.shown out.old).faults (W.shown out.new).faults }
{
    let mut visitor = WhereVisitor::new(alloc, condition, Writer::new(alloc, output, out));
    searches_are_scans();
    let asked = query(alloc, file, boxes, gap, &mut visitor);
    let refused = visitor.refused();
    let Writer {
        out,
        mut page,
        too_wide,
        line: _line,
        header: _header,
        output: _,
        stops: _,
        alloc: _,
    } = visitor.into_inner();
    end(refused, asked, too_wide, &mut page, out)
}

/// Says that the condition is refused, where it is; else ends the text as a query without a condition does.
fn end<W: Sink>(
    refused: Option<Broken>,
    asked: Result<QueryDone, QueryError>,
    too_wide: bool,
    page: &mut Page,
    out: &mut W,
) -> Result<(), TextError>
    ensures condition { (broken : Broken) → refused ≡ Some broken → (result ≡ Err (TextError.Refused broken)) × (W.shown out.new ≡ W.shown out.old) }
    ensures done { OnOk result (IsOk asked × Appends (W.shown out.old) (W.shown out.new) page.old.bytes.items) }
    ensures refused { refused ≡ None → IfRefused result (λ broken.
        IsErrOf asked (QueryError.Refused broken) × Appends (W.shown out.old) (W.shown out.new) page.old.bytes.items) }
    ensures part { refused ≡ None → AppendsPart (W.shown out.old) (W.shown out.new) page.old.bytes.items }
    ensures failed { IsErrOf result TextError.SourceFailed → IsErrOf asked QueryError.SourceFailed }
    ensures sink_failed { IsErrOf result TextError.SinkFailed
        → IsErrOf asked QueryError.VisitorStopped ⊎ Rose (W.shown out.old).faults (W.shown out.new).faults }
    ensures idle { page.old.bytes.items ≡ [] → IsErrOf result TextError.SinkFailed → IsErrOf asked QueryError.VisitorStopped }
    ensures large { result ≡ Err TextError.TooLarge → IsTrue too_wide × (refused ≡ None) }
    ensures wide { refused ≡ None → IsTrue too_wide → result ≡ Err TextError.TooLarge }
    ensures later { (W.shown out.old).faults ≤ (W.shown out.new).faults }
{
    match refused {
        Some(broken) => Err(TextError::Refused(broken)),
        None => finish(asked, too_wide, page, out),
    }
}
