// The query of a file, as a text.
ghost use Rattle.std.specs.Prelude.{◌≡◌, ◌⊎◌, ◌≤◌, ℕ, List, [], Option, Some, Err, OnOk, IsOk, IsErrOf, IsTrue};
ghost use Rattle.level_bounds.specs.Levels.{Shape};
ghost use Rattle.fgb_outside.specs.Source.{IfTold, Rose};
ghost use Rattle.fgb_outside.specs.Sink.{Appends, AppendsPart};
ghost use Rattle.fgb_file.specs.File.{BreaksFirst, IsDeclared, IsFile, IsOpen, IsUnindexed, IsValid, header_in};
ghost use Rattle.read_stop.specs.Asks.{AsksOnly};
ghost use Rattle.fgb_reader.specs.Requests.{AsksAll, AsksFront};
ghost use Rattle.box_query.specs.Needed.{AsksSearch};
ghost use Rattle.text_query.specs.Causes.{IfRefused};
ghost use Rattle.text_query.specs.Texts.{IsTooWide};
ghost use Rattle.text_query.specs.Written.{Headline, HeadlinePart, TextOf, TextPart, TextRefused};

use crate::error::TextError;
use crate::output::Output;
use crate::page::Page;
use crate::writer::Writer;
use box_list::Boxes;
use box_query::{QueryDone, QueryError, query, searches_are_scans};
use fgb_outside::{RangeSource, Sink};
use std::alloc::Global;

/// Writes the text of the features whose own boxes meet one of these boxes, in file order, each once. Asks for holes of
/// fewer bytes than the gap between what it needs, too.
///
/// Refuses the file as `query` of `box_query` does, and the text of the features before a refusal was written. TooLarge
/// where the header of the file that was to be written would be longer than 10,485,760 bytes: then nothing was written.
/// After another error a front of the text was.
pub fn write_found<S: RangeSource, W: Sink>(
    alloc: Global,
    boxes: &Boxes,
    gap: u32,
    output: Output,
    file: &mut S,
    out: &mut W,
) -> Result<(), TextError>
    requires short { gap ≤ 1048576 }
    // On a file that breaks no rule just the text of the features whose own boxes meet one of the boxes was written, and
    // just the needed positions and the holes shorter than the gap were asked for; or a front of both.
    ensures headline { OnOk result (IfTold (S.seen file.old) (λ image. (index : Option Shape) (pieces : List (List ℕ)) → IsFile image index pieces
        → Headline image index pieces boxes.now gap output (S.seen file.old) (S.seen file.new) (W.shown out.old) (W.shown out.new))) }
    ensures headline_part { IfTold (S.seen file.old) (λ image. (index : Option Shape) (pieces : List (List ℕ)) → IsFile image index pieces
        → HeadlinePart image index pieces boxes.now gap output (S.seen file.old) (S.seen file.new) (W.shown out.old) (W.shown out.new)) }

    // Whatever the bytes.
    ensures done { OnOk result (IfTold (S.seen file.old) (λ image. TextOf image boxes.now output (W.shown out.old) (W.shown out.new))) }
    ensures sound { OnOk result (IfTold (S.seen file.old) (λ image. IsUnindexed image → IsValid image × AsksAll image (S.seen file.old) (S.seen file.new))) }
    ensures refused { IfRefused result (λ broken. IfTold (S.seen file.old) (λ image.
        TextRefused image boxes.now output (W.shown out.old) (W.shown out.new) broken × (IsUnindexed image → BreaksFirst image broken))) }
    ensures unrefused { IfTold (S.seen file.old) (λ image. IsValid image → IfRefused result (λ _. ⊥)) }
    ensures part { IfTold (S.seen file.old) (λ image. TextPart image boxes.now output (W.shown out.old) (W.shown out.new)) }

    // It is too large where the header of the file is too wide, just there, and then nothing was written.
    ensures large { result ≡ Err TextError.TooLarge → IfTold (S.seen file.old) (λ image.
        IsTooWide output (header_in image) × ((index : Option Shape) × IsOpen image index) × Appends (W.shown out.old) (W.shown out.new) []) }
    ensures large_done { IfTold (S.seen file.old) (λ image. (index : Option Shape) → IsOpen image index → IsTooWide output (header_in image)
        → ((result ≡ Err TextError.TooLarge) ⊎ (result ≡ Err TextError.Memory) ⊎ (result ≡ Err TextError.SourceFailed))
        × Appends (W.shown out.old) (W.shown out.new) []) }
    ensures large_file { result ≡ Err TextError.TooLarge → output ≡ Output.Fgb }

    // What is asked for rises, each position once, inside the sections that may be asked for, and of an index just
    // wanted nodes.
    ensures declared { IfTold (S.seen file.old) (λ image. AsksOnly (IsDeclared image) (S.seen file.old) (S.seen file.new)) }
    ensures search { IfTold (S.seen file.old) (λ image. (t : Shape) → IsOpen image (Some t) → AsksSearch image t boxes.now gap (S.seen file.old) (S.seen file.new)) }
    ensures front { IfTold (S.seen file.old) (λ image. ((t : Shape) → IsOpen image (Some t) → ⊥) → AsksFront image (S.seen file.old) (S.seen file.new)) }
    ensures failed { IsErrOf result TextError.SourceFailed → Rose (S.seen file.old).faults (S.seen file.new).faults }
    ensures sink_failed { IsErrOf result TextError.SinkFailed → Rose (W.shown out.old).faults (W.shown out.new).faults }
{
    let mut writer = Writer::new(alloc, output, out);
    searches_are_scans();
    let asked = query(alloc, file, boxes, gap, &mut writer);
    let Writer {
        out,
        mut page,
        too_wide,
        line: _line,
        header: _header,
        output: _,
        stops: _,
        alloc: _,
    } = writer;
    finish(asked, too_wide, &mut page, out)
}

/// Ends the text of a query whose visitor was a [`Writer`]: writes what is left on the page, whatever came, and says why the
/// work stops; but TooLarge, and nothing is written, where the header is too wide.
pub fn finish<W: Sink>(
    asked: Result<QueryDone, QueryError>,
    too_wide: bool,
    page: &mut Page,
    out: &mut W,
) -> Result<(), TextError>
    ensures done { OnOk result (IsOk asked × Appends (W.shown out.old) (W.shown out.new) page.old.bytes.items) }
    ensures refused { IfRefused result (λ broken.
        IsErrOf asked (QueryError.Refused broken) × Appends (W.shown out.old) (W.shown out.new) page.old.bytes.items) }
    ensures part { AppendsPart (W.shown out.old) (W.shown out.new) page.old.bytes.items }
    ensures failed { IsErrOf result TextError.SourceFailed → IsErrOf asked QueryError.SourceFailed }
    ensures sink_failed { IsErrOf result TextError.SinkFailed
        → IsErrOf asked QueryError.VisitorStopped ⊎ Rose (W.shown out.old).faults (W.shown out.new).faults }
    ensures idle { page.old.bytes.items ≡ [] → IsErrOf result TextError.SinkFailed → IsErrOf asked QueryError.VisitorStopped }
    ensures large { result ≡ Err TextError.TooLarge → IsTrue too_wide }
    ensures wide { IsTrue too_wide → result ≡ Err TextError.TooLarge }
    ensures later { (W.shown out.old).faults ≤ (W.shown out.new).faults }
{
    if too_wide {
        return Err(TextError::TooLarge);
    }
    let written = page.write(out);
    match asked {
        Ok(_) => Ok(written?),
        // A refusal says that the text before it was written; any other stop came before this write.
        Err(QueryError::Refused(broken)) => {
            written?;
            Err(TextError::Refused(broken))
        }
        Err(error) => Err(TextError::from(error)),
    }
}
