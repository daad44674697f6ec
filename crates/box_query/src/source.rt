// Querying a source.
ghost use Rattle.std.specs.Prelude.{◌≡◌, ℕ, ◌+◌, ◌*◌, ◌≤◌, ◌^◌, ◌++◌, List, Option, Some, length, IfOk, OnOk, OnErr, IsErrOf, MatchResult};
ghost use Rattle.std.specs.List.{range_with_len};
ghost use Rattle.level_bounds.specs.Levels.{Shape, node_count};
ghost use Rattle.level_bounds.specs.Shapes.{shape_of};
ghost use Rattle.fgb_outside.specs.Source.{IfTold, Rose};
ghost use Rattle.fgb_outside.specs.Asked.{Ascends, IsInside, Reads, ReadsFront};
ghost use Rattle.fgb_header.specs.Views.{header_shown};
ghost use Rattle.fgb_file.specs.File.{BreaksInFront, IsDeclared, IsFile, IsHeader, IsOpen, IsStart, IsUnindexed, header_buffer, header_in};
ghost use Rattle.fgb_reader.specs.Requests.{AsksAll, AsksFront};
ghost use Rattle.read_stop.specs.Asks.{AsksOnly};
ghost use Rattle.found_features.specs.Entries.{Entry};
ghost use Rattle.found_features.specs.Lent.{header_bytes};
ghost use Rattle.found_features.specs.Stops.{IfRefused};
ghost use Rattle.found_features.specs.Visits.{Handed, Takes, TakesPart, TellsOnly, Visits};
ghost use Rattle.box_query.specs.Answers.{IsSearched, Refuses, met};
ghost use Rattle.box_query.specs.Needed.{AsksIndexed, AsksNeeded, AsksNeededFront, AsksSearch, IsIndexed, asked_behind};
ghost use Rattle.box_query.specs.Visited.{Visited, VisitedPart, VisitedRefused};

use box_list::Boxes;
use box_search::search_boxes;
use feature_scan::scan;
use fgb_header::HeaderView;
use fgb_outside::RangeSource;
use fgb_reader::{START, judge_levels, read_header, read_start};
use flat_views::Broken;
use found_features::{QueryError, Visitor};
use hit_reader::Section;
use hit_runs::take_hits;
use level_bounds::Levels;
use node_items::NODE;
use std::alloc::Global;

/// A query that came to its end.
#[derive(Clone, Copy, Debug, PartialEq, Eq)]
pub struct QueryDone {
    /// How many features the visitor took.
    pub found: u64,
}

/// Hands the visitor the features whose own boxes meet one of these boxes, in file order, each once. Asks for holes
/// of fewer bytes than the gap between what it needs, too.
///
/// Refuses a rule of the start or the header, or IndexPastEnd behind the header, before the visitor begins. With an
/// index it then refuses NodeBox, ChildOffset or ParentBox at a node that it reads; LeafPastEnd, LeafOrder or LeafBox at
/// a leaf that it finds; and what the feature there breaks. Without one it refuses what any feature breaks, and
/// FeatureCount. The features before a refusal were handed over.
pub fn query<S: RangeSource, V: Visitor>(
    alloc: Global,
    source: &mut S,
    boxes: &Boxes,
    gap: u32,
    visitor: &mut V,
) -> Result<QueryDone, QueryError>
    requires short { gap ≤ 1048576 }
    // Ok: the visitor took all that is found; in a file that breaks no rule just the needed positions were asked for.
    ensures done { IfOk result (λ done. IfTold (S.seen source.old) (λ image.
        Visited V.start V.failed_start V.step V.failed_step image boxes.now visitor.old visitor.new done.found)) }
    ensures needed { OnOk result (IfTold (S.seen source.old) (λ image. (index : Option Shape) (pieces : List (List ℕ)) → IsFile image index pieces
        → AsksNeeded image index boxes.now gap (S.seen source.old) (S.seen source.new))) }
    ensures all { OnOk result (IfTold (S.seen source.old) (λ image. IsUnindexed image → AsksAll image (S.seen source.old) (S.seen source.new))) }

    // Else: it took a front of that, and a front of those positions was asked for.
    ensures part { OnErr result (IfTold (S.seen source.old) (λ image.
        VisitedPart V.start V.failed_start V.step V.failed_step image boxes.now (S.seen source.old) (S.seen source.new) visitor.old visitor.new)) }
    ensures needed_part { OnErr result (IfTold (S.seen source.old) (λ image. (index : Option Shape) (pieces : List (List ℕ)) → IsFile image index pieces
        → AsksNeededFront image index boxes.now gap (S.seen source.old) (S.seen source.new))) }
    ensures refused { IfRefused result (λ broken. IfTold (S.seen source.old) (λ image.
        VisitedRefused V.start V.failed_start V.step V.failed_step image boxes.now visitor.old visitor.new broken)) }
    ensures visits { Visits V.start V.failed_start V.step V.failed_step visitor.old visitor.new }
    ensures failed { IsErrOf result QueryError.SourceFailed → Rose (S.seen source.old).faults (S.seen source.new).faults }
    ensures stopped { IsErrOf result QueryError.VisitorStopped → Rose (V.stops visitor.old) (V.stops visitor.new) }
    ensures later { V.stops visitor.old ≤ V.stops visitor.new }

    // Whatever the bytes and the result, what is asked for rises, each position once, inside the sections that may be
    // asked for, and of an index just wanted nodes.
    ensures declared { IfTold (S.seen source.old) (λ image. AsksOnly (IsDeclared image) (S.seen source.old) (S.seen source.new)) }
    ensures search { IfTold (S.seen source.old) (λ image. (t : Shape) → IsOpen image (Some t) → AsksSearch image t boxes.now gap (S.seen source.old) (S.seen source.new)) }
    ensures front { IfTold (S.seen source.old) (λ image. ((t : Shape) → IsOpen image (Some t) → ⊥) → AsksFront image (S.seen source.old) (S.seen source.new)) }
{
    let size = source.size();
    let len = read_start(source, size)?;
    let buffer = read_header(alloc, source, len)?;
    let header = view_header(&buffer)?;
    let place = (START + len) as u64;
    let levels = judge_levels(&header, place, size)?;
    visitor.begin(&header)?;
    match levels {
        Some(levels) => {
            let found = search(
                alloc, &header, boxes, gap, place, &levels, size, source, visitor,
            )?;
            Ok(QueryDone { found })
        }
        None => {
            let found = scan(alloc, &header, boxes, place, size, source, visitor)?;
            Ok(QueryDone { found })
        }
    }
}

/// Reads the header in its buffer, which stands behind the start. Refuses a rule of the header.
fn view_header<'a>(buffer: &'a [u8]) -> Result<HeaderView<'a>, Broken>
    requires { length buffer.now ≤ 10485760 }
    ensures judged { (image : List ℕ) → IsStart image → buffer.now ≡ header_buffer image
        → MatchResult result (λ header. IsHeader image × (header_shown header ≡ header_in image)) (BreaksInFront image) }
    ensures bytes { IfOk result (λ header. header_bytes header ≡ record { place = 12; bytes = buffer.now }) }
{
    HeaderView::read(buffer, START as u64)
}

/// Searches the index that begins at this place, reads the features that it finds, and hands them over; gives how many.
fn search<S: RangeSource, V: Visitor>(
    alloc: Global,
    header: &HeaderView,
    boxes: &Boxes,
    gap: u32,
    place: u64,
    levels: &Levels,
    end: u64,
    source: &mut S,
    visitor: &mut V,
) -> Result<u64, QueryError>
    requires order { place + 40 * node_count (shape_of levels.now) ≤ end }
    requires small { end ≤ 2 ^ 48 }
    requires inside { end ≤ (S.seen source.old).size }
    requires told { TellsOnly (header_shown header.now) (V.told visitor.old) }
    // Of a file with this index: the visitor took all that is found, or a front of that, or what stands in front of a
    // refusal; and in a file that breaks no rule just the wanted nodes and the features found were asked for, with the
    // short holes between them.
    ensures done { let t = shape_of levels.now in let h = header_shown header.now in IfOk result (λ count. IfTold (S.seen source.old) (λ image. IsIndexed image t h place end
        → IsSearched image t boxes.now × Takes V.step visitor.old (met image t boxes.now) visitor.new × (count ≡ length (met image t boxes.now)))) }
    ensures part { let t = shape_of levels.now in let h = header_shown header.now in OnErr result (IfTold (S.seen source.old) (λ image. IsIndexed image t h place end
        → TakesPart V.step V.failed_step visitor.old (met image t boxes.now) visitor.new)) }
    ensures refused { let t = shape_of levels.now in let h = header_shown header.now in IfRefused result (λ broken. IfTold (S.seen source.old) (λ image. IsIndexed image t h place end
        → (entries : List Entry) × Refuses image boxes.now broken entries × Takes V.step visitor.old entries visitor.new)) }
    ensures reads { let t = shape_of levels.now in let h = header_shown header.now in OnOk result (IfTold (S.seen source.old) (λ image. (pieces : List (List ℕ)) → IsIndexed image t h place end
        → IsFile image (Some t) pieces → Reads (IsDeclared image) (S.seen source.old) (S.seen source.new) (asked_behind image t boxes.now gap))) }
    ensures front { let t = shape_of levels.now in let h = header_shown header.now in OnErr result (IfTold (S.seen source.old) (λ image. (pieces : List (List ℕ)) → IsIndexed image t h place end
        → IsFile image (Some t) pieces → ReadsFront (IsDeclared image) (S.seen source.old) (S.seen source.new) (asked_behind image t boxes.now gap))) }

    // Whatever else its bytes are: of the index just wanted nodes were asked for, and then positions that rise.
    ensures rising { let t = shape_of levels.now in let h = header_shown header.now in IfTold (S.seen source.old) (λ image. IsIndexed image t h place end
        → AsksIndexed image t boxes.now gap (S.seen source.old) (S.seen source.new)) }
    ensures failed { IsErrOf result QueryError.SourceFailed → Rose (S.seen source.old).faults (S.seen source.new).faults }
    ensures handed { Handed V.step V.failed_step visitor.old visitor.new }
    ensures stopped { IsErrOf result QueryError.VisitorStopped → Rose (V.stops visitor.old) (V.stops visitor.new) }
    ensures later { V.stops visitor.old ≤ V.stops visitor.new }
{
    let hits = search_boxes(alloc, source, place, levels, boxes, gap)?;
    let found = hits.len() as u64;
    let section = Section {
        header,
        leaves: place + NODE as u64 * levels.level(0).0,
        first: place + NODE as u64 * levels.nodes(),
        end,
    };
    take_hits(alloc, &section, hits, gap, source, visitor)?;
    Ok(found)
}
