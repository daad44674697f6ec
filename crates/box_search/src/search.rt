// The search.
ghost use Rattle.std.specs.Prelude.{◌≡◌, ◌+◌, ◌*◌, ◌<◌, ◌≤◌, ◌^◌, map, IfOk, OnOk, OnErr, IsErrOf};
ghost use Rattle.std.specs.List.{AllByRecursion};
ghost use Rattle.flat_layout.specs.Promises.{IsClean};
ghost use Rattle.fgb_outside.specs.Source.{IfTold, Keeps, Rose};
ghost use Rattle.fgb_outside.specs.Asked.{IsInside, Reads, ReadsFront};
ghost use Rattle.gap_window.specs.Gaps.{bridged};
ghost use Rattle.level_bounds.specs.Levels.{node_count};
ghost use Rattle.level_bounds.specs.Shapes.{shape_of};
ghost use Rattle.node_items.specs.Nodes.{stored};
ghost use Rattle.read_stop.specs.Stops.{IfRefused};
ghost use Rattle.box_list.specs.Lists.{meets_any};
ghost use Rattle.tree_search.specs.Wanted.{BreaksWanted, hits, node_positions, wanted_nodes};
ghost use Rattle.tree_search.specs.Searches.{hit_of};
ghost use Rattle.box_search.specs.Following.{HaveNext, next_of};
ghost use Rattle.box_search.specs.Hits.{plains};

use crate::level::Descent;
use crate::nodes::Hit;
use box_list::Boxes;
use fgb_outside::RangeSource;
use gap_window::GapWindow;
use level_bounds::Levels;
use node_items::NODE;
use read_stop::ReadStop;
use std::alloc::Global;

/// The leaves whose boxes, and those of all nodes above them, each meet one of these boxes, ascending, in the index of a
/// source that begins at this place. Reads just the wanted nodes, and the holes between them of fewer bytes than the
/// gap, ascending, each byte once. Refuses NodeBox or ChildOffset at a wanted node, or ParentBox at an inner node whose
/// children are wanted.
pub fn search_boxes<S: RangeSource>(
    alloc: Global,
    source: &mut S,
    place: u64,
    levels: &Levels,
    boxes: &Boxes,
    gap: u32,
) -> Result<Vec<Hit>, ReadStop>
    requires inside { place + 40 * node_count (shape_of levels.now) ≤ (S.seen source.old).size }
    requires small { place + 40 * node_count (shape_of levels.now) ≤ 2 ^ 48 }
    ensures found { let t = shape_of levels.now in IfOk result (λ found. IfTold (S.seen source.old) (λ image.
        plains found.items ≡ map (hit_of t (stored image place) 0) (hits t (stored image place) (meets_any boxes.now) 0))) }
    ensures next { let t = shape_of levels.now in IfOk result (λ found. IfTold (S.seen source.old) (λ image.
        HaveNext (next_of t (stored image place) (meets_any boxes.now) 0) found.items)) }
    ensures within { IfOk result (λ found. AllByRecursion (λ hit. hit.number < (shape_of levels.now).leaves) (plains found.items)) }
    ensures clean { OnOk result (IfTold (S.seen source.old) (λ image. IsClean (BreaksWanted (shape_of levels.now) (stored image place) (meets_any boxes.now) place))) }
    ensures refused { IfRefused result (λ broken. IfTold (S.seen source.old) (λ image. BreaksWanted (shape_of levels.now) (stored image place) (meets_any boxes.now) place broken.place broken.rule)) }
    ensures reads { let t = shape_of levels.now in OnOk result (IfTold (S.seen source.old) (λ image.
        Reads (IsInside place (place + 40 * node_count t)) (S.seen source.old) (S.seen source.new) (bridged gap (node_positions place (wanted_nodes t (stored image place) (meets_any boxes.now)))))) }
    ensures front { let t = shape_of levels.now in OnErr result (IfTold (S.seen source.old) (λ image.
        ReadsFront (IsInside place (place + 40 * node_count t)) (S.seen source.old) (S.seen source.new) (bridged gap (node_positions place (wanted_nodes t (stored image place) (meets_any boxes.now)))))) }
    ensures keeps { Keeps (S.seen source.old) (S.seen source.new) }
    ensures failed { IsErrOf result ReadStop.SourceFailed → Rose (S.seen source.old).faults (S.seen source.new).faults }
{
    let end = place + NODE as u64 * levels.nodes();
    let mut window = GapWindow::new(alloc, place, end, gap);
    let descent = Descent {
        place,
        levels,
        boxes,
        gap,
    };
    let mut found = descent.root(alloc, &mut window, source)?;
    let mut k = levels.count() - 1;
    while k > 0 {
        k -= 1;
        found = descent.level(alloc, &mut window, source, k, &found)?;
    }
    Ok(found)
}
