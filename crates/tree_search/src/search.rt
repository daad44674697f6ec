// The search.
ghost use Rattle.std.specs.Prelude.{◌≡◌, ◌+◌, ◌*◌, ◌<◌, ◌≤◌, ◌^◌, map, IfOk, OnOk, OnErr, IsErrOf};
ghost use Rattle.std.specs.List.{AllByRecursion};
ghost use Rattle.flat_layout.specs.Promises.{IsClean};
ghost use Rattle.fgb_outside.specs.Source.{IfTold, Keeps, Rose};
ghost use Rattle.fgb_outside.specs.Asked.{IsInside, Reads, ReadsFront};
ghost use Rattle.level_bounds.specs.Levels.{node_count};
ghost use Rattle.level_bounds.specs.Shapes.{shape_of};
ghost use Rattle.node_items.specs.Nodes.{stored};
ghost use Rattle.read_stop.specs.Stops.{IfRefused};
ghost use Rattle.tree_search.specs.Wanted.{BreaksWanted, hits, meets_box, node_positions, wanted_nodes};
ghost use Rattle.tree_search.specs.Searches.{hit_of};

use crate::level::Descent;
use fgb_outside::RangeSource;
use level_bounds::Levels;
use node_items::{NODE, NodeItem};
use order_keys::Bounds;
use read_stop::ReadStop;
use section_window::Window;
use std::alloc::Global;

/// A node that was found: its place in its level, and the node. A leaf has the number of its feature.
#[derive(Clone, Copy, Debug, PartialEq, Eq)]
pub struct Hit {
    pub number: u64,
    pub item: NodeItem,
}

/// The leaves whose boxes, and those of all nodes above them, meet these bounds, ascending, in the index of a source
/// that begins at this place. Reads just the wanted nodes, ascending, each once. Refuses NodeBox or ChildOffset at a
/// wanted node, or ParentBox at an inner node whose children are wanted.
pub fn search_index<S: RangeSource>(
    alloc: Global,
    source: &mut S,
    place: u64,
    levels: &Levels,
    bounds: Bounds,
) -> Result<Vec<Hit>, ReadStop>
    requires inside { place + 40 * node_count (shape_of levels.now) ≤ (S.seen source.old).size }
    requires small { place + 40 * node_count (shape_of levels.now) ≤ 2 ^ 48 }
    ensures found { let t = shape_of levels.now in IfOk result (λ found. IfTold (S.seen source.old) (λ image.
        found.items ≡ map (hit_of t (stored image place) 0) (hits t (stored image place) (meets_box bounds) 0))) }
    ensures within { IfOk result (λ found. AllByRecursion (λ hit. hit.number < (shape_of levels.now).leaves) found.items) }
    ensures clean { OnOk result (IfTold (S.seen source.old) (λ image. IsClean (BreaksWanted (shape_of levels.now) (stored image place) (meets_box bounds) place))) }
    ensures refused { IfRefused result (λ broken. IfTold (S.seen source.old) (λ image. BreaksWanted (shape_of levels.now) (stored image place) (meets_box bounds) place broken.place broken.rule)) }
    ensures reads { let t = shape_of levels.now in OnOk result (IfTold (S.seen source.old) (λ image.
        Reads (IsInside place (place + 40 * node_count t)) (S.seen source.old) (S.seen source.new) (node_positions place (wanted_nodes t (stored image place) (meets_box bounds))))) }
    ensures front { let t = shape_of levels.now in OnErr result (IfTold (S.seen source.old) (λ image.
        ReadsFront (IsInside place (place + 40 * node_count t)) (S.seen source.old) (S.seen source.new) (node_positions place (wanted_nodes t (stored image place) (meets_box bounds))))) }
    ensures keeps { Keeps (S.seen source.old) (S.seen source.new) }
    ensures failed { IsErrOf result ReadStop.SourceFailed → Rose (S.seen source.old).faults (S.seen source.new).faults }
{
    let mut window = Window::new(alloc, place, place + NODE as u64 * levels.nodes());
    let descent = Descent {
        place,
        levels,
        bounds,
    };
    let mut found = descent.root(alloc, &mut window, source)?;
    let mut k = levels.count() - 1;
    while k > 0 {
        k -= 1;
        found = descent.level(alloc, &mut window, source, k, &found)?;
    }
    Ok(found)
}
