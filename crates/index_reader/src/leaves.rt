// The leaves of an index of a source.
ghost use Rattle.std.specs.Prelude.{◌≡◌, ℕ, ◌+◌, ◌-◌, ◌*◌, ◌%◌, ◌<◌, ◌≤◌, ◌^◌, IfOk, IsErrOf, MatchOption};
ghost use Rattle.fgb_outside.specs.Source.{IfTold, Rose};
ghost use Rattle.fgb_outside.specs.Asked.{IsInside};
ghost use Rattle.level_bounds.specs.Levels.{Shape, node_count, place as place_of_node};
ghost use Rattle.level_bounds.specs.Shapes.{shape_of};
ghost use Rattle.node_items.specs.Nodes.{stored};
ghost use Rattle.read_stop.specs.Asks.{AsksOnly};

use crate::nodes::read_node;
use fgb_outside::{RangeSource, SourceError};
use level_bounds::Levels;
use node_items::{NODE, NodeItem};
use section_window::Window;
use std::alloc::Global;

/// Goes through the leaves of an index of a source, which it reads in requests of up to 1 MiB.
#[derive(Drop)]
pub struct Leaves {
    window: Window,
    /// Where the index begins, and the number of its first leaf.
    place: u64,
    first: u64,
    /// How many leaves were given.
    given: u64,
    pub ghost stands: { window.at ≡ place + 40 * (first + given) },
    pub ghost whole: { (window.end - window.at) % 40 ≡ 0 },
}

impl Leaves {
    ghost use Rattle.fgb_outside.specs.Source.{Source};
    ghost use Rattle.index_reader.specs.Going.{IsOver, Shows, given_of};

    /// The leaves of the index that begins at this place. It takes no memory, and asks for nothing.
    pub fn new(alloc: Global, place: u64, levels: &Levels) -> Leaves
        requires small { place + 40 * node_count (shape_of levels.now) ≤ 2 ^ 48 }
        ensures over { IsOver result place (shape_of levels.now) }
        ensures none { given_of result ≡ 0 }
        ensures shows { (source : Source) → place + 40 * node_count (shape_of levels.now) ≤ source.size → Shows result source }
    {
        let first = levels.level(0).0;
        let at = place + NODE as u64 * first;
        let end = place + NODE as u64 * levels.nodes();
        Leaves {
            window: Window::new(alloc, at, end),
            place,
            first,
            given: 0,
        }
    }

    /// The next leaf, None after the last. After an error the next call gives the same leaf.
    pub fn next<S: RangeSource>(&mut self, source: &mut S) -> Result<Option<NodeItem>, SourceError>
        requires shows { Shows self.old (S.seen source.old) }
        ensures leaf { (place : ℕ) (t : Shape) → IsOver self.old place t → IfOk result (λ next. MatchOption next
            ((t.leaves ≡ given_of self.old) × (given_of self.new ≡ given_of self.old))
            (λ item. (given_of self.old < t.leaves) × (given_of self.new ≡ given_of self.old + 1)
            × IfTold (S.seen source.old) (λ image. item ≡ stored image place (place_of_node t 0 (given_of self.old))))) }
        ensures over { (place : ℕ) (t : Shape) → IsOver self.old place t → IsOver self.new place t }
        ensures shows { Shows self.new (S.seen source.new) }
        ensures asked { (place : ℕ) (t : Shape) → IsOver self.old place t → AsksOnly (IsInside place (place + 40 * node_count t)) (S.seen source.old) (S.seen source.new) }
        ensures failed { IsErrOf result SourceError.Failed → Rose (S.seen source.old).faults (S.seen source.new).faults }
    {
        if self.window.at() == self.window.end() {
            return Ok(None);
        }
        let item = read_node(&mut self.window, source)?;
        self.given += 1;
        Ok(Some(item))
    }

    /// Where the leaf stands that was given last, in the file.
    pub fn place(&self) -> u64
        requires { 0 < given_of self.now }
        ensures { (place : ℕ) (t : Shape) → IsOver self.now place t → result + 40 ≡ place + 40 * place_of_node t 0 (given_of self.now) }
    {
        self.window.at() - NODE as u64
    }
}
