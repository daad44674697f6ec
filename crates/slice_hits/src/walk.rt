// A walk through a file in memory.
ghost use Rattle.std.specs.Prelude.{◌≡◌, ◌<◌, ℕ, List, Ok, None, IfOk, OnErr, OnSome};
ghost use Rattle.order_keys.specs.declared.bounds.Bounds.{Bounds as Box};
ghost use Rattle.found_features.specs.Entries.{Entry};

use crate::scan::Scan;
use crate::search::Search;
use flat_views::Broken;
use found_features::Found;

/// A walk through the features of a file.
#[derive(Drop)]
pub(crate) enum Walk<'a> {
    /// It has ended, or broken off.
    Over,
    /// Through all of them, where there is no index.
    Scanning(Scan<'a>),
    /// Through the index.
    Searching(Search<'a>),
}

impl<'a> Walk<'a> {
    ghost use Rattle.slice_hits.specs.declared.walk.Walk.TheVariants.{Over};
    ghost use Rattle.slice_hits.specs.Answering.{GoesOn};
    ghost use Rattle.slice_hits.specs.Giving.{WalkStands, walk_left};

    /// The next feature that is found, None where no more come.
    pub(crate) fn advance(&mut self) -> Result<Option<Found<'a>>, Broken>
        ensures goes { (image : List ℕ) (boxes : List Box) (entries : List Entry) → WalkStands image boxes entries self.old → GoesOn image boxes entries (λ es. WalkStands image boxes es self.new) result }
        ensures nearer { IfOk result (λ found. OnSome found (walk_left self.new < walk_left self.old)) }
        ensures some { OnErr result (0 < walk_left self.old) }
        ensures over { self.old ≡ Over → result ≡ Ok None }
    {
        match self {
            Walk::Over => Ok(None),
            Walk::Scanning(scan) => scan.advance(),
            Walk::Searching(search) => search.advance(),
        }
    }
}
