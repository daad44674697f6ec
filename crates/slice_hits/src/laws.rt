// What the items of a run are.
ghost use Rattle.std.specs.Prelude.{◌≡◌, ℕ, List, [], map, true, IfOk, Option, Ok, Result};
ghost use Rattle.std.specs.Iterator.{Drains, Yields};
ghost use Rattle.std.specs.List.{AllByRecursion};
ghost use Rattle.flat_layout.specs.declared.Broken.{Broken};
ghost use Rattle.order_keys.specs.declared.bounds.Bounds.{Bounds};
ghost use Rattle.box_list.specs.Lists.{meets_any};
ghost use Rattle.level_bounds.specs.Levels.{Shape};
ghost use Rattle.fgb_file.specs.File.{IsFile, header_in};
ghost use Rattle.found_features.specs.Entries.{found};
ghost use Rattle.found_features.specs.declared.visitor.Found.{Found};
ghost use Rattle.slice_hits.specs.declared.hits.Hits.{Hits};
ghost use Rattle.slice_hits.specs.Giving.{AllGiven, HasGiven, IsGiven, IsStep, outcome};

use box_query::searches_are_scans;

/// On a file that breaks no rule an iterator that has given nothing gives just the features that a filter over all of
/// them finds, each as Ok, and ends. On any bytes what it gives is a front of what is found, and at last what is broken
/// behind that; the own box of each feature meets one of the boxes; and where it ends without an Err, it has given all that is
/// found, and no rule is broken in what it met. A law, which does nothing when it is called.
pub fn hits_are_found()
    ensures whole { (image : List ℕ) (index : Option Shape) (pieces : List (List ℕ)) (boxes : List Bounds) (hits : Hits) (items : List (Result Found Broken))
        → IsFile image index pieces → HasGiven image boxes [] hits → Drains IsStep hits items → map outcome items ≡ map Ok (found (header_in image) boxes pieces) }
    ensures any { (image : List ℕ) (boxes : List Bounds) (hits rest : Hits) (items : List (Result Found Broken))
        → HasGiven image boxes [] hits → Yields IsStep hits items rest → IsGiven image boxes (map outcome items) }
    ensures meets { (image : List ℕ) (boxes : List Bounds) (hits rest : Hits) (items : List (Result Found Broken))
        → HasGiven image boxes [] hits → Yields IsStep hits items rest → AllByRecursion (λ item. IfOk item (λ found. meets_any boxes found.bounds ≡ true)) items }
    ensures all { (image : List ℕ) (boxes : List Bounds) (hits : Hits) (items : List (Result Found Broken))
        → HasGiven image boxes [] hits → Drains IsStep hits items → AllGiven image boxes (map outcome items) }
{
    searches_are_scans();
}
