// What holds of files.
ghost use Rattle.std.specs.Prelude.{◌≡◌, ℕ, List, Some};
ghost use Rattle.fgb_outside.specs.Asked.{Ascends};
ghost use Rattle.level_bounds.specs.Levels.{Shape};
ghost use Rattle.fgb_file.specs.File.{IsFile, first_place};
ghost use Rattle.hit_reader.specs.Asking.{feature_positions};
ghost use Rattle.box_search.specs.declared.nodes.Hit.{Hit};
ghost use Rattle.hit_runs.specs.Laid.{AreLaid, hit_positions};
ghost use Rattle.hit_runs.specs.Leaves.{AreLeaves};

/// In a file that breaks no rule the features of any leaves of its index, ascending, stand one behind another, and end
/// where the next ones begin.
pub fn files_are_laid()
    ensures laid { (image : List ℕ) (t : Shape) (pieces : List (List ℕ)) (hits : List Hit) (leaves : List ℕ) → IsFile image (Some t) pieces → Ascends 0 t.leaves leaves → AreLeaves image t hits leaves
        → AreLaid image (first_place image (Some t)) hits }
    ensures positions { (image : List ℕ) (t : Shape) (pieces : List (List ℕ)) (hits : List Hit) (leaves : List ℕ) → IsFile image (Some t) pieces → AreLeaves image t hits leaves
        → hit_positions image (first_place image (Some t)) hits ≡ feature_positions image t leaves }
{}
