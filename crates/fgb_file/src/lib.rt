//! What a FlatGeobuf file is, as a list of bytes.
//!
//! The definitions in `specs/File.antt` say which files break no rule (`IsFile`), which rule is broken at which place
//! (`BreaksFile`) and in which unit first (`BreaksFirst`), and which parts of a source may be asked for (`IsDeclared`).
//! The crates above promise what stands here. The two calls are laws over the definitions, and do nothing when they
//! run.
#![tactic(auto)]

ghost use Rattle.std.specs.Prelude.{◌≡◌, ℕ, List, Option};
ghost use Rattle.flat_layout.specs.declared.Broken.{Broken};
ghost use Rattle.level_bounds.specs.Levels.{Shape};
ghost use Rattle.fgb_file.specs.File.{IsValid, IsFile, BreaksFirst};

/// A file breaks no rule exactly where it is a start, a header, an index where the header says so, and features
/// that break none, and then there is one such index and one list of its features.
pub fn files_are_features()
    ensures whole { (image : List ℕ) → IsValid image → (index : Option Shape) × (pieces : List (List ℕ)) × IsFile image index pieces }
    ensures sound { (image : List ℕ) (index : Option Shape) (pieces : List (List ℕ)) → IsFile image index pieces → IsValid image }
    ensures one { (image : List ℕ) (index : Option Shape) (pieces : List (List ℕ)) (other : Option Shape) (others : List (List ℕ))
        → IsFile image index pieces → IsFile image other others → (index ≡ other) × (pieces ≡ others) }
{}

/// A refusal that names what is broken in the first broken unit comes only of a file that breaks a rule;
/// there is one such unit; and a file of which no such refusal can come breaks no rule.
pub fn refusals_are_of_invalid_files()
    ensures first { (image : List ℕ) (e : Broken) → BreaksFirst image e → IsValid image → ⊥ }
    ensures one { (image : List ℕ) (e f : Broken) (a : BreaksFirst image e) (b : BreaksFirst image f) → a.unit ≡ b.unit }
    ensures some { (image : List ℕ) → ((e : Broken) → BreaksFirst image e → ⊥) → IsValid image }
{}
