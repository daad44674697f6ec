// A search of an index finds what a filter over all features finds.
ghost use Rattle.std.specs.Prelude.{◌≡◌, ◌++◌, ℕ, List, Option};
ghost use Rattle.order_keys.specs.declared.bounds.Bounds.{Bounds};
ghost use Rattle.flat_layout.specs.declared.Broken.{Broken};
ghost use Rattle.level_bounds.specs.Levels.{Shape};
ghost use Rattle.fgb_file.specs.File.{BreaksFirst, IsFile, IsUnindexed, header_in};
ghost use Rattle.found_features.specs.Entries.{Entry, found};
ghost use Rattle.box_query.specs.Answers.{Answers, AnswersPart, Refuses};

/// On a file that breaks no rule what a query finds is the filter over all its features, with an index or without one;
/// what is known of it at any time is a front of that; and the query is not refused. Without an index a refusal names
/// the first unit that breaks a rule. A law, which does nothing when it is called.
pub fn searches_are_scans()
    ensures whole { (image : List ℕ) (index : Option Shape) (pieces : List (List ℕ)) (boxes : List Bounds) (entries : List Entry)
        → IsFile image index pieces → Answers image boxes entries → entries ≡ found (header_in image) boxes pieces }
    ensures part { (image : List ℕ) (index : Option Shape) (pieces : List (List ℕ)) (boxes : List Bounds) (entries : List Entry)
        → IsFile image index pieces → AnswersPart image boxes entries → (rest : List Entry) × (entries ++ rest ≡ found (header_in image) boxes pieces) }
    ensures never { (image : List ℕ) (index : Option Shape) (pieces : List (List ℕ)) (boxes : List Bounds) (broken : Broken) (entries : List Entry)
        → IsFile image index pieces → Refuses image boxes broken entries → ⊥ }
    ensures first { (image : List ℕ) (boxes : List Bounds) (broken : Broken) (entries : List Entry)
        → IsUnindexed image → Refuses image boxes broken entries → BreaksFirst image broken }
{}
