//! What is read of the tables of a FlatGeobuf file, and what is broken along the way.
//!
//! The definitions in `specs/` name the tables (`Tables`: a header, a column, a feature, a geometry, and the
//! fields that are read of each), go along their fields (`Paths`: `Breaks` says which rule is broken at which
//! place of a buffer), weigh the paths (`Weights`: `Weighs`, and `BreaksBuffer`, which says what a whole
//! buffer breaks), and say what a buffer shows (`Headers`: `header_of`; `Shapes`: `shape_at`, `points`;
//! `Features`: `feature_of`, `own_box`). The crates above read buffers, and promise what stands here. The one
//! call is a law over the definitions, and does nothing when it runs.
#![tactic(auto)]

ghost use Rattle.std.specs.Prelude.{◌≡◌, ◌<◌, ◌↔◌, ℕ, List};
ghost use Rattle.fgb_schema.specs.Paths.{Part};
ghost use Rattle.fgb_schema.specs.Weights.{IsHeavier, Weighs};

/// A part of a buffer has at most one weight, and is heavier than a limit exactly where its weight is above
/// it: what a reader under a meter takes off is what the rule Weight is about.
pub fn weights_decide()
    ensures one { (b : List ℕ) (x : Part) (v w : ℕ) → Weighs b x v → Weighs b x w → v ≡ w }
    ensures heavier { (b : List ℕ) (x : Part) (w limit : ℕ) → Weighs b x w → (IsHeavier b x limit ↔ limit < w) }
{}
