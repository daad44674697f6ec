// A law over what is written.
ghost use Rattle.std.specs.Prelude.{◌≡◌, ℕ, List};
ghost use Rattle.fgb_schema.specs.Shapes.{Shape};
ghost use Rattle.wkb_writer.specs.Dimensions.{HasNoWkb};
ghost use Rattle.wkb_writer.specs.Wkb.{IsEwkb, IsWkb};

/// A shape has one spelling as WKB, and one as EWKB with the number of a reference system, or it is refused. A law, which does nothing when it is called.
pub fn spellings_are_one()
    ensures one { (g : Shape) (a b : List ℕ) → IsWkb g a → IsWkb g b → a ≡ b }
    ensures extended { (srid : ℕ) (g : Shape) (a b : List ℕ) → IsEwkb srid g a → IsEwkb srid g b → a ≡ b }
    ensures not_both { (g : Shape) (bytes : List ℕ) → IsWkb g bytes → HasNoWkb g → ⊥ }
{}
