// Laws over WKB files.
ghost use Rattle.std.specs.Prelude.{◌≡◌, ◌≤◌, ℕ, List, length};
ghost use Rattle.fgb_schema.specs.Shapes.{Shape};
ghost use Rattle.wkb_grammar.specs.Wkb.{Wkb, most_bytes};
ghost use Rattle.wkb_file.specs.Spellings.{HasWkb, SpellingsOf};
ghost use Rattle.wkb_file.specs.Values.{IsWkbFile, ValuesOf};

/// Bytes are a WKB file of at most one list of shapes. A law, which does nothing when it is called.
pub fn files_have_one_list()
    ensures { (shapes others : List Shape) (bytes : List ℕ) → IsWkbFile shapes bytes → IsWkbFile others bytes → shapes ≡ others }
{}

/// The shape of a value has a spelling. A law, which does nothing when it is called.
pub fn values_have_spellings()
    ensures { (g : Shape) (bytes : List ℕ) → Wkb g bytes → HasWkb g }
{}

/// The spellings of the shapes of a WKB file are a WKB file of the same shapes, where they are not too long, and the
/// shapes have no others. A law, which does nothing when it is called.
pub fn spellings_are_files()
    ensures file { (shapes : List Shape) (bytes spelled : List ℕ) → ValuesOf shapes bytes → SpellingsOf shapes spelled → length spelled ≤ most_bytes → IsWkbFile shapes spelled }
    ensures one { (shapes : List Shape) (a b : List ℕ) → SpellingsOf shapes a → SpellingsOf shapes b → a ≡ b }
{}
