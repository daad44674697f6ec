//! What is laid reads back: a law that ties the writer's layout to the reader's.
//!
//! `laid` of `flat_builder` gives the bytes of a tree of tables; the words of `flat_layout` say what a reader finds in
//! bytes. [`laid_reads_back`] says that a reader finds just the tree (`Lies` in `specs/Lies.antt`), and that reading all
//! of it weighs no more than its bytes. It does nothing when it is called.
#![tactic(auto)]

ghost use Rattle.std.specs.Prelude.{◌≡◌, ◌<◌, ◌≤◌, ◌^◌, true, length};
ghost use Rattle.flat_layout.specs.Layout.{is_offset, target};
ghost use Rattle.flat_builder.specs.Trees.{Fields, table};
ghost use Rattle.flat_builder.specs.Laying.{laid};
ghost use Rattle.flat_laid.specs.Lies.{Lies};
ghost use Rattle.flat_laid.specs.Trees.{AreLayable, item_weight};

/// A buffer in which a tree of tables is laid leads from its root to that tree, and to nothing else.
pub fn laid_reads_back()
    ensures root { (fs : Fields) → AreLayable fs → length (laid fs) < 2 ^ 31 → is_offset (laid fs) 0 ≡ true }
    ensures tree { (fs : Fields) → AreLayable fs → length (laid fs) < 2 ^ 31 → Lies (laid fs) (table fs) (target (laid fs) 0) }
    ensures weight { (fs : Fields) → AreLayable fs → item_weight (table fs) ≤ length (laid fs) }
{}
