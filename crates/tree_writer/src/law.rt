// What is written is a tree that breaks no rule.
ghost use Rattle.std.specs.Prelude.{◌≡◌, ℕ, ◌+◌, ◌*◌, ◌^◌, ◌≤◌, ◌++◌, true, List, length};
ghost use Rattle.std.specs.List.{AllByRecursion};
ghost use Rattle.flat_layout.specs.Promises.{IsClean};
ghost use Rattle.order_keys.specs.Boxes.{is_box};
ghost use Rattle.level_bounds.specs.Levels.{IsNode, IsShape, Shape, node_count, place};
ghost use Rattle.node_items.specs.declared.item.NodeItem.{NodeItem};
ghost use Rattle.node_items.specs.Faults.{BreaksTree};
ghost use Rattle.node_items.specs.Nodes.{stored};
ghost use Rattle.tree_writer.specs.Packed.{IsStorable, packed, packed_bytes};

/// In a file that has the bytes of a packed tree at some place, where eight bytes hold each number, each node is stored
/// under its number, and no node breaks a rule where each leaf has a box. A law, which does nothing when it is called.
pub fn packed_trees_are_sound()
    ensures long { (t : Shape) (leaves : List NodeItem) → IsShape t → length leaves ≡ t.leaves → length (packed_bytes t leaves) ≡ 40 * node_count t }
    ensures nodes { (t : Shape) (leaves : List NodeItem) (front back : List ℕ) (k i : ℕ) → IsShape t → node_count t ≤ 2 ^ 64
        → length leaves ≡ t.leaves → AllByRecursion IsStorable leaves → IsNode t k i
        → stored (front ++ packed_bytes t leaves ++ back) (length front) (place t k i) ≡ packed t leaves k i }
    ensures sound { (t : Shape) (leaves : List NodeItem) (front back : List ℕ) → IsShape t → node_count t ≤ 2 ^ 64
        → length leaves ≡ t.leaves → AllByRecursion IsStorable leaves → AllByRecursion (λ leaf. is_box leaf.bounds ≡ true) leaves
        → IsClean (BreaksTree t (stored (front ++ packed_bytes t leaves ++ back) (length front)) (length front)) }
{}
