// A search finds what a scan of all leaves finds.
ghost use Rattle.std.specs.Prelude.{◌≡◌, ℕ};
ghost use Rattle.std.specs.List.{filter, range_with_len};
ghost use Rattle.flat_layout.specs.Promises.{IsClean};
ghost use Rattle.order_keys.specs.declared.bounds.Bounds.{Bounds};
ghost use Rattle.level_bounds.specs.Levels.{IsShape, Shape};
ghost use Rattle.node_items.specs.declared.item.NodeItem.{NodeItem};
ghost use Rattle.node_items.specs.Faults.{BreaksTree};
ghost use Rattle.tree_search.specs.Wanted.{hits, meets_box, passes};

/// In a tree that breaks no rule the leaves that are found are all leaves whose boxes meet the box. A law, which does
/// nothing when it is called.
pub fn search_is_scan()
    ensures { (t : Shape) (nodes : ℕ → NodeItem) (at : ℕ) (box : Bounds) → IsShape t → IsClean (BreaksTree t nodes at)
        → hits t nodes (meets_box box) 0 ≡ filter (passes t nodes (meets_box box) 0) (range_with_len 0 t.leaves) }
{}
