// The order of features is determined by their boxes.
ghost use Rattle.std.specs.Prelude.{◌≡◌, ℕ, List};
ghost use Rattle.std.specs.List.{AllByRecursion};
ghost use Rattle.order_keys.specs.declared.bounds.Bounds.{Bounds};
ghost use Rattle.order_keys.specs.Boxes.{IsBox};
ghost use Rattle.feature_order.specs.Order.{IsOrder};

/// Features have one order. A law, which does nothing when it is called.
pub fn orders_are_one()
    ensures one { (boxes : List Bounds) (a b : List ℕ) → AllByRecursion IsBox boxes → IsOrder boxes a → IsOrder boxes b → a ≡ b }
{}
