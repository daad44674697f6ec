// Laws over what replies are.
ghost use Rattle.std.specs.Prelude.{◌≡◌, ◌++◌, ℕ, List};
ghost use Rattle.range_client.specs.declared.demands.Demand.{Demand as Asked};
ghost use Rattle.range_client.specs.declared.faults.BadKind.{BadKind as Kind};
ghost use Rattle.range_client.specs.Replies.{IsBad, IsReply};

/// No reply that is wanted is a bad one, and a bad one is so in one way. Laws, which do nothing when they are called.
pub fn replies_are_judged_in_one_way()
    ensures wanted { (demand : Asked) (head body kept : List ℕ) (size : ℕ) (kind : Kind) → IsReply demand head body size → ¬ IsBad demand (head ++ body) kept kind }
    ensures one_kind { (demand : Asked) (bytes kept other : List ℕ) (a b : Kind) → IsBad demand bytes kept a → IsBad demand bytes other b → a ≡ b }
{}
