// Laws over which visits miss.
ghost use Rattle.std.specs.Prelude.{◌≡◌, ◌++◌, [], ℕ, List};
ghost use Rattle.fgb_outside.specs.Source.{added};
ghost use Rattle.block_source.specs.Blocks.{block_pairs};
ghost use Rattle.block_source.specs.Cached.{Answered, Cached, Fetches, all_visits};
ghost use Rattle.block_source.specs.Misses.{kept_from, misses, misses_from};

/// What a front of some visits misses is a front of what all of them miss; and over calls from an empty cache on that all
/// answered Ok, the blocks asked for are the misses of all their visits, in order. Laws, which do nothing when they are
/// called.
pub fn misses_add_up()
    ensures front { (kept front rest : List ℕ) (n : ℕ) → misses_from kept (front ++ rest) n ≡ misses_from kept front n ++ misses_from (kept_from kept front n) rest n }
    ensures calls { (old new : Cached) (calls : List (ℕ × ℕ)) → Answered old calls new → Fetches old new (all_visits calls) }
    ensures from_new { (old new : Cached) (calls : List (ℕ × ℕ)) → old.kept ≡ [] → Answered old calls new → new.inner.asked ≡ added old.inner.asked (block_pairs old.inner.size (misses (all_visits calls) old.most)) }
{}
