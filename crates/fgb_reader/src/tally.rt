// How many features there are.
ghost use Rattle.std.specs.Prelude.{◌≡◌, ◌+◌, ◌<◌, ◌≤◌, ◌^◌, ◌∷◌, ◌++◌, [], ℕ, List, length, MatchResult};
ghost use Rattle.fgb_file.specs.File.{Agrees, BreaksCount, Walks, told_count};
ghost use Rattle.fgb_reader.specs.Tallies.{Counts, seen_of};

use flat_views::{Broken, Rule};

/// Counts the features of a file, and judges their number by what the header says.
#[derive(Clone, Copy, Debug, PartialEq, Eq)]
pub struct Tally {
    /// What the header says, 0 where it does not say it.
    told: u64,
    seen: u64,
    /// Where the first feature stands that is too many, once it was seen.
    surplus: u64,
}

impl Tally {
    /// None was counted yet, and the header says this number.
    pub fn new(told: u64) -> Tally
        ensures none { seen_of result ≡ 0 }
        ensures counts { (image : List ℕ) (first : ℕ) → told ≡ told_count image → Counts image first [] result }
    {
        Tally {
            told,
            seen: 0,
            surplus: 0,
        }
    }

    /// How many were counted.
    pub fn seen(self) -> u64
        ensures { result ≡ seen_of self }
    {
        self.seen
    }

    /// Counts the feature whose size prefix stands at this place.
    pub fn add(&mut self, place: u64)
        requires { seen_of self.old < 2 ^ 48 }
        ensures more { seen_of self.new ≡ seen_of self.old + 1 }
        ensures counts { (image : List ℕ) (first : ℕ) (pieces : List (List ℕ)) (piece : List ℕ) → Walks image first pieces place
            → Counts image first pieces self.old → Counts image first (pieces ++ piece ∷ []) self.new }
    {
        if self.seen == self.told {
            self.surplus = place;
        }
        self.seen += 1;
    }

    /// The number of features of a file that ends here. Refuses FeatureCount where the header says another: at
    /// the end where there are too few, else at the first that is too many.
    pub fn judge(self, end: u64) -> Result<u64, Broken>
        ensures { (image : List ℕ) (first : ℕ) (pieces : List (List ℕ)) → end ≡ length image → Counts image first pieces self
            → MatchResult result (λ count. Agrees (told_count image) (length pieces) × (count ≡ length pieces)) (λ broken. BreaksCount image first pieces broken.place broken.rule) }
    {
        if self.seen < self.told {
            return Err(Broken {
                place: end,
                rule: Rule::FeatureCount,
            });
        }
        if self.told > 0 && self.seen > self.told {
            return Err(Broken {
                place: self.surplus,
                rule: Rule::FeatureCount,
            });
        }
        Ok(self.seen)
    }
}
