// A visitor that keeps what it is handed.
ghost use Rattle.std.specs.Prelude.{◌≡◌, ◌<◌, ◌∷◌, ◌++◌, [], ⊤, ℕ, List, None, length};
ghost use Rattle.found_features.specs.Entries.{Entry};

use crate::visitor::{Found, VisitError, Visitor};
use fgb_header::HeaderView;
use order_keys::Bounds;
use std::alloc::Global;
use std::marker::Model;

/// A feature that is kept.
#[derive(Drop)]
struct Kept {
    number: u64,
    offset: u64,
    bytes: Vec<u8>,
    bounds: Bounds,
}

/// Keeps number, offset, bytes and box of each feature, in order.
#[derive(Drop)]
pub struct Collect {
    alloc: Global,
    kept: Vec<Kept>,
}

impl Model for Collect {
    ghost use Rattle.std.specs.Prelude.{List, map};
    ghost use Rattle.found_features.specs.Entries.{Entry};

    ghost Value = { List Entry };

    ghost view = { λ s. map (λ k. record { number = k.number; offset = k.offset; buffer = k.bytes.items; own = k.bounds }) s.kept.items };
}

impl Collect {
    /// Nothing is kept yet. It takes no memory.
    pub fn new(alloc: Global) -> Collect
        ensures { result ≡ [] }
    {
        Collect {
            alloc,
            kept: Vec::new(alloc),
        }
    }

    /// How many features are kept.
    pub fn len(&self) -> usize
        ensures { result ≡ length self.now }
    {
        self.kept.len()
    }

    /// The i-th: its number, its offset, its bytes and its box.
    pub fn item(&self, i: usize) -> (u64, u64, &[u8], Bounds)
        requires { i < length self.now }
        ensures { (front : List Entry) (e : Entry) (rest : List Entry) → self.now ≡ front ++ e ∷ rest → length front ≡ i
            → record { number = result.0; offset = result.1; buffer = result.2.now; own = result.3 } ≡ e }
    {
        let kept = &self.kept[i];
        (kept.number, kept.offset, &kept.bytes, kept.bounds)
    }
}

/// It tells no header, never stops, and is unchanged where there was no memory.
impl Visitor for Collect {
    ghost start = { λ v _ w. w ≡ v };

    ghost failed_start = { λ v _ w. w ≡ v };

    ghost step = { λ v e w. w ≡ v ++ e ∷ [] };

    ghost failed_step = { λ v _ w. w ≡ v };

    ghost stops = { λ _. 0 };

    ghost told = { λ _. None };

    fn begin(&mut self, _header: &HeaderView) -> Result<(), VisitError> {
        Ok(())
    }

    fn take(&mut self, found: &Found) -> Result<(), VisitError> {
        let bytes = Vec::from_slice(self.alloc, found.bytes)?;
        self.kept.push(Kept {
            number: found.number,
            offset: found.offset,
            bytes,
            bounds: found.bounds,
        })?;
        Ok(())
    }
}
