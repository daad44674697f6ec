// How many features there are.
ghost use Rattle.std.specs.Prelude.{◌≡◌, refl};
ghost use Rattle.fgb_reports.specs.States.{count};

use crate::lines::number_line;
use crate::reporter::{ReportFault, Reporter};
use found_features::Found;
use std::alloc::{AllocError, Global};

/// Counts features, up to 2^64 - 1. Its line is `count N`.
#[derive(Drop)]
pub struct CountReport {
    features: u64,
}

impl CountReport {
    /// It has taken no feature.
    pub fn new() -> CountReport
        ensures { ⟦<CountReport as Reporter>⟧.shown result ≡ count 0 }
    {
        CountReport { features: 0 }
    }
}

impl Reporter for CountReport {
    ghost shown = { λ r. count r.features };

    ghost kinds = { λ _. refl };

    #[tactic(auto, unfolding(crate::specs::States::step, crate::specs::States::refuses))]
    fn take(&mut self, _found: &Found<'_>) -> Result<(), ReportFault> {
        self.features = self.features.saturating_add(1);
        Ok(())
    }

    #[tactic(auto, unfolding(crate::specs::Texts::text_of))]
    fn text(&self, alloc: Global, into: &mut Vec<u8>) -> Result<(), AllocError> {
        let line = number_line(alloc, b"count ", self.features)?;
        into.extend_from_slice(&line)
    }
}
