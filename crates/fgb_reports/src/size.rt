// How many bytes there are.
ghost use Rattle.std.specs.Prelude.{◌≡◌, refl};
ghost use Rattle.fgb_reports.specs.States.{size};

use crate::lines::number_line;
use crate::reporter::{ReportFault, Reporter};
use found_features::Found;
use std::alloc::{AllocError, Global};

/// Adds up the bytes of features' buffers, without their size prefixes, up to 2^64 - 1. Its line is `size N`.
#[derive(Drop)]
pub struct SizeReport {
    bytes: u64,
}

impl SizeReport {
    /// It has taken no feature.
    pub fn new() -> SizeReport
        ensures { ⟦<SizeReport as Reporter>⟧.shown result ≡ size 0 }
    {
        SizeReport { bytes: 0 }
    }
}

impl Reporter for SizeReport {
    ghost shown = { λ r. size r.bytes };

    ghost kinds = { λ _. refl };

    #[tactic(auto, unfolding(crate::specs::States::step, crate::specs::States::refuses))]
    fn take(&mut self, found: &Found<'_>) -> Result<(), ReportFault> {
        self.bytes = self.bytes.saturating_add(found.bytes.len() as u64);
        Ok(())
    }

    #[tactic(auto, unfolding(crate::specs::Texts::text_of))]
    fn text(&self, alloc: Global, into: &mut Vec<u8>) -> Result<(), AllocError> {
        let line = number_line(alloc, b"size ", self.bytes)?;
        into.extend_from_slice(&line)
    }
}
