// Features up to a limit.
ghost use Rattle.std.specs.Prelude.{◌≡◌, refl};
ghost use Rattle.fgb_reports.specs.States.{cap};

use crate::lines::cap_line;
use crate::reporter::{ReportFault, Reporter};
use found_features::Found;
use std::alloc::{AllocError, Global};

/// Counts features up to a limit, and refuses the next one. Its line is `cap N of L`.
#[derive(Drop)]
pub struct CapReport {
    features: u64,
    limit: u64,
}

impl CapReport {
    /// It has taken no feature, and takes at most so many.
    pub fn new(limit: u64) -> CapReport
        ensures { ⟦<CapReport as Reporter>⟧.shown result ≡ cap 0 limit }
    {
        CapReport { features: 0, limit }
    }
}

impl Reporter for CapReport {
    ghost shown = { λ r. cap r.features r.limit };

    ghost kinds = { λ _. refl };

    #[tactic(auto, unfolding(crate::specs::States::step, crate::specs::States::refuses))]
    fn take(&mut self, found: &Found<'_>) -> Result<(), ReportFault> {
        if self.features == self.limit {
            return Err(ReportFault {
                number: found.number,
            });
        }
        self.features = self.features.saturating_add(1);
        Ok(())
    }

    #[tactic(auto, unfolding(crate::specs::Texts::text_of))]
    fn text(&self, alloc: Global, into: &mut Vec<u8>) -> Result<(), AllocError> {
        let line = cap_line(alloc, self.features, self.limit)?;
        into.extend_from_slice(&line)
    }
}
