// The box that contains all features.
ghost use Rattle.std.specs.Prelude.{◌≡◌, refl};
ghost use Rattle.order_keys.specs.Boxes.{empty};
ghost use Rattle.fgb_reports.specs.States.{extent};

use crate::lines::extent_line;
use crate::reporter::{ReportFault, Reporter};
use found_features::Found;
use order_keys::Bounds;
use std::alloc::{AllocError, Global};

/// Joins the boxes of features. Its line is `extent` and the four patterns of the join, each of sixteen lower-case
/// hexadecimal digits, or `extent none` where that is the empty box.
#[derive(Drop)]
pub struct ExtentReport {
    bounds: Bounds,
}

impl ExtentReport {
    /// It has taken no feature.
    pub fn new() -> ExtentReport
        ensures { ⟦<ExtentReport as Reporter>⟧.shown result ≡ extent empty }
    {
        ExtentReport {
            bounds: Bounds::empty(),
        }
    }
}

impl Reporter for ExtentReport {
    ghost shown = { λ r. extent r.bounds };

    ghost kinds = { λ _. refl };

    #[tactic(auto, using(crate::proofs::Joins::extended), unfolding(crate::specs::States::refuses))]
    fn take(&mut self, found: &Found<'_>) -> Result<(), ReportFault> {
        self.bounds = self.bounds.join(found.bounds);
        Ok(())
    }

    #[tactic(auto, unfolding(crate::specs::Texts::text_of))]
    fn text(&self, alloc: Global, into: &mut Vec<u8>) -> Result<(), AllocError> {
        let line = extent_line(alloc, self.bounds)?;
        into.extend_from_slice(&line)
    }
}
