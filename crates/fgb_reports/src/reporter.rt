// What a reporter does.
ghost use Rattle.std.specs.Prelude.{◌≡◌, ◌↔◌, ◌++◌, IsTrue, IsErr, OnOk, OnErr, IfErr, true};
ghost use Rattle.found_features.specs.Lent.{entry_of};
ghost use Rattle.fgb_reports.specs.States.{State, is_kind, step, refuses};
ghost use Rattle.fgb_reports.specs.Texts.{text_of};

use found_features::Found;
use std::alloc::{AllocError, Global};

/// A reporter takes no more.
#[derive(Clone, Copy, Debug, PartialEq, Eq)]
pub struct ReportFault {
    /// The number of the feature that it refused.
    pub number: u64,
}

/// Takes the features that a query finds, one after another, and says at the end what it has seen.
pub trait Reporter: Drop {
    // The number of its kind, and its numbers.
    ghost shown: { Self → State };

    /// Takes a feature, or refuses it and stays as it was. No memory is taken.
    fn take(&mut self, found: &Found<'_>) -> Result<(), ReportFault>
        ensures stepped { OnOk result (shown self.new ≡ step (shown self.old) (entry_of found.now)) }
        ensures refused { IsErr result ↔ IsTrue (refuses (shown self.old) (entry_of found.now)) }
        ensures named { IfErr result (λ fault. fault.number ≡ found.now.number) }
        ensures unchanged { OnErr result (shown self.new ≡ shown self.old) }
        ensures kind { (shown self.new).kind ≡ (shown self.old).kind };

    /// Appends its line. Where there is no memory, nothing was appended.
    fn text(&self, alloc: Global, into: &mut Vec<u8>) -> Result<(), AllocError>
        ensures whole { OnOk result (into.new.items ≡ into.old.items ++ text_of (shown self.now)) }
        ensures nothing { OnErr result (into.new.items ≡ into.old.items) };

    ghost kinds: { (reporter : Self) → is_kind (shown reporter).kind ≡ true };
}
