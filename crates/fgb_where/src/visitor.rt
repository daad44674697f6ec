// A visitor that hands on the features for which a condition holds.
ghost use Rattle.std.specs.Prelude.{◌≡◌, ◌⊎◌, ◌+◌, ◌≤◌, None, Some, OnOk, OnErr, IsErrOf};
ghost use Rattle.std.specs.Option.{option_map};
ghost use Rattle.fgb_outside.specs.Source.{Rose};
ghost use Rattle.fgb_schema.specs.Headers.{Header};
ghost use Rattle.fgb_header.specs.Views.{header_shown};
ghost use Rattle.found_features.specs.Entries.{IsSound};
ghost use Rattle.found_features.specs.Lent.{entry_of, header_bytes};
ghost use Rattle.found_features.specs.Visits.{TellsOnly};
ghost use Rattle.fgb_where.specs.Filtering.{FailsStart, FailsStep, IsRefused, Starts, Steps, Under, passes};

use crate::kept::Kept;
use crate::words::Condition;
use fgb_header::HeaderView;
use flat_views::Broken;
use found_features::{Found, VisitError, Visitor};
use std::alloc::Global;
use std::marker::Model;

/// Hands the features for which a condition holds to the visitor inside.
#[derive(Drop)]
pub struct WhereVisitor<'a, V: Visitor> {
    alloc: Global,
    condition: Condition<'a>,
    /// The header under which features are read again, and the condition bound under it.
    kept: Option<Kept<'a>>,
    /// Why the condition was refused last.
    refused: Option<Broken>,
    /// How often it was refused.
    refusals: u64,
    inner: V,
}

impl<'a, V: Visitor> Model for WhereVisitor<'a, V> {
    ghost use Rattle.std.specs.Option.{ForSome, option_map};
    ghost use Rattle.fgb_schema.specs.Headers.{header_of};
    ghost use Rattle.found_features.specs.Visits.{TellsOnly};
    ghost use Rattle.fgb_where.specs.Filtering.{State};
    ghost use Rattle.fgb_where.specs.Keeping.{under_in};

    ghost Value = { State V };

    ghost view = { λ s. record { condition = s.condition; kept = option_map under_in s.kept; refused = s.refused; refusals = s.refusals; inner = s.inner } };

    // the visitor inside reads features again under the same header, if it does
    ghost invariant = { λ s. ForSome s.kept (λ kept. TellsOnly (header_of kept.bytes.items) (V.told s.inner)) };
}

impl<'a, V: Visitor> WhereVisitor<'a, V> {
    /// Keeps no header yet, and was not refused. It takes no memory.
    pub fn new(alloc: Global, condition: Condition<'a>, inner: V) -> WhereVisitor<'a, V>
        ensures { result ≡ record { condition = condition.entry; kept = None; refused = None; refusals = 0; inner = inner } }
    {
        WhereVisitor {
            alloc,
            condition,
            kept: None,
            refused: None,
            refusals: 0,
            inner,
        }
    }

    /// The last refusal of the condition, or None where it was never refused.
    pub fn refused(&self) -> Option<Broken>
        ensures { result ≡ self.now.refused }
    {
        self.refused
    }

    /// The visitor inside.
    pub fn into_inner(self) -> V
        ensures { result ≡ self.entry.inner }
    {
        self.inner
    }

    /// Whether a header is kept, and the condition holds under it for a feature.
    fn passes(&self, found: &Found) -> bool
        requires { (header : Header) → option_map (λ (under : Under). under.header) self.now.kept ≡ Some header → IsSound header (entry_of found.now) }
        ensures { result ≡ passes self.now.kept (entry_of found.now) }
    {
        match &self.kept {
            Some(kept) => kept.passes(found),
            None => false,
        }
    }
}

/// It tells the header that it keeps: from a `begin` that succeeds until one that fails. It stops where the condition is
/// refused, and where the visitor inside stops.
impl<'a, V: Visitor> Visitor for WhereVisitor<'a, V> {
    ghost start = { λ a h b. Starts V.start a h b };

    ghost failed_start = { λ a h b. FailsStart V.failed_start a h b };

    ghost step = { λ a e b. Steps V.step a e b };

    ghost failed_step = { λ a e b. FailsStep V.failed_step a e b };

    ghost stops = { λ a. V.stops a.inner + a.refusals };

    ghost told = { λ a. option_map (λ (under : Under). under.header) a.kept };

    fn begin(&mut self, header: &HeaderView) -> Result<(), VisitError>
        ensures started { OnOk result (Starts V.start self.old (header_shown header.now) self.new) }
        ensures failed { OnErr result (FailsStart V.failed_start self.old (header_bytes header.now) self.new) }
        ensures told { OnOk result (TellsOnly (header_shown header.now) (option_map (λ (under : Under). under.header) self.new.kept)) }
        ensures later { V.stops self.old.inner + self.old.refusals ≤ V.stops self.new.inner + self.new.refusals }
        ensures stopped { IsErrOf result VisitError.Stopped → Rose (V.stops self.old.inner + self.old.refusals) (V.stops self.new.inner + self.new.refusals) }
        // it stops at a rule that the condition breaks, which is then what `refused` gives, or where the visitor inside does
        ensures cause { IsErrOf result VisitError.Stopped
            → IsRefused self.old (header_bytes header.now) self.new ⊎ Rose (V.stops self.old.inner) (V.stops self.new.inner) }
    {
        self.kept = None;
        let bound = match self.condition.bind(header) {
            Ok(bound) => bound,
            Err(broken) => {
                self.refused = Some(broken);
                self.refusals = self.refusals.saturating_add(1);
                return Err(VisitError::Stopped);
            }
        };
        let kept = Kept::of(self.alloc, header, bound)?;
        self.inner.begin(header)?;
        self.kept = Some(kept);
        Ok(())
    }

    fn take(&mut self, found: &Found) -> Result<(), VisitError>
        requires sound { (header : Header) → option_map (λ (under : Under). under.header) self.old.kept ≡ Some header → IsSound header (entry_of found.now) }
        ensures stepped { OnOk result (Steps V.step self.old (entry_of found.now) self.new) }
        ensures failed { OnErr result (FailsStep V.failed_step self.old (entry_of found.now) self.new) }
        ensures told { option_map (λ (under : Under). under.header) self.new.kept ≡ option_map (λ (under : Under). under.header) self.old.kept }
        ensures later { V.stops self.old.inner + self.old.refusals ≤ V.stops self.new.inner + self.new.refusals }
        ensures stopped { IsErrOf result VisitError.Stopped → Rose (V.stops self.old.inner + self.old.refusals) (V.stops self.new.inner + self.new.refusals) }
        // it stops where the visitor inside does
        ensures cause { IsErrOf result VisitError.Stopped → Rose (V.stops self.old.inner) (V.stops self.new.inner) }
    {
        if self.passes(found) {
            self.inner.take(found)
        } else {
            Ok(())
        }
    }
}
