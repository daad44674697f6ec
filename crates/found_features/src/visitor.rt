// What takes the features that are found.
ghost use Rattle.std.specs.Prelude.{◌≡◌, ◌≤◌, ℕ, Option, Some, OnOk, OnErr, IsErrOf};
ghost use Rattle.fgb_outside.specs.Source.{Rose};
ghost use Rattle.fgb_schema.specs.Headers.{Header};
ghost use Rattle.fgb_header.specs.Views.{header_shown};
ghost use Rattle.found_features.specs.declared.visitor.VisitError.TheVariants.{Memory, Stopped};
ghost use Rattle.found_features.specs.Entries.{Entry, IsSound};
ghost use Rattle.found_features.specs.Visits.{HeaderBytes, TellsOnly};
ghost use Rattle.found_features.specs.Lent.{entry_of, header_bytes};

use fgb_header::HeaderView;
use order_keys::Bounds;
use std::alloc::{AllocError, AllocFailed};

/// A feature that was found.
#[derive(Clone, Copy)]
pub struct Found<'a> {
    /// Its number in the file, from 0 on.
    pub number: u64,
    /// The place of its size prefix, from the first feature's on.
    pub offset: u64,
    /// Its buffer, without the size prefix (FlatGeobuf, feature.fbs).
    pub bytes: &'a [u8],
    /// Its own box: that of all its points, or the empty box.
    pub bounds: Bounds,
}

/// Why a visitor takes no more.
#[derive(Clone, Copy, Debug, PartialEq, Eq)]
pub enum VisitError {
    /// The visitor stopped, and has counted a stop.
    Stopped,
    /// There was no memory.
    Memory,
}

impl From<AllocError> for VisitError {
    ghost from_gives = { λ _ e. e ≡ Memory };

    fn from(_: AllocError) -> Self {
        VisitError::Memory
    }
}

impl<T: Drop> From<AllocFailed<T>> for VisitError {
    ghost from_gives = { λ _ e. e ≡ Memory };

    fn from(_: AllocFailed<T>) -> Self {
        VisitError::Memory
    }
}

/// Takes the features that are found, one after another.
pub trait Visitor {
    // The visitor before a call of `begin` that succeeds, the header, and the visitor after it; and the same of a call
    // that fails, with the header's bytes.
    ghost start: { Self → Header → Self → Type 0 };

    ghost failed_start: { Self → HeaderBytes → Self → Type 0 };

    // The same of `take` and the feature.
    ghost step: { Self → Entry → Self → Type 0 };

    ghost failed_step: { Self → Entry → Self → Type 0 };

    // How often it has stopped.
    ghost stops: { Self → ℕ };

    // The header under which it reads features again, if it does.
    ghost told: { Self → Option Header };

    /// Begins with the features of a file with this header. Called once, before any feature is taken.
    fn begin(&mut self, header: &HeaderView) -> Result<(), VisitError>
        ensures started { OnOk result (start self.old (header_shown header.now) self.new) }
        ensures failed { OnErr result (failed_start self.old (header_bytes header.now) self.new) }
        ensures told { OnOk result (TellsOnly (header_shown header.now) (told self.new)) }
        ensures later { stops self.old ≤ stops self.new }
        ensures stopped { IsErrOf result Stopped → Rose (stops self.old) (stops self.new) };

    /// Takes a feature.
    fn take(&mut self, found: &Found) -> Result<(), VisitError>
        requires sound { (header : Header) → told self.old ≡ Some header → IsSound header (entry_of found.now) }
        ensures stepped { OnOk result (step self.old (entry_of found.now) self.new) }
        ensures failed { OnErr result (failed_step self.old (entry_of found.now) self.new) }
        ensures told { told self.new ≡ told self.old }
        ensures later { stops self.old ≤ stops self.new }
        ensures stopped { IsErrOf result Stopped → Rose (stops self.old) (stops self.new) };
}
