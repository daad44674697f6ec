// The query of a file that breaks no rule.
ghost use Rattle.std.specs.Prelude.{◌≡◌, ◌<◌, ◌^◌, ⊤, ℕ, List, Option, None, IfOk, length};
ghost use Rattle.level_bounds.specs.Levels.{Shape};
ghost use Rattle.fgb_outside.specs.Asked.{positions};
ghost use Rattle.fgb_file.specs.File.{IsFile, IsValid, header_in};
ghost use Rattle.found_features.specs.Entries.{found};
ghost use Rattle.make_command.specs.Queries.{AreLines};

use crate::kept::Kept;
use box_list::Boxes;
use box_query::{Found, QueryError, VisitError, Visitor, query, searches_are_scans};
use fgb_header::HeaderView;
use fgb_outside::{MemorySource, PlainSource};
use std::alloc::{AllocError, Global};
use text_query::{Output, TextError, write_found};

/// The lines of the features that a query finds.
#[derive(Drop)]
pub(crate) struct Lines {
    pub(crate) text: Vec<u8>,
    /// How many positions were asked for.
    pub(crate) asked: u64,
}

/// The lines of the features of a file that meet one of these boxes.
pub(crate) fn lines_of(alloc: Global, image: &[u8], boxes: &Boxes) -> Result<Lines, AllocError>
    requires { IsValid image.now }
    ensures { IfOk result (AreLines image.now boxes.now) }
{
    let mut file = MemorySource::new(alloc, image, &[])?;
    let mut out = Kept::new(alloc);
    match write_found(alloc, boxes, 0, Output::Lines, &mut file, &mut out) {
        Ok(()) => Ok(Lines {
            text: out.bytes,
            asked: count_positions(file.asked()),
        }),
        // A source in memory fails only where it is told to.
        Err(TextError::SourceFailed | TextError::Memory) => Err(AllocError),
        Err(TextError::Refused(_)) => unreachable!(),
        Err(TextError::SinkFailed) => unreachable!(),
        Err(TextError::TooLarge) => unreachable!(),
    }
}

/// How many positions some pairs (place, length) stand for.
fn count_positions(pairs: &[(u64, u64)]) -> u64
    requires { length (positions pairs.now) < 2 ^ 64 }
    ensures { result ≡ length (positions pairs.now) }
{
    let mut count = 0;
    for pair in pairs {
        count += pair.1;
    }
    count
}

/// How many features of a file meet one of these boxes.
pub(crate) fn count_found(alloc: Global, image: &[u8], boxes: &Boxes) -> Result<u64, AllocError>
    requires { IsValid image.now }
    ensures { IfOk result (λ count. (index : Option Shape) (pieces : List (List ℕ)) → IsFile image.now index pieces
        → count ≡ length (found (header_in image.now) boxes.now pieces)) }
{
    let mut file = PlainSource::new(image);
    let mut nobody = Nobody {};
    searches_are_scans();
    match query(alloc, &mut file, boxes, 0, &mut nobody) {
        Ok(done) => Ok(done.found),
        Err(QueryError::Memory) => Err(AllocError),
        Err(QueryError::Refused(_)) => unreachable!(),
        Err(QueryError::SourceFailed) => unreachable!(),
        Err(QueryError::VisitorStopped) => unreachable!(),
    }
}

/// A visitor that does nothing with what it is handed, and never stops.
#[derive(Drop)]
struct Nobody {}

impl Visitor for Nobody {
    ghost start = { λ _ _ _. ⊤ };

    ghost failed_start = { λ _ _ _. ⊤ };

    ghost step = { λ _ _ _. ⊤ };

    ghost failed_step = { λ _ _ _. ⊤ };

    ghost stops = { λ _. 0 };

    ghost told = { λ _. None };

    fn begin(&mut self, _header: &HeaderView) -> Result<(), VisitError> {
        Ok(())
    }

    fn take(&mut self, _found: &Found) -> Result<(), VisitError> {
        Ok(())
    }
}
