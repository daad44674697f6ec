// Parts of a source, copied.
ghost use Rattle.std.specs.Prelude.{◌≡◌, ◌+◌, ◌^◌, ◌<◌, ◌≤◌, ◌++◌, ℕ, List, [], length, OnOk, IsErrOf};
ghost use Rattle.std.specs.Option.{ForSome};
ghost use Rattle.std.specs.List.{AllByRecursion, flat_map};
ghost use Rattle.fgb_outside.specs.Source.{IfTold, Keeps, Rose};
ghost use Rattle.fgb_outside.specs.Sink.{Appends, AppendsPart};
ghost use Rattle.feature_spans.specs.Causes.{IsSinkCause, IsSourceCause};
ghost use Rattle.feature_spans.specs.Spans.{LiesIn, bytes_at};
ghost use Rattle.feature_spans.specs.Copies.{Holds, IsJoined};
ghost use Rattle.feature_spans.specs.declared.copy.CopyError.TheVariants.{Memory};

use crate::features::Span;
use fgb_outside::{RangeSource, Sink, SinkError, SourceError};
use std::alloc::{AllocError, Global};

/// A page has at most so many bytes, or those of one span, if it has more.
const PAGE: usize = 1 << 20;

/// Why copying stopped.
#[derive(Clone, Copy, Debug, PartialEq, Eq)]
pub enum CopyError {
    /// There was no memory.
    Memory,
    /// The source failed, and has counted a fault.
    SourceFailed,
    /// The sink failed, and has counted a fault.
    SinkFailed,
}

/// Writes the bytes of these parts of a source one after another. After an error a front of them was written.
pub fn copy_spans<S: RangeSource, W: Sink>(
    alloc: Global,
    source: &mut S,
    spans: &[Span],
    out: &mut W,
) -> Result<(), CopyError>
    requires { AllByRecursion (LiesIn 0 (S.seen source.old).size) spans.now }
    ensures whole { OnOk result (IfTold (S.seen source.old) (λ image. Appends (W.shown out.old) (W.shown out.new) (flat_map (bytes_at image) spans.now))) }
    ensures part { IfTold (S.seen source.old) (λ image. AppendsPart (W.shown out.old) (W.shown out.new) (flat_map (bytes_at image) spans.now)) }
    ensures keeps { Keeps (S.seen source.old) (S.seen source.new) }
    ensures failed { IsErrOf result CopyError.SourceFailed → Rose (S.seen source.old).faults (S.seen source.new).faults }
    ensures sink_failed { IsErrOf result CopyError.SinkFailed → Rose (W.shown out.old).faults (W.shown out.new).faults }
    ensures later { (W.shown out.old).faults ≤ (W.shown out.new).faults }
{
    let mut page = Vec::new(alloc);
    let mut rest = spans;
    while let Some((first, others)) = rest.split_first() {
        let (run, later) = first_run(*first, others);
        make_room(run.len, &mut page, out)?;
        fetch(source, run, &mut page)?;
        rest = later;
    }
    write_page(&mut page, out)?;
    Ok(())
}

/// The part that the first span and those behind it make up, as long as each begins where the one before it ends and
/// they have at most a page together; and the spans that are left.
fn first_run(first: Span, others: &[Span]) -> (Span, &[Span])
    ensures bytes { (image : List ℕ) → bytes_at image result.0 ++ flat_map (bytes_at image) result.1.now ≡ bytes_at image first ++ flat_map (bytes_at image) others.now }
    ensures lies { (size : ℕ) → LiesIn 0 size first → AllByRecursion (LiesIn 0 size) others.now → LiesIn 0 size result.0 × AllByRecursion (LiesIn 0 size) result.1.now }
    ensures fewer { length result.1.now ≤ length others.now }
{
    let mut run = first;
    let mut rest = others;
    while let Some((next, later)) = rest.split_first() {
        let Some(longer) = joined(run, *next) else {
            return (run, rest);
        };
        run = longer;
        rest = later;
    }
    (run, rest)
}

/// Both as one part, where the second begins where the first ends and they have at most a page together.
fn joined(first: Span, second: Span) -> Option<Span>
    ensures { ForSome result (IsJoined first second) }
{
    if first.at.checked_add(first.len as u64) != Some(second.at)
        || second.len > PAGE.saturating_sub(first.len)
    {
        return None;
    }
    Some(Span {
        at: first.at,
        len: first.len + second.len,
    })
}

/// Writes the page where so many bytes more would be too many for it.
fn make_room<W: Sink>(len: usize, page: &mut Vec<u8>, out: &mut W) -> Result<(), SinkError>
    ensures moves { OnOk result (Holds (W.shown out.old) (W.shown out.new) page.new.items page.old.items) }
    ensures room { OnOk result (length page.new.items + len < 2 ^ 64) }
    ensures part { AppendsPart (W.shown out.old) (W.shown out.new) page.old.items }
    ensures failed { IsErrOf result SinkError.Failed → Rose (W.shown out.old).faults (W.shown out.new).faults }
    ensures later { (W.shown out.old).faults ≤ (W.shown out.new).faults }
{
    if len <= PAGE.saturating_sub(page.len()) {
        return Ok(());
    }
    write_page(page, out)
}

/// Writes the page, if anything stands on it, and leaves it empty.
fn write_page<W: Sink>(page: &mut Vec<u8>, out: &mut W) -> Result<(), SinkError>
    ensures moves { OnOk result (Holds (W.shown out.old) (W.shown out.new) [] page.old.items) }
    ensures empty { OnOk result (page.new.items ≡ []) }
    ensures part { AppendsPart (W.shown out.old) (W.shown out.new) page.old.items }
    ensures failed { IsErrOf result SinkError.Failed → Rose (W.shown out.old).faults (W.shown out.new).faults }
    ensures later { (W.shown out.old).faults ≤ (W.shown out.new).faults }
{
    if page.is_empty() {
        return Ok(());
    }
    out.write(page)?;
    page.clear();
    Ok(())
}

/// Reads the bytes of a part of a source behind what stands on the page.
fn fetch<S: RangeSource>(source: &mut S, span: Span, page: &mut Vec<u8>) -> Result<(), SourceError>
    requires lies { LiesIn 0 (S.seen source.old).size span }
    requires room { length page.old.items + span.len < 2 ^ 64 }
    ensures bytes { OnOk result (IfTold (S.seen source.old) (λ image. page.new.items ≡ page.old.items ++ bytes_at image span)) }
    ensures keeps { Keeps (S.seen source.old) (S.seen source.new) }
    ensures failed { IsErrOf result SourceError.Failed → Rose (S.seen source.old).faults (S.seen source.new).faults }
{
    let held = page.len();
    page.resize(held + span.len, 0)?;
    source.read_at(span.at, &mut page[held..])?;
    Ok(())
}

impl From<AllocError> for CopyError {
    ghost from_gives = { λ _ error. error ≡ Memory };

    fn from(_: AllocError) -> CopyError {
        CopyError::Memory
    }
}

impl From<SourceError> for CopyError {
    ghost from_gives = { IsSourceCause };

    fn from(error: SourceError) -> CopyError {
        match error {
            SourceError::Failed => CopyError::SourceFailed,
            SourceError::Memory => CopyError::Memory,
        }
    }
}

impl From<SinkError> for CopyError {
    ghost from_gives = { IsSinkCause };

    fn from(error: SinkError) -> CopyError {
        match error {
            SinkError::Failed => CopyError::SinkFailed,
            SinkError::Memory => CopyError::Memory,
        }
    }
}
