// The client.
ghost use Rattle.std.specs.Prelude.{◌≡◌, ◌⊎◌, ◌<◌, ◌≤◌, ◌+◌, ◌++◌, ◌∷◌, [], true, false, ℕ, length, codes, Some, None, IfOk, IfErr, IfSome, IsSome, IsErrOf, OnOk, OnErr, Err, unwrap_or};
ghost use Rattle.fgb_outside.specs.Source.{ReadsAt};
ghost use Rattle.byte_links.specs.Link.{IfServes, KeepsLink};
ghost use Rattle.range_client.specs.Requests.{IsPath};
ghost use Rattle.range_client.specs.Client.{Answers, Connected, Counts, Fails, IsStart, Refused, Repeats, Settles, StaysInStep, PartSent, source_of};

use crate::demands::Demand;
use crate::faults::{ConnectError, ConnectRefused};
use crate::speaker::Speaker;
use byte_links::Link;
use fgb_outside::{RangeSource, SourceError};
use std::alloc::{AllocError, Global};
use std::marker::Model;

/// A file behind an HTTP server, read by ranges.
#[derive(Drop)]
pub struct RangeClient<L: Link> {
    link: L,
    speaker: Speaker,
    size: u64,
    asked: Vec<(u64, u64)>,
    is_told: bool,
    spent: Option<SourceError>,
    faults: u64,
}

impl<L: Link> Model for RangeClient<L> {
    ghost use Rattle.std.specs.Prelude.{if◌then◌else◌, Some, None};
    ghost use Rattle.range_client.specs.Client.{ClientState, IsSound};

    ghost Value = { ClientState };

    ghost view = { λ c. record { link = L.shown c.link; path = c.speaker.path; size = c.size; asked = (if c.is_told then Some c.asked.items else None); spent = c.spent; faults = c.faults; head = c.speaker.head } };

    ghost invariant = { λ c. IsSound (L.shown c.link) c.speaker.path c.size c.spent };
}

// Appends the pair to a list that is still told. Without memory for it the list is told no more.
fn note(asked: &mut Vec<(u64, u64)>, is_told: &mut bool, pair: (u64, u64)) -> Result<(), AllocError>
    ensures told { is_told.new ≡ true → (is_told.old ≡ true) × (asked.new.items ≡ asked.old.items ++ pair ∷ []) }
    ensures ok { OnOk result (is_told.new ≡ is_told.old) }
    ensures err { OnErr result ((is_told.old ≡ true) × (is_told.new ≡ false)) }
{
    if *is_told && asked.push(pair).is_err() {
        *is_told = false;
        return Err(AllocError);
    }
    Ok(())
}

// After this error the client is spent, if it is not already.
fn settle(
    spent: &mut Option<SourceError>,
    faults: &mut u64,
    error: SourceError,
) -> Result<(), SourceError>
    ensures same { result ≡ Err error }
    ensures spent { spent.new ≡ Some (unwrap_or spent.old error) }
    ensures counts { Counts faults.old faults.new result }
{
    if spent.is_none() {
        *spent = Some(error);
    }
    if error == SourceError::Failed {
        *faults = faults.saturating_add(1);
    }
    Err(error)
}

impl<L: Link> RangeClient<L> {
    /// A client of the file at this path, over this link. It asks for the first byte, and learns the size. Ok comes where
    /// the reply is a 206 with the first byte of a file of at most 2^48 bytes, or a 416 that tells an empty file.
    pub fn connect(
        alloc: Global,
        mut link: L,
        path: &str,
    ) -> Result<RangeClient<L>, ConnectRefused<L>>
        requires path { IsPath path.now }
        requires served { IfServes (L.shown link) (λ _. IsStart (L.shown link) path.now) }
        ensures ok { IfOk result (Connected (L.shown link) path.now) }
        ensures refused { IfErr result (λ refused. Refused path.now (L.shown link) (L.shown refused.link) refused.error) }
    {
        let mut speaker = match Speaker::new(alloc, path) {
            Ok(speaker) => speaker,
            Err(_) => {
                return Err(ConnectRefused {
                    link,
                    error: ConnectError::Memory,
                });
            }
        };
        let mut byte = [0];
        match speaker.ask(&mut link, Demand::FirstByte, &mut byte) {
            Ok(size) => Ok(RangeClient {
                link,
                speaker,
                size,
                asked: Vec::new(alloc),
                is_told: true,
                spent: None,
                faults: 0,
            }),
            Err(fault) => Err(ConnectRefused {
                link,
                error: speaker.into_error(fault),
            }),
        }
    }

    /// The head of the last reply, as far as it came.
    pub fn last_head(&self) -> &[u8]
        ensures { result.now ≡ self.now.head }
    {
        self.speaker.head()
    }

    /// The pairs (place, length) of the reads, in order, as long as there was memory for each.
    pub fn asked(&self) -> &[(u64, u64)]
        ensures { IfSome self.now.asked (λ pairs. result.now ≡ pairs) }
    {
        &self.asked
    }
}

impl<L: Link> RangeSource for RangeClient<L> {
    ghost seen = { source_of };

    fn size(&self) -> u64 {
        self.size
    }

    /// Sends one request, and takes the body of its reply. After an error the client is spent: it sends nothing more, and
    /// answers that error again.
    fn read_at(&mut self, at: u64, into: &mut [u8]) -> Result<(), SourceError>
        requires not_empty { 0 < length into.old }
        requires inside { at + length into.old ≤ self.old.size }
        ensures reads { ReadsAt (source_of self.old) (source_of self.new) at into.new result }
        ensures path { self.new.path ≡ self.old.path }
        ensures keeps { KeepsLink self.old.link self.new.link }
        // Ok comes only with a reply that was asked for, and its body is what is read.
        ensures answers { OnOk result (Answers self.old self.new at into.new) }
        ensures sent { PartSent self.old self.new at (length into.new) }
        // Failed comes only where the link's count rose, the reply is bad, or Failed came before.
        ensures fails { IsErrOf result SourceError.Failed → Fails self.old self.new at (length into.new) }
        // A client that is spent sends nothing, and answers its error again, or Memory where that ends the list.
        ensures again { IfSome self.old.spent (Repeats self.old self.new result) }
        ensures settles { Settles self.old self.new result }
        // Over a link that serves its image it does not fail while there are asks left.
        ensures in_step { StaysInStep self.old self.new result }
    {
        let pair = (at, into.len() as u64);
        if note(&mut self.asked, &mut self.is_told, pair).is_err() {
            return settle(&mut self.spent, &mut self.faults, SourceError::Memory);
        }
        if let Some(error) = self.spent {
            return settle(&mut self.spent, &mut self.faults, error);
        }
        let demand = Demand::Part {
            first: at,
            last: at + (into.len() as u64 - 1),
            size: self.size,
        };
        match self.speaker.ask(&mut self.link, demand, into) {
            Ok(_) => Ok(()),
            Err(fault) => settle(&mut self.spent, &mut self.faults, fault.source_error()),
        }
    }
}
