// The top call.
ghost use Rattle.std.specs.Prelude.{◌≡◌, ◌≢◌, ◌≤◌, ◌^◌, ℕ, List, length, IfSome, IsSomeAnd};
ghost use Rattle.command_words.specs.Requests.{Asks, IsServe, IsUsageOf, Request, serve};
ghost use Rattle.command_words.specs.Texts.{Tells, usage_text};
ghost use Rattle.command_words.specs.Words.{texts};
ghost use Rattle.serve_command.specs.Runs.{ServesAndTells, ServesRun, stop_of};

use crate::line::write_served;
use byte_links::{Accept, Link};
use command_words::{Asked, Serving, Stop, read_words, refuse_words, status_of};
use fgb_outside::Sink;
use range_serving::{ServingError, serve_connections};
use std::alloc::Global;

/// Answers `serve FILE --port=P --connections=N`, where `image` is the file: serves it as `/map.fgb` over so many connections
/// of the listener, one after another, and writes `served N requests R sent S` on `out`. A connection whose link fails
/// counts as far as it came. The status is the one that the program ends with: 0, 2 for other words, 3 where a connection
/// can't be accepted, 4 where `out` failed, or 5 for want of memory; what a status means is written on `err`.
pub fn serve_run<L: Link, A: Accept<L>, W: Sink, E: Sink>(
    alloc: Global,
    words: &[&str],
    image: &[u8],
    listener: &mut A,
    out: &mut W,
    err: &mut E,
) -> u8
    requires { length image.now ≤ 2 ^ 48 }

    // Status 2 comes exactly where the words do not ask to serve. Then no connection is accepted, and nothing but the usage
    // is written, on `err`.
    ensures usage { result ≡ 2 → IsUsageOf IsServe (texts words.now) }
    ensures usage_text { result ≡ 2 → Tells (E.shown err.old) (E.shown err.new) usage_text }
    ensures untouched { result ≡ 2 → (A.shown listener.new ≡ A.shown listener.old) × (W.shown out.new ≡ W.shown out.old) }

    // Else they ask to serve so many connections, and this is what happens.
    ensures asked { result ≢ 2 → (request : Request) × Asks (texts words.now) request × IsServe request }
    ensures does { (name : List ℕ) (port connections : ℕ) → Asks (texts words.now) (serve name port connections) → (result ≢ 2)
        × ServesRun image.now connections (A.shown listener.old) (A.shown listener.new) (W.shown out.old) (W.shown out.new) (E.shown err.old) (E.shown err.new) result }
{
    match serving_of(words) {
        None => refuse_words(err),
        Some(serving) => {
            let done = serve_and_tell(alloc, image, listener, serving.connections, out);
            status_of(done, err)
        }
    }
}

/// What is to be served, where the words ask for that.
fn serving_of<'a>(words: &[&'a str]) -> Option<Serving<'a>>
    ensures some { IfSome result (λ s. Asks (texts words.now) (serve s.file.now s.port s.connections)) }
    ensures only { (name : List ℕ) (port connections : ℕ) → Asks (texts words.now) (serve name port connections)
        → IsSomeAnd result (λ s. s.connections ≡ connections) }
{
    match read_words(words)? {
        Asked::Serve(serving) => Some(serving),
        Asked::Query(_) => None,
        Asked::Check(_) => None,
        Asked::Pack(_) => None,
        Asked::Convert(_) => None,
        Asked::Make(_) => None,
        Asked::Report(_) => None,
    }
}

/// Serves so many connections, and writes their line.
#[tactic(auto, using(crate::proofs::Telling::unserved))]
fn serve_and_tell<L: Link, A: Accept<L>, W: Sink>(
    alloc: Global,
    image: &[u8],
    listener: &mut A,
    connections: u64,
    out: &mut W,
) -> Result<(), Stop>
    requires { length image.now ≤ 2 ^ 48 }
    ensures { ServesAndTells image.now connections (A.shown listener.old) (A.shown listener.new) (W.shown out.old) (W.shown out.new) result }
{
    let receipt = match serve_connections(alloc, image, listener, connections) {
        Ok(receipt) => receipt,
        Err(error) => return Err(stop_of(error)),
    };
    write_served(out, connections, receipt)?;
    Ok(())
}

/// Why the work stops, where connections are no longer served.
fn stop_of(error: ServingError) -> Stop
    ensures { result ≡ stop_of error }
{
    match error {
        ServingError::AcceptFailed => Stop::SourceFailed,
        ServingError::Memory => Stop::Memory,
    }
}
