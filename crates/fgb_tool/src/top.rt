// The top call.
ghost use Rattle.std.specs.Prelude.{◌≡◌, ◌≢◌};
ghost use Rattle.command_words.specs.Requests.{Asks, IsRun, IsUsageOf, Request};
ghost use Rattle.command_words.specs.Words.{texts};
ghost use Rattle.command_words.specs.Texts.{Tells, usage_text};
ghost use Rattle.fgb_tool.specs.Runs.{Does};

use crate::check::check_file;
use crate::pack::pack_file;
use crate::query::answer_query;
use command_words::{Asked, read_words, refuse_words, status_of};
use convert_command::convert_file;
use fgb_outside::{RangeSource, Sink};
use make_command::make_text;
use std::alloc::Global;

/// Answers the command of the words, which do not hold the program's name, over a file, and gives the status
/// that the program ends with. What is found is written on `out`; a text that says why there is no answer, on
/// `err`. The commands are `query FILE --box=BOXES`, with one to eight boxes MINX,MINY,MAXX,MAXY and a `+` between
/// two of them, with `--gap=G`, with `--where=NAME:OP:VALUE`, and with `--out=lines`, `--out=fgb` or `--out=wkb`,
/// `check FILE`, `pack FILE --node=N`, `convert FILE --from=FORM --to=FORM`, where each form is `fgb` or `wkb`, and
/// `make --count=N --start=K`, which asks nothing of the file.
pub fn run<S: RangeSource, W: Sink, E: Sink>(
    alloc: Global,
    words: &[&str],
    file: &mut S,
    out: &mut W,
    err: &mut E,
) -> u8
    // Status 2 comes exactly where the words ask for nothing that this call does. Then nothing is asked, and nothing but the
    // usage is written, on `err`.
    ensures usage { result ≡ 2 → IsUsageOf IsRun (texts words.now) }
    ensures usage_text { result ≡ 2 → Tells (E.shown err.old) (E.shown err.new) usage_text }
    ensures untouched { result ≡ 2 → (S.seen file.new ≡ S.seen file.old) × (W.shown out.new ≡ W.shown out.old) }

    // Else the words ask for the features that meet one of some boxes, whether a file breaks a rule, for its packing, for its
    // conversion, or to make features, and this is what happens.
    ensures asked { result ≢ 2 → (request : Request) × Asks (texts words.now) request × IsRun request }
    ensures does { (request : Request) → Asks (texts words.now) request → IsRun request → (result ≢ 2)
        × Does request (S.seen file.old) (S.seen file.new) (W.shown out.old) (W.shown out.new) (E.shown err.old) (E.shown err.new) result }
{
    match read_words(words) {
        Some(Asked::Query(sought)) => answer_query(alloc, &sought, file, out, err),
        Some(Asked::Check(_)) => status_of(check_file(alloc, file, out), err),
        Some(Asked::Pack(packing)) => {
            status_of(pack_file(alloc, packing.node_size, file, out), err)
        }
        Some(Asked::Convert(converting)) => {
            let done = convert_file(alloc, converting.from, converting.to, file, out);
            status_of(done, err)
        }
        Some(Asked::Make(making)) => {
            status_of(make_text(alloc, making.count, making.start, out), err)
        }
        Some(Asked::Report(_) | Asked::Serve(_)) => refuse_words(err),
        None => refuse_words(err),
    }
}
