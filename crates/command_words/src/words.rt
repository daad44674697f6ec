// The words of a command.
ghost use Rattle.std.specs.Prelude.{◌≡◌, ◌≤◌, ℕ, List, Option, IfSome, IfNone, IsSomeAnd};
ghost use Rattle.std.specs.Option.{option_map};
ghost use Rattle.order_keys.specs.declared.bounds.Bounds.{Bounds as Box};
ghost use Rattle.text_query.specs.declared.output.Output.{Output as Choice};
ghost use Rattle.command_words.specs.Asking.{IsGiven, comparison_in, input_in, request_of};
ghost use Rattle.command_words.specs.Requests.{Asks, AsksCheck, AsksConvert, AsksMake, AsksPack, AsksQuery, AsksReport, AsksServe, IsReachable, IsUsage, Request, command_of, gap_of, input_at, input_of, port_of};
ghost use Rattle.command_words.specs.Words.{Comparison, GivesBoxes, GivesFormat, Input, IsGap, IsOutput, IsWhere, format_name, texts, values};
ghost use Rattle.command_words.specs.declared.format.Format.{Format as Form};

use crate::asked::{Asked, Converting, FileWord, Making, Packing, Query, Reporting, Serving};
use crate::command::{Command, Plan, Target};
use crate::files::file_of;
use crate::format::Format;
use crate::given::{Given, are_known, has_no_file, value_of, values_of};
use crate::numbers::{number_of, read_within};
use box_list::{Boxes, read_boxes};
use fgb_where::{Condition, read_condition};
use text_query::Output;

/// What the words, which do not hold the program's name, ask for, or None where no call accepts them. The commands
/// are
/// - `query FILE --box=BOXES`, with `--out=lines`, `--out=fgb` or `--out=wkb`, or without for lines, with `--gap=G`, or
///   without for 0, and with `--where=NAME:OP:VALUE` or without,
/// - `check FILE`,
/// - `pack FILE --node=N` with N from 2 to 65535,
/// - `convert FILE --from=FORM --to=FORM`, where each FORM is `fgb` or `wkb`,
/// - `make --count=N --start=K` with N from 0 to 1000000 and K from 0 to 1000000000,
/// - `report FILE --box=BOXES`, with `--gap=G`, or without for 0,
/// - `serve FILE --port=P --connections=N` with P from 1 to 65535 and N from 1 to 1000000.
///
/// FILE is a file's name or, but for `serve`, `http://127.0.0.1:PORT/PATH`, where `/PATH` has at most 1,024 bytes, all of
/// them visible. BOXES are one to eight of `MINX,MINY,MAXX,MAXY` with a `+` between two, and G is from 0 to 1048576. NAME is
/// not empty and holds no colon, and OP is `eq`, `ne`, `lt`, `le`, `gt` or `ge`. The words behind the command may come in
/// any order.
pub fn plan<'a>(words: &[&'a str]) -> Option<Plan<'a>>
    ensures planned { IfSome result (λ plan. (request : Request) × Asks (texts words.now) request
        × (plan.command ≡ command_of request) × (input_at plan.target ≡ input_of request) × (plan.port ≡ port_of request)) }
    ensures reachable { IfSome result (λ plan. IsReachable plan.target) }
    ensures usage { IfNone result (IsUsage (texts words.now)) }
{
    let (command, target, port) = match read_words(words)? {
        Asked::Query(query) => (Command::Query, query.file.target(), 0),
        Asked::Check(file) => (Command::Check, file.target(), 0),
        Asked::Pack(packing) => (Command::Pack, packing.file.target(), 0),
        Asked::Convert(converting) => (Command::Convert, converting.file.target(), 0),
        Asked::Make(_) => (Command::Make, Target::Nothing, 0),
        Asked::Report(reporting) => (Command::Report, reporting.file.target(), 0),
        Asked::Serve(serving) => (Command::Serve, Target::File(serving.file), serving.port),
    };
    Some(Plan {
        command,
        target,
        port,
    })
}

/// Reads the words of a command, which do not hold the program's name.
pub fn read_words<'a>(words: &[&'a str]) -> Option<Asked<'a>>
    ensures asked { IfSome result (λ asked. Asks (texts words.now) (request_of asked)) }
    ensures short { IfSome result (λ asked. gap_of (request_of asked) ≤ 1048576) }
    ensures only { (request : Request) → Asks (texts words.now) request → IsSomeAnd result (λ asked. request_of asked ≡ request) }
{
    let [command, rest @ ..] = words else {
        return None;
    };
    match Command::named(command)? {
        Command::Query => Some(Asked::Query(read_query(rest)?)),
        Command::Check => Some(Asked::Check(read_check(rest)?)),
        Command::Pack => Some(Asked::Pack(read_pack(rest)?)),
        Command::Convert => Some(Asked::Convert(read_convert(rest)?)),
        Command::Make => Some(Asked::Make(read_make(rest)?)),
        Command::Report => Some(Asked::Report(read_report(rest)?)),
        Command::Serve => Some(Asked::Serve(read_serve(rest)?)),
    }
}

/// Reads the words behind `query`.
fn read_query<'a>(words: &[&'a str]) -> Option<Query<'a>>
    ensures short { IfSome result (λ q. q.gap ≤ 1048576) }
    ensures some { IfSome result (λ q. AsksQuery (texts words.now) (input_in q.file) q.boxes q.gap (option_map comparison_in q.condition) q.output) }
    ensures only { (input : Input) (boxes : List Box) (gap : ℕ) (condition : Option Comparison) (output : Choice)
        → AsksQuery (texts words.now) input boxes gap condition output → IsSomeAnd result (λ q. (input_in q.file ≡ input)
        × (q.boxes ≡ boxes) × (q.gap ≡ gap) × (option_map comparison_in q.condition ≡ condition) × (q.output ≡ output)) }
{
    if !are_known(words, &["--box=", "--gap=", "--where=", "--out="]) {
        return None;
    }
    let file = file_of(words)?;
    let boxes = boxes_of(words)?;
    let gap = read_gap(values_of(words, "--gap="))?;
    let condition = read_where(values_of(words, "--where="))?;
    let output = read_output(values_of(words, "--out="))?;
    Some(Query {
        file,
        boxes,
        gap,
        condition,
        output,
    })
}

/// Reads the words behind `check`.
fn read_check<'a>(words: &[&'a str]) -> Option<FileWord<'a>>
    ensures some { IfSome result (λ file. AsksCheck (texts words.now) (input_in file)) }
    ensures only { (input : Input) → AsksCheck (texts words.now) input → IsSomeAnd result (λ file. input_in file ≡ input) }
{
    if !are_known(words, &[]) {
        return None;
    }
    file_of(words)
}

/// Reads the words behind `pack`.
fn read_pack<'a>(words: &[&'a str]) -> Option<Packing<'a>>
    ensures some { IfSome result (λ p. AsksPack (texts words.now) (input_in p.file) p.node_size) }
    ensures only { (input : Input) (node_size : ℕ) → AsksPack (texts words.now) input node_size
        → IsSomeAnd result (λ p. (input_in p.file ≡ input) × (p.node_size ≡ node_size)) }
{
    if !are_known(words, &["--node="]) {
        return None;
    }
    let file = file_of(words)?;
    let node_size = number_of(words, "--node=", 2, 65_535)? as u16;
    Some(Packing { file, node_size })
}

/// Reads the words behind `convert`.
fn read_convert<'a>(words: &[&'a str]) -> Option<Converting<'a>>
    ensures some { IfSome result (λ c. AsksConvert (texts words.now) (input_in c.file) c.from c.to) }
    ensures only { (input : Input) (from to : Form) → AsksConvert (texts words.now) input from to
        → IsSomeAnd result (λ c. (input_in c.file ≡ input) × (c.from ≡ from) × (c.to ≡ to)) }
{
    if !are_known(words, &["--from=", "--to="]) {
        return None;
    }
    let file = file_of(words)?;
    let from = format_of(words, "--from=")?;
    let to = format_of(words, "--to=")?;
    Some(Converting { file, from, to })
}

/// Reads the words behind `make`.
fn read_make(words: &[&str]) -> Option<Making>
    ensures some { IfSome result (λ m. AsksMake (texts words.now) m.count m.start) }
    ensures only { (count start : ℕ) → AsksMake (texts words.now) count start
        → IsSomeAnd result (λ m. (m.count ≡ count) × (m.start ≡ start)) }
{
    if !are_known(words, &["--count=", "--start="]) {
        return None;
    }
    if !has_no_file(words) {
        return None;
    }
    let count = number_of(words, "--count=", 0, 1_000_000)?;
    let start = number_of(words, "--start=", 0, 1_000_000_000)?;
    Some(Making { count, start })
}

/// Reads the words behind `report`.
fn read_report<'a>(words: &[&'a str]) -> Option<Reporting<'a>>
    ensures short { IfSome result (λ r. r.gap ≤ 1048576) }
    ensures some { IfSome result (λ r. AsksReport (texts words.now) (input_in r.file) r.boxes r.gap) }
    ensures only { (input : Input) (boxes : List Box) (gap : ℕ) → AsksReport (texts words.now) input boxes gap
        → IsSomeAnd result (λ r. (input_in r.file ≡ input) × (r.boxes ≡ boxes) × (r.gap ≡ gap)) }
{
    if !are_known(words, &["--box=", "--gap="]) {
        return None;
    }
    let file = file_of(words)?;
    let boxes = boxes_of(words)?;
    let gap = read_gap(values_of(words, "--gap="))?;
    Some(Reporting { file, boxes, gap })
}

/// Reads the words behind `serve`.
fn read_serve<'a>(words: &[&'a str]) -> Option<Serving<'a>>
    ensures some { IfSome result (λ s. AsksServe (texts words.now) s.file.now s.port s.connections) }
    ensures only { (name : List ℕ) (port connections : ℕ) → AsksServe (texts words.now) name port connections
        → IsSomeAnd result (λ s. (s.file.now ≡ name) × (s.port ≡ port) × (s.connections ≡ connections)) }
{
    if !are_known(words, &["--port=", "--connections="]) {
        return None;
    }
    let file = match file_of(words)? {
        FileWord::Name(name) => name,
        FileWord::Http { .. } => return None,
    };
    let port = number_of(words, "--port=", 1, 65_535)? as u16;
    let connections = number_of(words, "--connections=", 1, 1_000_000)?;
    Some(Serving {
        file,
        port,
        connections,
    })
}

/// The boxes that the words give.
fn boxes_of(words: &[&str]) -> Option<Boxes>
    ensures some { IfSome result (GivesBoxes (texts words.now)) }
    ensures only { (boxes : List Box) → GivesBoxes (texts words.now) boxes → IsSomeAnd result (λ b. b ≡ boxes) }
{
    read_boxes(value_of(words, "--box=")?).ok()
}

/// The gap that is given, or 0 where there is none.
fn read_gap(given: Given) -> Option<u32>
    ensures short { IfSome result (λ gap. gap ≤ 1048576) }
    ensures some { IfSome result (λ gap. (found : List (List ℕ)) → IsGiven given.entry found → IsGap found gap) }
    ensures only { (found : List (List ℕ)) (gap : ℕ) → IsGiven given.entry found → IsGap found gap → IsSomeAnd result (λ g. g ≡ gap) }
{
    match given {
        Given::Never => Some(0),
        Given::Once(digits) => Some(read_within(digits, 0, 1_048_576)? as u32),
        Given::Often => None,
    }
}

/// The condition that is given, or none where there is none.
fn read_where<'a>(given: Given<'a>) -> Option<Option<Condition<'a>>>
    ensures some { IfSome result (λ c. (found : List (List ℕ)) → IsGiven given.entry found → IsWhere found (option_map comparison_in c)) }
    ensures only { (found : List (List ℕ)) (condition : Option Comparison) → IsGiven given.entry found → IsWhere found condition
        → IsSomeAnd result (λ c. option_map comparison_in c ≡ condition) }
{
    match given {
        Given::Never => Some(None),
        Given::Once(text) => Some(Some(read_condition(text)?)),
        Given::Often => None,
    }
}

/// The form that the words give the option of this name.
fn format_of(words: &[&str], name: &str) -> Option<Format>
    ensures some { IfSome result (GivesFormat (texts words.now) name.now) }
    ensures only { (form : Form) → GivesFormat (texts words.now) name.now form → IsSomeAnd result (λ f. f ≡ form) }
{
    read_format(value_of(words, name)?)
}

/// Reads the name of a form.
fn read_format(name: &str) -> Option<Format>
    ensures some { IfSome result (λ form. name.now ≡ format_name form) }
    ensures only { (form : Form) → name.now ≡ format_name form → IsSomeAnd result (λ f. f ≡ form) }
{
    match name {
        "fgb" => Some(Format::Fgb),
        "wkb" => Some(Format::Wkb),
        _ => None,
    }
}

/// The output of a name, or lines where there is none.
fn read_output(given: Given) -> Option<Output>
    ensures some { IfSome result (λ output. (names : List (List ℕ)) → IsGiven given.entry names → IsOutput names output) }
    ensures only { (names : List (List ℕ)) (output : Choice) → IsGiven given.entry names → IsOutput names output → IsSomeAnd result (λ o. o ≡ output) }
{
    match given {
        Given::Never | Given::Once("lines") => Some(Output::Lines),
        Given::Once("fgb") => Some(Output::Fgb),
        Given::Once("wkb") => Some(Output::Wkb),
        _ => None,
    }
}
