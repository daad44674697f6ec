// What words ask for, read.
ghost use Rattle.std.specs.Prelude.{◌≡◌, Some};
ghost use Rattle.command_words.specs.Asking.{input_in};
ghost use Rattle.command_words.specs.Requests.{input_at};

use crate::command::Target;
use crate::format::Format;
use box_list::Boxes;
use fgb_where::Condition;
use text_query::Output;

/// What the file word names.
#[derive(Clone, Copy, Debug, PartialEq, Eq)]
pub enum FileWord<'a> {
    /// The file of this name.
    Name(&'a str),
    /// The file that a server on this machine serves at this port, which is not 0, and path.
    Http { port: u16, path: &'a str },
}

impl<'a> FileWord<'a> {
    /// It as the target of a command.
    pub(crate) fn target(self) -> Target<'a>
        ensures { input_at result ≡ Some (input_in self.entry) }
    {
        match self {
            FileWord::Name(name) => Target::File(name),
            FileWord::Http { port, path } => Target::Http { port, path },
        }
    }
}

/// A query of a file: which features are sought, how long a hole must be not to be asked for, at most 1,048,576 bytes, the
/// condition that has to hold for a feature, if there is one, and what is written of the features.
#[derive(Drop)]
pub struct Query<'a> {
    pub file: FileWord<'a>,
    pub boxes: Boxes,
    pub gap: u32,
    pub condition: Option<Condition<'a>>,
    pub output: Output,
}

/// The packing of a file: how many children a node has, from 2 on.
#[derive(Clone, Copy, Debug, PartialEq, Eq)]
pub struct Packing<'a> {
    pub file: FileWord<'a>,
    pub node_size: u16,
}

/// The conversion of a file: which form it has, and which form is written.
#[derive(Clone, Copy, Debug, PartialEq, Eq)]
pub struct Converting<'a> {
    pub file: FileWord<'a>,
    pub from: Format,
    pub to: Format,
}

/// The making of features: how many, from 0 to 1,000,000, and the number of the first, from 0 to 1,000,000,000.
#[derive(Clone, Copy, Debug, PartialEq, Eq)]
pub struct Making {
    pub count: u64,
    pub start: u64,
}

/// Reports on a file: which features are sought, and how long a hole must be not to be asked for, at most 1,048,576 bytes.
#[derive(Drop)]
pub struct Reporting<'a> {
    pub file: FileWord<'a>,
    pub boxes: Boxes,
    pub gap: u32,
}

/// The serving of the file of a name: at which port, which is not 0, and for how many connections, from 1 to 1,000,000.
#[derive(Clone, Copy, Debug, PartialEq, Eq)]
pub struct Serving<'a> {
    pub file: &'a str,
    pub port: u16,
    pub connections: u64,
}

/// What words ask for.
#[derive(Drop)]
pub enum Asked<'a> {
    /// The features of a file that meet one of several boxes.
    Query(Query<'a>),
    /// Whether a file breaks a rule.
    Check(FileWord<'a>),
    /// A packing of a file.
    Pack(Packing<'a>),
    /// A file in another form, or anew in its own.
    Convert(Converting<'a>),
    /// Features that are made, packed and queried in memory.
    Make(Making),
    /// Reports on the features of a file that meet one of several boxes.
    Report(Reporting<'a>),
    /// The serving of a file.
    Serve(Serving<'a>),
}
