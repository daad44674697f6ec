// What the words of a command ask for.
ghost use Rattle.std.specs.Prelude.{◌≡◌, ◌≢◌, IfSome, IfNone};
ghost use Rattle.command_words.specs.Requests.{command_name};
ghost use Rattle.command_words.specs.declared.command.Command.{Command as Kind};

/// What a command does.
#[derive(Clone, Copy, Debug, PartialEq, Eq)]
pub enum Command {
    /// Finds the features that meet a box.
    Query,
    /// Says whether a file breaks a rule.
    Check,
    /// Writes a file with an index.
    Pack,
    /// Writes a file in another form.
    Convert,
    /// Makes a file and queries it.
    Make,
    /// Counts and measures what a query finds.
    Report,
    /// Serves a file over HTTP.
    Serve,
}

impl Command {
    /// The command of this word.
    pub(crate) fn named(word: &str) -> Option<Command>
        ensures some { IfSome result (λ command. word.now ≡ command_name command) }
        ensures none { IfNone result ((command : Kind) → word.now ≢ command_name command) }
    {
        match word {
            "query" => Some(Command::Query),
            "check" => Some(Command::Check),
            "pack" => Some(Command::Pack),
            "convert" => Some(Command::Convert),
            "make" => Some(Command::Make),
            "report" => Some(Command::Report),
            "serve" => Some(Command::Serve),
            _ => None,
        }
    }
}

/// What a command works on.
#[derive(Clone, Copy, Debug, PartialEq, Eq)]
pub enum Target<'a> {
    /// No file.
    Nothing,
    /// The file of this name.
    File(&'a str),
    /// The file that a server on this machine serves at this port and path.
    Http { port: u16, path: &'a str },
}

/// What the words of a command ask for.
#[derive(Clone, Copy, Debug, PartialEq, Eq)]
pub struct Plan<'a> {
    pub command: Command,
    pub target: Target<'a>,
    /// The port that `serve` listens on, or 0.
    pub port: u16,
}
