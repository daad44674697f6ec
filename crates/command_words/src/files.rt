// What a file word names.
ghost use Rattle.std.specs.Prelude.{◌≡◌, ◌&&◌, ℕ, List, IfSome, IsSomeAnd, length, nat_le};
ghost use Rattle.std.specs.Char.{is_ascii_graphic};
ghost use Rattle.std.specs.List.{list_all};
ghost use Rattle.command_words.specs.Asking.{input_in};
ghost use Rattle.command_words.specs.Words.{GivesFile, Input, Names, SpellsServed, texts};

use crate::asked::FileWord;
use crate::given::file_word;
use crate::numbers::read_within;

/// The server on this machine.
const HERE: &str = "http://127.0.0.1:";

/// The longest path that is asked for.
const LONGEST: usize = 1024;

/// What the one file word names.
pub(crate) fn file_of<'a>(words: &[&'a str]) -> Option<FileWord<'a>>
    ensures some { IfSome result (λ file. GivesFile (texts words.now) (input_in file)) }
    ensures only { (input : Input) → GivesFile (texts words.now) input → IsSomeAnd result (λ file. input_in file ≡ input) }
{
    read_file(file_word(words)?)
}

/// Reads the file word.
fn read_file(word: &str) -> Option<FileWord>
    ensures some { IfSome result (λ file. Names word.now (input_in file)) }
    ensures only { (input : Input) → Names word.now input → IsSomeAnd result (λ file. input_in file ≡ input) }
{
    if !word.starts_with("http://") {
        return Some(FileWord::Name(word));
    }
    let (port, path) = read_served(word.strip_prefix(HERE)?)?;
    Some(FileWord::Http { port, path })
}

/// Reads a port and a path.
fn read_served(text: &str) -> Option<(u16, &str)>
    ensures some { IfSome result (λ served. SpellsServed text.now served.0 served.1.now) }
    ensures only { (port : ℕ) (path : List ℕ) → SpellsServed text.now port path
        → IsSomeAnd result (λ served. (served.0 ≡ port) × (served.1.now ≡ path)) }
{
    let (digits, _) = text.split_once('/')?;
    let path = text.strip_prefix(digits)?;
    let port = read_within(digits, 1, 65_535)? as u16;
    if !is_path(path) {
        return None;
    }
    Some((port, path))
}

/// Whether a path that begins with a slash can be asked for.
fn is_path(path: &str) -> bool
    ensures { result ≡ (nat_le (length path.now) 1024 && list_all is_ascii_graphic path.now) }
{
    path.len() <= LONGEST && are_visible(path.as_bytes())
}

/// Whether each byte is visible: from 21 to 7E hexadecimal.
fn are_visible(bytes: &[u8]) -> bool
    ensures { result ≡ list_all is_ascii_graphic bytes.now }
{
    bytes.iter().all(|byte| byte.is_ascii_graphic())
}
