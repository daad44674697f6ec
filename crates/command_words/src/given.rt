// What words give.
ghost use Rattle.std.specs.Prelude.{◌≡◌, ◌≢◌, ◌↔◌, ◌++◌, ◌∷◌, [], ℕ, List, nat_eq, IsTrue, IfSome, IfNone};
ghost use Rattle.std.specs.List.{filter, list_all, list_any, starts_with};
ghost use Rattle.command_words.specs.Asking.{IsGiven, at_most_one};
ghost use Rattle.command_words.specs.Words.{GivesNoFile, is_file_word, is_known, texts, values};

/// How often words give something, and what they give where they give it once.
#[derive(Clone, Copy)]
pub(crate) enum Given<'a> {
    Never,
    Once(&'a str),
    Often,
}

impl<'a> Given<'a> {
    /// With what one more word gives.
    fn and(self, more: Option<&'a str>) -> Given<'a>
        ensures { (found : List (List ℕ)) → IsGiven self.entry found → IsGiven result (found ++ at_most_one more.entry) }
    {
        let Some(text) = more else {
            return self;
        };
        match self {
            Given::Never => Given::Once(text),
            Given::Once(_) | Given::Often => Given::Often,
        }
    }

    /// Whether nothing is given.
    fn is_never(self) -> bool
        ensures { (found : List (List ℕ)) → IsGiven self.entry found → IsTrue result ↔ (found ≡ []) }
    {
        match self {
            Given::Never => true,
            Given::Once(_) | Given::Often => false,
        }
    }

    /// What is given, where that is once.
    fn once(self) -> Option<&'a str>
        ensures some { IfSome result (λ text. (found : List (List ℕ)) → IsGiven self.entry found → found ≡ text.now ∷ []) }
        ensures none { IfNone result ((found : List (List ℕ)) (text : List ℕ) → IsGiven self.entry found → found ≢ text ∷ []) }
    {
        match self {
            Given::Once(text) => Some(text),
            Given::Never | Given::Often => None,
        }
    }
}

/// What the words give the option of this name, as `--box=`.
pub(crate) fn values_of<'a>(words: &[&'a str], name: &str) -> Given<'a>
    ensures { IsGiven result (values name.now (texts words.now)) }
{
    let mut given = Given::Never;
    for word in words {
        given = given.and(value_in(word, name));
    }
    given
}

/// The value of an option that is given once.
pub(crate) fn value_of<'a>(words: &[&'a str], name: &str) -> Option<&'a str>
    ensures some { IfSome result (λ value. values name.now (texts words.now) ≡ value.now ∷ []) }
    ensures none { IfNone result ((value : List ℕ) → values name.now (texts words.now) ≢ value ∷ []) }
{
    values_of(words, name).once()
}

/// The file words.
fn file_words<'a>(words: &[&'a str]) -> Given<'a>
    ensures { IsGiven result (filter is_file_word (texts words.now)) }
{
    let mut given = Given::Never;
    for word in words {
        given = given.and(file_in(word));
    }
    given
}

/// The one file word.
pub(crate) fn file_word<'a>(words: &[&'a str]) -> Option<&'a str>
    ensures some { IfSome result (λ word. filter is_file_word (texts words.now) ≡ word.now ∷ []) }
    ensures none { IfNone result ((word : List ℕ) → filter is_file_word (texts words.now) ≢ word ∷ []) }
{
    file_words(words).once()
}

/// Whether there is no file word.
pub(crate) fn has_no_file(words: &[&str]) -> bool
    ensures { IsTrue result ↔ GivesNoFile (texts words.now) }
{
    file_words(words).is_never()
}

/// What a word gives the option of this name.
fn value_in<'a>(word: &'a str, name: &str) -> Option<&'a str>
    ensures { values name.now (word.now ∷ []) ≡ at_most_one result }
{
    word.strip_prefix(name)
}

/// The word, where it can be the file word.
fn file_in(word: &str) -> Option<&str>
    ensures { filter is_file_word (word.now ∷ []) ≡ at_most_one result }
{
    if !is_file_word(word) {
        return None;
    }
    Some(word)
}

/// Whether each of the words can stand behind a command with the options of these names.
pub(crate) fn are_known(words: &[&str], names: &[&str]) -> bool
    ensures { result ≡ list_all (is_known (texts names.now)) (texts words.now) }
{
    for word in words {
        if !is_known(word, names) {
            return false;
        }
    }
    true
}

/// Whether the word can stand there.
fn is_known(word: &str, names: &[&str]) -> bool
    ensures { result ≡ is_known (texts names.now) word.now }
{
    is_file_word(word) || is_option(word, names)
}

/// Whether the word gives an option of one of these names a value.
fn is_option(word: &str, names: &[&str]) -> bool
    ensures { result ≡ list_any (starts_with nat_eq word.now) (texts names.now) }
{
    for name in names {
        if word.starts_with(*name) {
            return true;
        }
    }
    false
}

/// Whether a word can be the file word.
fn is_file_word(word: &str) -> bool
    ensures { result ≡ is_file_word word.now }
{
    !word.is_empty() && !word.starts_with("-")
}
