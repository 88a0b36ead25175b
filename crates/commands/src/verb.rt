//! The first word of a line.
ghost use Rattle.std.specs.Prelude.{◌≡◌};
ghost use Rattle.std.specs.Str.{bytes_eq};
ghost use Rattle.commands.specs.Commands.{word_of, verb_of};

/// The command that the first word names.
#[derive(Clone, Copy)]
pub enum Verb {
    Where,
    Show,
    Goto,
    Back,
    On,
    Watch,
    Break,
    Unwatch,
    Cont,
    Rcont,
    Sync,
    Quit,
    Other,
}

// The verbs that have a word.
const VERBS: [Verb; 12] = [
    Verb::Where,
    Verb::Show,
    Verb::Goto,
    Verb::Back,
    Verb::On,
    Verb::Watch,
    Verb::Break,
    Verb::Unwatch,
    Verb::Cont,
    Verb::Rcont,
    Verb::Sync,
    Verb::Quit,
];

impl Verb {
    // Returns its word. `Other` has none.
    fn word(self) -> &'static str
        ensures { result.now ≡ word_of self }
    {
        match self {
            Verb::Where => "where",
            Verb::Show => "show",
            Verb::Goto => "goto",
            Verb::Back => "back",
            Verb::On => "on",
            Verb::Watch => "watch",
            Verb::Break => "break",
            Verb::Unwatch => "unwatch",
            Verb::Cont => "cont",
            Verb::Rcont => "rcont",
            Verb::Sync => "sync",
            Verb::Quit => "quit",
            Verb::Other => "",
        }
    }

    fn is_named(self, word: &[u8]) -> bool
        ensures { result ≡ bytes_eq word.now (word_of self) }
    {
        word == self.word().as_bytes()
    }
}

// Returns the verb that a word names.
pub(crate) fn parse_verb(word: &[u8]) -> Verb
    ensures { result ≡ verb_of word.now }
{
    VERBS
        .iter()
        .find(|verb| verb.is_named(word))
        .copied()
        .unwrap_or(Verb::Other)
}
