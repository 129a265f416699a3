//! The words that a line can start with.
ghost use Rattle.std.specs.Prelude.{◌≡◌, ◌≢◌, MatchOption};
ghost use Rattle.card_trace.specs.declared.script.keyword.Keyword.{Keyword};
ghost use Rattle.card_trace.specs.ScriptKeywords.{keyword_text};

/// The first words of table lines that both subcommands have: `app`, `object` and `locked`.
#[derive(Clone, Copy)]
pub enum TableWord {
    App,
    Object,
    Locked,
}

/// The first words of lines, of both subcommands: `app` to `locked`, `atr`, `plan`, `select`,
/// `get`, `put`, `send`, `>` (`Take`), `<` (`HandOut`), `reset` and `table`. Each subcommand has
/// some of them.
#[derive(Clone, Copy)]
pub enum Keyword {
    Adds(TableWord),
    Atr,
    Plan,
    Select,
    Get,
    Put,
    Send,
    Take,
    HandOut,
    Reset,
    Table,
}

impl Keyword {
    /// Returns the keyword with this text, in lower case; `None` for any other word.
    pub fn of(word: &[u8]) -> Option<Keyword>
        ensures { MatchOption result ((keyword : Keyword) → word.now ≢ keyword_text keyword)
            (λ keyword. word.now ≡ keyword_text keyword) }
    {
        match word {
            b"app" => Some(Keyword::Adds(TableWord::App)),
            b"object" => Some(Keyword::Adds(TableWord::Object)),
            b"locked" => Some(Keyword::Adds(TableWord::Locked)),
            b"atr" => Some(Keyword::Atr),
            b"plan" => Some(Keyword::Plan),
            b"select" => Some(Keyword::Select),
            b"get" => Some(Keyword::Get),
            b"put" => Some(Keyword::Put),
            b"send" => Some(Keyword::Send),
            b">" => Some(Keyword::Take),
            b"<" => Some(Keyword::HandOut),
            b"reset" => Some(Keyword::Reset),
            b"table" => Some(Keyword::Table),
            _ => None,
        }
    }
}
