ghost use Rattle.std.specs.Prelude.{◌≡◌};
ghost use Rattle.std.specs.Str.{bytes_eq};
ghost use Rattle.feed_reader.specs.Line.{is_passed_over, is_end};
ghost use Rattle.feed_reader.specs.Words.{side_word_text, word_text, word_of};

/// The first field of a message, which says what the others are.
#[derive(Clone, Copy)]
pub(crate) enum Word {
    Crif,
    Tables,
    Withdraw,
    Side(SideWord),
}

/// The first field of a message that asks for an event beside the trades.
#[derive(Clone, Copy)]
pub(crate) enum SideWord {
    Put,
    Take,
    Mark,
    Close,
    Ask,
    Call,
}

impl SideWord {
    fn text(self) -> &'static str
        ensures { result.now ≡ side_word_text self }
    {
        match self {
            SideWord::Put => "PUT",
            SideWord::Take => "TAKE",
            SideWord::Mark => "MARK",
            SideWord::Close => "CLOSE",
            SideWord::Ask => "ASK",
            SideWord::Call => "CALL",
        }
    }
}

impl Word {
    const ALL: [Word; 9] = [
        Word::Crif,
        Word::Tables,
        Word::Withdraw,
        Word::Side(SideWord::Put),
        Word::Side(SideWord::Take),
        Word::Side(SideWord::Mark),
        Word::Side(SideWord::Close),
        Word::Side(SideWord::Ask),
        Word::Side(SideWord::Call),
    ];

    fn text(self) -> &'static str
        ensures { result.now ≡ word_text self }
    {
        match self {
            Word::Crif => "CRIF",
            Word::Tables => "TABLES",
            Word::Withdraw => "WITHDRAW",
            Word::Side(word) => word.text(),
        }
    }

    /// The word that the field is, if it is one.
    pub fn of(field: &[u8]) -> Option<Word>
        ensures { result ≡ word_of field.now }
    {
        Word::ALL
            .iter()
            .find(|word| is_word(field, word.text()))
            .copied()
    }
}

/// The line that ends a block.
const END: &str = "END";

/// Whether the bytes are just this word. It takes no memory.
pub fn is_word(bytes: &[u8], word: &str) -> bool
    ensures { result ≡ bytes_eq bytes.now word.now }
{
    bytes == word.as_bytes()
}

/// Whether the line ends a block.
pub fn is_end(line: &[u8]) -> bool
    ensures { result ≡ is_end line.now }
{
    is_word(line, END)
}

/// Whether the line is passed over outside a block: it is empty or begins with `#`.
pub fn is_passed_over(line: &[u8]) -> bool
    ensures { result ≡ is_passed_over line.now }
{
    matches!(line, [] | [b'#', ..])
}
