ghost use Rattle.std.specs.Prelude.{◌≡◌};
ghost use Rattle.command_files.specs.StatusCode.{status_code};

/// How a command ended.
#[derive(Clone, Copy, Debug, PartialEq, Eq)]
pub enum Status {
    /// The command did its work, and all of its text is out.
    Done,
    /// The words are no form of a command.
    Words,
    /// The parameter file is too long, or its grammar refuses it.
    Params,
    /// A file that is neither the parameter file nor a feed is too long, or refused by its
    /// grammar, or what the files say together is refused: a batch for a row's bucket or
    /// its range.
    Terms,
    /// A file isn't there or can't be opened.
    Find,
    /// A feed ended inside a block, or a line of it or the whole is too long. Its whole messages
    /// were done.
    Feed,
    /// A file can't be read to its end.
    Read,
    /// The text couldn't be written whole.
    Write,
    /// Memory ran out.
    Memory,
    /// A desk failed, and may not have been told all calls. All text is out.
    Desk,
    /// A reply in an audit file isn't the right one.
    Wrong,
}

impl Status {
    /// The status with which the process ends.
    pub fn code(self) -> u8
        ensures { result ≡ status_code self }
    {
        match self {
            Status::Done => 0,
            Status::Words => 2,
            Status::Params => 3,
            Status::Terms => 4,
            Status::Find => 5,
            Status::Feed => 6,
            Status::Read => 7,
            Status::Write => 8,
            Status::Memory => 9,
            Status::Desk => 10,
            Status::Wrong => 11,
        }
    }
}
