//! Why a command ended before its work.
use crate::fault_line::FaultLine;
use crate::status::Status;
use mh_io::{FindRefused, ReadAllFault};
use mh_units::Text;
use std::alloc::AllocError;

/// Which file of a command.
#[derive(Clone, Copy)]
pub enum InputFile {
    /// The parameter file.
    Params,
    /// The CRIF file.
    Crif,
    /// The terms file.
    Terms,
    /// A feed.
    Feed,
    /// The CRIF file of a batch that is tried on a book.
    Candidate,
    /// The journals of a run with their replies, to be verified.
    Audit,
}

impl InputFile {
    ghost use Rattle.std.specs.Prelude.{◌≡◌};
    ghost use Rattle.command_files.specs.Ending.{status_of_refused};

    /// The status where the file is too long, or its grammar refuses it.
    fn status_of_refused(self) -> Status
        ensures { result ≡ status_of_refused self }
    {
        match self {
            InputFile::Params => Status::Params,
            InputFile::Crif | InputFile::Terms | InputFile::Candidate | InputFile::Audit => {
                Status::Terms
            }
            InputFile::Feed => Status::Feed,
        }
    }
}

/// Why a file gave nothing.
#[derive(Drop)]
pub enum FileFault {
    /// It isn't there or can't be opened.
    Missing,
    /// It can't be read to its end.
    Unread,
    /// It is too long.
    Long,
    /// Its grammar refuses it, with the line that tells its first fault.
    Refused(Text),
    /// Memory ran out for its bytes, its value or its line.
    Memory,
}

impl From<FindRefused> for FileFault {
    ghost use Rattle.std.specs.Prelude.{◌≡◌};
    ghost use Rattle.command_files.specs.Faults.{fault_of_find};

    ghost from_gives = { λ refused fault. fault ≡ fault_of_find refused };

    fn from(refused: FindRefused) -> FileFault {
        match refused {
            FindRefused::Failed => FileFault::Missing,
            FindRefused::Memory => FileFault::Memory,
        }
    }
}

impl From<ReadAllFault> for FileFault {
    ghost use Rattle.std.specs.Prelude.{◌≡◌};
    ghost use Rattle.command_files.specs.Faults.{fault_of_read};

    ghost from_gives = { λ refused fault. fault ≡ fault_of_read refused };

    fn from(refused: ReadAllFault) -> FileFault {
        match refused {
            ReadAllFault::ReadFault => FileFault::Unread,
            ReadAllFault::TooLong { .. } => FileFault::Long,
            ReadAllFault::Memory => FileFault::Memory,
        }
    }
}

impl From<AllocError> for FileFault {
    ghost use Rattle.std.specs.Prelude.{◌≡◌};
    ghost use Rattle.command_files.specs.declared.fault.FileFault.TheVariants.{Memory};

    ghost from_gives = { λ _ fault. fault ≡ Memory };

    fn from(_error: AllocError) -> FileFault {
        FileFault::Memory
    }
}

/// Why a command ended before its work.
#[derive(Drop)]
pub enum Fault<'a> {
    /// A file of the command gave nothing.
    OfFile {
        /// Which file it is.
        file: InputFile,
        /// Its name in the folder.
        name: &'a str,
        /// Why it gave nothing.
        why: FileFault,
    },
    /// What the files say together is refused, as a batch under the parameters is, with the line
    /// that tells why.
    Refused(Text),
    /// Memory ran out after the files were read.
    Memory,
}

impl Fault<'_> {
    ghost use Rattle.std.specs.Prelude.{◌≡◌};
    ghost use Rattle.command_files.specs.FaultLine.{line_text};
    ghost use Rattle.command_files.specs.Ending.{status_of, line_of};

    /// The status of a command that ended so.
    pub(crate) fn status(&self) -> Status
        ensures { result ≡ status_of self.now }
    {
        match self {
            Fault::OfFile { file, why, .. } => match why {
                FileFault::Missing => Status::Find,
                FileFault::Unread => Status::Read,
                FileFault::Long | FileFault::Refused(_) => file.status_of_refused(),
                FileFault::Memory => Status::Memory,
            },
            Fault::Refused(_) => Status::Terms,
            Fault::Memory => Status::Memory,
        }
    }

    /// The one line of a command that ended so.
    pub(crate) fn line(&self) -> FaultLine<'_>
        ensures { line_text result ≡ line_of self.now }
    {
        match self {
            Fault::OfFile { name, why, .. } => match why {
                FileFault::Missing => FaultLine::Named(b"FAULT\tFIND\t", name),
                FileFault::Unread => FaultLine::Named(b"FAULT\tREAD\t", name),
                FileFault::Long => FaultLine::Named(b"FAULT\tLONG\t", name),
                FileFault::Refused(line) => FaultLine::Whole(line.as_slice()),
                FileFault::Memory => FaultLine::Whole(b""),
            },
            Fault::Refused(line) => FaultLine::Whole(line.as_slice()),
            Fault::Memory => FaultLine::Whole(b""),
        }
    }
}
