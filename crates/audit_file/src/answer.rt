ghost use Rattle.std.specs.Prelude.{◌≡◌};
ghost use Rattle.audit_file.specs.Faults.{audit_fault_number};

use std::alloc::AllocError;

/// What an audit file comes to.
#[derive(Clone, Copy)]
pub enum Verdict {
    /// Every reply is the written rule's, over the entries before it. So many sets were told, and
    /// entries of all of them.
    Yes { sets: u32, entries: u32 },
    /// The reply line of this entry of this set isn't that of the rule. Both are counted from 1.
    No { set: u32, entry: u32 },
}

/// Why an audit file has no verdict. Lines are counted from 1.
#[derive(Clone, Copy)]
pub enum AuditFault {
    /// This line isn't in the format, or the file ends before it.
    NotAudit { line: u32 },
    /// The journal of this set has no room for this entry. Both are counted from 1.
    Full { set: u32, entry: u32 },
    /// This line has no LF among its first 65,536 bytes.
    Long { line: u32 },
    /// The source gave this many bytes, one more than is read.
    TooLong { taken: u64 },
    /// The source failed, and its count of faults rose.
    ReadFault,
    /// There is no memory, which says nothing of the file.
    Memory,
}

impl AuditFault {
    /// The fault's number in print; want of memory has none.
    pub fn number(&self) -> Option<u8>
        ensures { result ≡ audit_fault_number self.now }
    {
        match self {
            AuditFault::NotAudit { .. } => Some(1),
            AuditFault::Full { .. } => Some(2),
            AuditFault::Long { .. } => Some(3),
            AuditFault::TooLong { .. } => Some(4),
            AuditFault::ReadFault => Some(5),
            AuditFault::Memory => None,
        }
    }
}

/// Why the reading goes no further.
pub(crate) enum Halt {
    /// It ends so.
    Ends(Result<Verdict, AuditFault>),
    /// There is no memory.
    Memory,
}

impl From<AllocError> for Halt {
    ghost use Rattle.std.specs.Prelude.{◌≡◌};
    ghost use Rattle.audit_file.specs.declared.answer.Halt.TheVariants.{Memory};

    ghost from_gives = { λ _ halt. halt ≡ Memory };

    fn from(_error: AllocError) -> Halt {
        Halt::Memory
    }
}
