ghost use Rattle.std.specs.Prelude.{◌≡◌, ◌<◌, length, OnOk};
ghost use Rattle.feed_reader.specs.declared.message.Message.{Message as MessageValue};
ghost use Rattle.audit_file.specs.Rules.{Base, Log, Ruling, begun, Rules};

use feed_reader::Message;
use mh_io::mh_units::Text;
use std::alloc::{AllocError, Global};

/// Why a message has no reply.
#[derive(Clone, Copy)]
pub enum Unruled {
    /// Its block is no batch, or no tables.
    NotEvent,
    /// The journal is full.
    Full,
    /// There is no memory, which says nothing of it.
    Memory,
}

/// A journal of one set after another, which a rule answers.
pub trait Replay {
    ghost base: { Self → Base };

    ghost log: { Self → Log };

    ghost rule: { Base → Log → MessageValue → Ruling };

    /// Begins the set of this place, from 0, with no entries. The only error is want of memory.
    fn begin(&mut self, alloc: Global, set: u32) -> Result<(), AllocError>
        requires { set < length (base self.old).terms }
        ensures begun { OnOk result (log self.new ≡ begun set) }
        ensures base { base self.new ≡ base self.old };

    /// Answers the event of a message, adds it to the journal, and gives the text of its reply.
    fn apply(&mut self, alloc: Global, caller: u32, message: Message) -> Result<Text, Unruled>
        ensures rules { Rules (rule (base self.old)) (log self.old) (log self.new) caller message
            result }
        ensures base { base self.new ≡ base self.old };
}

impl From<AllocError> for Unruled {
    ghost use Rattle.std.specs.Prelude.{◌≡◌};
    ghost use Rattle.audit_file.specs.declared.replay.Unruled.TheVariants.{Memory};

    ghost from_gives = { λ _ why. why ≡ Memory };

    fn from(_error: AllocError) -> Unruled {
        Unruled::Memory
    }
}
