ghost use Rattle.std.specs.Prelude.{◌≡◌};
ghost use Rattle.audit_file.specs.Verdict.{start_at};

use feed_reader::BlockKind;
use feed_reader::csa_terms::simm_kinds::Name;
use mh_io::mh_units::Bytes;

/// Where a reading is among the sets and entries.
#[derive(Clone, Copy)]
pub(crate) struct Place {
    /// The sets that were begun.
    pub sets: u32,
    /// The number of the entry in its set, from 1; 0 where there is none.
    pub entry: u32,
    /// The entries of the set.
    pub count: u32,
    /// The entries that were told, of all sets.
    pub total: u32,
}

/// A block of this kind and this set, which the line `first` began, with the lines so far.
#[derive(Drop)]
pub(crate) struct OpenBlock {
    pub caller: u32,
    pub first: u32,
    pub kind: BlockKind,
    pub set: Name,
    pub block: Bytes,
}

/// What the next line is to be.
#[derive(Drop)]
pub(crate) enum Phase {
    /// That of a set, or none.
    AtSet,
    /// That of a caller.
    AtCaller,
    /// The first of a message.
    AtEvent { caller: u32 },
    /// One within a block.
    InBlock(OpenBlock),
    /// That of a reply.
    AtReply,
}

/// How far a reading came.
#[derive(Drop)]
pub(crate) struct At {
    pub place: Place,
    pub phase: Phase,
}

impl At {
    /// Before the first line.
    pub fn start() -> At
        ensures { result ≡ start_at }
    {
        At {
            place: Place {
                sets: 0,
                entry: 0,
                count: 0,
                total: 0,
            },
            phase: Phase::AtSet,
        }
    }
}
