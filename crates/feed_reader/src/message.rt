use mh_io::mh_units::Bytes;
use side_events::SideEvent;
use side_events::csa_terms::simm_kinds::{Listed, MarginSide, Name};

/// A message of a feed. Names are not empty, amounts are in cents. Its fields stand in a line with
/// tabs between.
#[derive(Drop)]
pub enum Message {
    /// `CRIF` and the set, then lines, then `END`: `block` has the lines between, each with LF.
    Crif {
        set: Name,
        block: Bytes,
    },
    /// `TABLES` and the set, then lines, then `END`: `block` has the lines between, each with LF.
    Tables {
        set: Name,
        block: Bytes,
    },
    /// `WITHDRAW`, the set and at least one trade.
    Withdraw {
        set: Name,
        names: Listed<Name>,
    },
    /// A word, the set, and what the word has beside: `PUT` a lot of collateral, its class, its
    /// value, and `same` or `other` for its currency; `TAKE` a lot; `MARK` a lot and the value
    /// that it has from then on; `CLOSE` the number of a call, from 1; `ASK` nothing; `CALL` the
    /// local time of a demand, `YYYY-MM-DDTHH:MM`. Behind all of it may stand `post`, where the
    /// set's posted side is meant; without it the side that is collected is.
    OnSide {
        set: Name,
        side: MarginSide,
        event: SideEvent,
    },
}

/// A message, with the number of its first line.
#[derive(Drop)]
pub struct Fed {
    /// The number of its first line, from 1.
    pub line: u32,
    /// The message.
    pub message: Message,
}

/// What the lines of a block are.
#[derive(Clone, Copy)]
pub enum BlockKind {
    /// A CRIF file.
    Crif,
    /// A parameter file.
    Tables,
}

/// What a line outside a block is, where it isn't passed over.
pub enum Meaning {
    /// A block of this kind begins, for this set.
    Opens { kind: BlockKind, set: Name },
    /// It is this message.
    Tells { message: Message },
    /// It is none.
    Bad,
}
