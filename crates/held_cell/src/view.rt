use crate::entry::Entry;
use crate::machine::Machine;
use std::collections::LinkedList;

/// One of the two seats that a joined seat was made of, as it was then. No value of it is made.
pub struct Part<E, R> {
    /// Its first caller.
    pub first: u32,
    /// How many callers it stood for.
    pub count: u32,
    /// The journal that it had seen.
    pub seen: LinkedList<Entry<E, R>>,
}

/// What a seat knows and has done, for proofs alone. No value of it is made.
pub struct View<B, E, R> {
    /// The base of the machine that the cell was started with. A seat that went into another
    /// has none.
    pub base: Option<B>,
    /// Its first caller.
    pub first: u32,
    /// How many callers it stands for.
    pub count: u32,
    /// The journal that it has seen.
    pub seen: LinkedList<Entry<E, R>>,
    /// Whether the machine is out with this seat.
    pub holding: bool,
    /// How often it loaded the word, tried to exchange it, and took it so.
    pub loads: u64,
    pub tries: u64,
    pub takes: u64,
    /// The word that it last loaded, and the one that its last exchange found.
    pub loaded: u64,
    pub found: u64,
    /// The two seats that it was joined from, until its next step.
    pub parts: LinkedList<Part<E, R>>,
}

/// A seat as the table knows it.
pub type Pass<M> = atomic_table::Seat<
    Option<M>,
    View<<M as Machine>::Base, <M as Machine>::Event, <M as Machine>::Reply>,
>;
