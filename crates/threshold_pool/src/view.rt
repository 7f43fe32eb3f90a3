use std::collections::LinkedList;

/// What a seat has done, for proofs alone. No value of it is made.
pub struct View {
    /// The total of its pool. A seat that went into another has none.
    pub total: u64,
    /// How many of the pool's parts it has.
    pub parts: u32,
    /// Its allotment.
    pub held: u64,
    /// Its moves: each amount that it got, and each that it gave, negated.
    pub own: LinkedList<i64>,
    /// What its allotment never was above.
    pub top: u64,
    /// The least rest that it was told as too little.
    pub least: u64,
    /// How often it loaded the word, and how often it tried to exchange it.
    pub loads: u64,
    pub tries: u64,
    /// The word that it last loaded, and the one that its last lost exchange found.
    pub loaded: u64,
    pub found: u64,
}

/// A seat as the table knows it.
pub type Pass = atomic_table::Seat<(), View>;
