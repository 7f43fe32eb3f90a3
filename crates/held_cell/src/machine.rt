ghost use Rattle.std.specs.Prelude.{◌≡◌, ℕ, List, [], ◌∷◌, ◌++◌, length, IfOk, OnOk, OnErr, IfErr};
ghost use Rattle.held_cell.specs.declared.entry.Entry.{Entry};
ghost use Rattle.held_cell.specs.Entries.{entry};
ghost use Rattle.held_cell.specs.Halts.{Explains};

/// Why a machine took no step. The event comes back, and the journal stands.
#[derive(Drop)]
pub enum Halt<E> {
    /// The machine is at its limit: its journal has so many entries and weighs so much.
    Full { entries: u32, weight: u32, event: E },
    /// There was no memory, and the machine had room.
    Memory { event: E },
}

/// A value that changes by events and keeps a journal of them.
pub trait Machine {
    /// What a caller asks.
    type Event;
    /// What it is answered.
    type Reply;
    /// What the machine works on and never changes, as its parameters.
    type Base;

    // What it works on.
    ghost base: { Self → Self.Base };

    // All steps so far, in order.
    ghost journal: { Self → List (Entry Self.Event Self.Reply) };

    // What a journal weighs against the limit.
    ghost weight: { List (Entry Self.Event Self.Reply) → ℕ };

    // Whether this event is too much for a machine with this journal.
    ghost is_full: { List (Entry Self.Event Self.Reply) → Self.Event → Type 0 };

    // Whether each entry of a journal is what it is to be, on this base.
    ghost is_legal: { Self.Base → List (Entry Self.Event Self.Reply) → Type 0 };

    /// The length of the journal.
    fn entries(&self) -> u32
        ensures { result ≡ length (journal self.now) };

    /// Takes one event and adds it to the journal with the reply, or halts and stays as it was.
    fn step(&mut self, caller: u32, event: Self::Event) -> Result<Self::Reply, Halt<Self::Event>>
        ensures base { base self.new ≡ base self.old }
        ensures legal { is_legal (base self.old) (journal self.old)
            → is_legal (base self.old) (journal self.new) }
        ensures done { IfOk result (λ reply.
            journal self.new ≡ journal self.old ++ entry caller event reply ∷ []) }
        ensures room { OnOk result (¬ is_full (journal self.old) event) }
        ensures unchanged { OnErr result (journal self.new ≡ journal self.old) }
        ensures halt { IfErr result (Explains weight is_full (journal self.old) event) };

    // A machine may begin on any base.
    ghost starts: { (b : Self.Base) → is_legal b [] };
}

/// What a call is answered.
#[derive(Drop)]
pub enum Outcome<M: Machine> {
    /// The call stands in the journal, which has so many entries with it.
    Done {
        reply: M::Reply,
        entries: u32,
    },
    /// The machine is at its limit, with so many entries and this weight. The event comes back.
    Full {
        entries: u32,
        weight: u32,
        event: M::Event,
    },
    /// There was no memory, and the machine had room. The event comes back.
    Memory {
        event: M::Event,
    },
}

/// What a call that waits for nobody is answered.
#[derive(Drop)]
pub enum TryOutcome<M: Machine> {
    /// The machine was free, and this is what the call was answered.
    Did(Outcome<M>),
    /// Another caller had the machine: the word that was loaded was odd, and then `found` is that
    /// word; or it was even, and the exchange found another. The event comes back.
    Busy {
        loaded: u64,
        found: u64,
        event: M::Event,
    },
}
