//! The single steps of a seat on the word and the slot of its cell. What each tells is an equation
//! on the seat's view.
ghost use Rattle.std.specs.Prelude.{◌≡◌, ◌*◌, ◌%◌, ◌<◌, ◌==◌, ◌∷◌, [], length, false};
ghost use Rattle.std.specs.Prelude.{MatchBool, Some, None, OnOk, IfErr};
ghost use Rattle.held_cell.specs.Views.{given, missed};
ghost use Rattle.held_cell.specs.Rule.{Looks, Takes};
ghost use Rattle.held_cell.specs.Seats.{IsHolding, IsOut};
ghost use Rattle.held_cell.specs.Halts.{Explains, log_after};

use crate::cell::HeldCell;
use crate::machine::{Halt, Machine};
use crate::view::{Pass, View};
use atomic_table::Play;

/// A load.
pub struct Look;

impl<M: Machine> Play<Option<M>, View<M::Base, M::Event, M::Reply>> for Look {
    ghost use Rattle.held_cell.specs.Rule.{Looks};

    ghost then = { λ st m word n. Looks m word n };
}

/// An exchange that takes the machine.
pub struct Take;

impl<M: Machine> Play<Option<M>, View<M::Base, M::Event, M::Reply>> for Take {
    ghost use Rattle.held_cell.specs.Rule.{Tries};

    ghost then = { λ st m word n. Tries M.base M.journal M.is_legal st m word n };
}

/// A store that gives it home.
pub struct Give;

impl<M: Machine> Play<Option<M>, View<M::Base, M::Event, M::Reply>> for Give {
    ghost use Rattle.held_cell.specs.Rule.{Gives};

    ghost then = { λ st m word n. Gives M.journal m n };
}

impl<M: Machine> HeldCell<M> {
    // Loads the word.
    pub(crate) fn load(&self, pass: &mut Pass<M>) -> u64
        requires { pass.old.table_id ≡ self.now.table }
        ensures table { pass.new.table_id ≡ pass.old.table_id }
        ensures looks { Looks pass.old.me result pass.new.me }
    {
        self.table.shared.load::<Look>(pass, 0)
    }

    // Takes the word if it is still the one that was loaded, and answers the word that it found.
    pub(crate) fn take(&self, pass: &mut Pass<M>, loaded: u64) -> u64
        requires table { pass.old.table_id ≡ self.now.table }
        requires rests { (pass.old.me.1 ≡ []) × (pass.old.me.0.holding ≡ false)
            × (0 < pass.old.me.0.count) }
        requires even { loaded % 2 ≡ 0 }
        ensures table { pass.new.table_id ≡ pass.old.table_id }
        ensures tries { MatchBool (result == loaded)
            (Takes M.base M.journal M.is_legal pass.old.me.0 result pass.new.me)
            (pass.new.me ≡ (missed pass.old.me.0 result, pass.old.me.1)) }
    {
        self.table
            .shared
            .compare_exchange::<Take>(pass, 0, loaded, loaded + 1)
    }

    // Moves the machine out of the slot, which this seat holds.
    fn take_out(&self, pass: &mut Pass<M>) -> M
        requires table { pass.old.table_id ≡ self.now.table }
        requires holding { IsHolding M.is_legal M.base M.journal pass.old.me }
        ensures table { pass.new.table_id ≡ pass.old.table_id }
        ensures machine { pass.old.me.1 ≡ (0, Some result) ∷ [] }
        ensures pass { pass.new.me ≡ (pass.old.me.0, (0, None) ∷ []) }
    {
        self.table.shared.exchange(pass, 0, None).unwrap()
    }

    // Gives the machine home, and answers the length of its journal.
    fn put_home(&self, pass: &mut Pass<M>, machine: M) -> u32
        requires table { pass.old.table_id ≡ self.now.table }
        requires slot { pass.old.me.1 ≡ (0, None) ∷ [] }
        requires out { IsOut M.is_legal M.base M.journal pass.old.me.0 machine }
        ensures table { pass.new.table_id ≡ pass.old.table_id }
        ensures entries { result ≡ length (M.journal machine) }
        ensures pass { pass.new.me ≡ (given pass.old.me.0 (M.journal machine), []) }
    {
        let entries = machine.entries();
        let shared = &self.table.shared;
        let nothing = shared.exchange(pass, 0, Some(machine));
        let None = nothing else { unreachable!() };
        shared.store::<Give>(pass, 0, 2 * u64::from(entries));
        entries
    }

    // One step of the machine, which this seat took, and the length of the journal after it.
    pub(crate) fn work(
        &self,
        pass: &mut Pass<M>,
        caller: u32,
        event: M::Event,
    ) -> (Result<M::Reply, Halt<M::Event>>, u32)
        requires table { pass.old.table_id ≡ self.now.table }
        requires holding { IsHolding M.is_legal M.base M.journal pass.old.me }
        requires caller { caller ≡ pass.old.me.0.first }
        ensures table { pass.new.table_id ≡ pass.old.table_id }
        ensures pass { pass.new.me
            ≡ (given pass.old.me.0 (log_after pass.old.me.0.seen caller event result.0), []) }
        ensures entries { result.1 ≡ length pass.new.me.0.seen }
        ensures legal { (base : M.Base) → pass.new.me.0.base ≡ Some base
            → M.is_legal base pass.new.me.0.seen }
        ensures room { OnOk result.0 (¬ M.is_full pass.old.me.0.seen event) }
        ensures halt { IfErr result.0 (Explains M.weight M.is_full pass.old.me.0.seen event) }
    {
        let mut machine = self.take_out(pass);
        let answer = machine.step(caller, event);
        let entries = self.put_home(pass, machine);
        (answer, entries)
    }
}
