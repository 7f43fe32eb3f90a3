//! The single steps of a seat on the word of its pool. What each tells is an equation on the
//! seat's view.
ghost use Rattle.std.specs.Prelude.{◌≡◌, ◌-◌, ◌<◌, ◌≤◌, ◌==◌, MatchBool};
ghost use Rattle.threshold_pool.specs.Views.{won, missed, gave};
ghost use Rattle.threshold_pool.specs.Rule.{Looks};

use crate::pool::Pool;
use crate::view::{Pass, View};
use atomic_table::Play;
use std::marker::{Brand, PhantomData};

/// A number that a step is told, for proofs alone. Each call picks it.
pub trait Number {
    ghost use Rattle.std.specs.Prelude.{ℕ};

    ghost value: { ℕ };
}

impl Number for Brand {
    ghost value = { 0 };
}

/// A load, where the amount `N` is asked.
pub struct Look<N> {
    of: PhantomData<N>,
}

impl<N: Number> Play<(), View> for Look<N> {
    ghost use Rattle.threshold_pool.specs.Rule.{Looks};

    ghost then = { λ st m word n. Looks N.value m word n };
}

/// An exchange that takes an amount.
pub struct Take;

impl Play<(), View> for Take {
    ghost use Rattle.threshold_pool.specs.Rule.{Tries};

    ghost then = { λ st m word n. Tries st m word n };
}

/// An addition that gives an amount back.
pub struct GiveBack;

impl Play<(), View> for GiveBack {
    ghost use Rattle.threshold_pool.specs.Rule.{Gives};

    ghost then = { λ st m word n. Gives st m n };
}

impl Pool {
    // Loads the word, where the amount `asked` is asked.
    pub(crate) fn load(&self, pass: &mut Pass, asked: u64) -> u64
        requires table { pass.old.table_id ≡ self.now.table }
        requires some_parts { 0 < pass.old.me.0.parts }
        ensures table { pass.new.table_id ≡ pass.old.table_id }
        ensures looks { Looks asked pass.old.me result pass.new.me }
    {
        self.look::<Brand>(pass, asked)
    }

    // The same, where proofs know the amount as `N`.
    fn look<N: Number>(&self, pass: &mut Pass, asked: u64) -> u64
        requires asked { asked ≡ N.value }
        requires table { pass.old.table_id ≡ self.now.table }
        requires some_parts { 0 < pass.old.me.0.parts }
        ensures table { pass.new.table_id ≡ pass.old.table_id }
        ensures looks { Looks asked pass.old.me result pass.new.me }
    {
        self.table.shared.load::<Look<N>>(pass, 0)
    }

    // Takes `loaded - left` if the word is still the one that was loaded, and answers the word
    // that it found.
    pub(crate) fn take(&self, pass: &mut Pass, loaded: u64, left: u64) -> u64
        requires table { pass.old.table_id ≡ self.now.table }
        requires some_parts { 0 < pass.old.me.0.parts }
        requires left { left ≤ loaded }
        ensures table { pass.new.table_id ≡ pass.old.table_id }
        ensures tries { MatchBool (result == loaded)
            (pass.new.me ≡ (won pass.old.me.0 (loaded - left), pass.old.me.1))
            (pass.new.me ≡ (missed pass.old.me.0 result, pass.old.me.1)) }
    {
        self.table
            .shared
            .compare_exchange::<Take>(pass, 0, loaded, left)
    }

    // Adds the amount to the word.
    pub(crate) fn add(&self, pass: &mut Pass, amount: u64)
        requires table { pass.old.table_id ≡ self.now.table }
        requires some_parts { 0 < pass.old.me.0.parts }
        requires amount { amount ≤ pass.old.me.0.held }
        ensures table { pass.new.table_id ≡ pass.old.table_id }
        ensures gave { pass.new.me ≡ (gave pass.old.me.0 amount, pass.old.me.1) }
    {
        self.table.shared.fetch_add::<GiveBack>(pass, 0, amount);
    }
}
