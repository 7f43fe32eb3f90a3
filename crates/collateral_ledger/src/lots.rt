ghost use Rattle.std.specs.Prelude.{◌≡◌, ◌∷◌, ◌++◌, ◌*◌, ◌<◌, ◌≤◌, ◌^◌, []};
ghost use Rattle.std.specs.Prelude.{false, true, length, map, OnOk, OnErr, unsigned_abs};
ghost use Rattle.std.specs.Bool.{OnTrue, OnFalse};
ghost use Rattle.collateral_ledger.specs.Holdings.{AreLots, IsLotValue};
ghost use Rattle.collateral_ledger.specs.Booked.{total, counted};
ghost use Rattle.collateral_ledger.specs.Changes.{has_lot, with_value, without_lot};

use crate::rated_lot::RatedLot;
use csa_terms::mh_units::Rate4;
use csa_terms::simm_kinds::Name;
use std::alloc::{AllocError, Global};
use std::collections::BTreeMap;
use std::marker::Model;

/// The lots that are held, each found by its name, and what they count for together. Contracts see
/// them in the order in which they were put.
#[derive(Drop)]
pub struct Lots {
    by_name: BTreeMap<Name, RatedLot>,
    // Above the place of each lot.
    next_place: u64,
    counted: i128,
}

impl Model for Lots {
    ghost use Rattle.std.specs.Prelude.{List};
    ghost use Rattle.collateral_ledger.specs.Holdings.{Lot};
    ghost use Rattle.collateral_ledger.specs.Kept.{AreRated, lots_at};

    ghost Value = { List Lot };

    ghost view = { λ l. lots_at l.by_name.entries };

    ghost invariant = { λ l. AreRated l.next_place l.counted l.by_name.entries };
}

impl Lots {
    /// No lot. It takes no memory.
    pub fn new(alloc: Global) -> Lots
        ensures { result ≡ [] }
    {
        Lots {
            by_name: BTreeMap::new(alloc),
            next_place: 0,
            counted: 0,
        }
    }

    /// How many lots are held.
    pub fn len(&self) -> usize
        ensures { result ≡ length self.now }
    {
        self.by_name.len()
    }

    /// Whether a lot of this name is there.
    pub fn has(&self, name: &Name) -> bool
        ensures { result ≡ has_lot name.now self.now }
    {
        self.by_name.contains_key(name)
    }

    /// Adds a lot behind the others. For want of memory nothing changes, and the name is dropped;
    /// so it is where 2^64 - 1 lots were added, and no place is left.
    pub fn push(&mut self, name: Name, value: i64, rate: Rate4) -> Result<(), AllocError>
        requires new { has_lot name self.old ≡ false }
        requires room { length self.old < 4096 }
        requires in_range { IsLotValue value }
        requires small { unsigned_abs rate.0 ≤ 10000 }
        ensures ok { OnOk result
            (self.new ≡ self.old ++ record { name = name; value = value; rate = rate.0 } ∷ []) }
        ensures err { OnErr result (self.new ≡ self.old) }
    {
        let place = self.next_place;
        let Some(next_place) = place.checked_add(1) else {
            return Err(AllocError);
        };
        let lot = RatedLot::new(place, value, rate);
        let counted = lot.counted();
        self.by_name.insert(name, lot)?;
        self.next_place = next_place;
        self.counted += counted;
        Ok(())
    }

    /// Takes out the lot of this name, and tells whether it was there. The others keep their
    /// order. It takes no memory.
    pub fn remove(&mut self, name: &Name) -> bool
        ensures found { result ≡ has_lot name.now self.old }
        ensures taken { OnTrue result (self.new ≡ without_lot name.now self.old) }
        ensures unchanged { OnFalse result (self.new ≡ self.old) }
    {
        // The names ascend, so they are different.
        let _count = self.by_name.len();
        let Some(lot) = self.by_name.remove(name) else {
            return false;
        };
        self.counted -= lot.counted();
        true
    }

    /// Changes the value of the lot of this name. It takes no memory.
    pub fn set_value(&mut self, name: &Name, value: i64)
        requires known { has_lot name.now self.old ≡ true }
        requires in_range { IsLotValue value }
        ensures { self.new ≡ with_value name.now value self.old }
    {
        let Some(lot) = self.by_name.get_mut(name) else {
            return;
        };
        let more = lot.set_value(value);
        self.counted += more;
    }

    /// What the lots count for together.
    pub fn counted(&self) -> i128
        ensures value { result ≡ total (map counted self.now) }
        ensures size { unsigned_abs result ≤ 4096 * 10 ^ 15 }
    {
        self.counted
    }

    /// What each ledger's lots keep. It does nothing.
    pub fn facts(&self)
        ensures { AreLots self.now }
    {
        // The names ascend, so they are different.
        let _count = self.by_name.len();
    }
}
