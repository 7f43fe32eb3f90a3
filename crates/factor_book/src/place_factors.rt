ghost use Rattle.std.specs.Prelude.{◌≡◌, [], cond, is_none, length};
ghost use Rattle.std.specs.Prelude.{IsTrue, IfOk, OnOk, OnErr, IsSomeAnd, IfSome, ◌↔◌};
ghost use Rattle.std.specs.Map.{lookup, keys_of};
ghost use Rattle.std.specs.Map.Iter.{ShowsInOrder, deref_pair};
ghost use Rattle.std.specs.List.Sorted.{IsStrictlySortedBy};
ghost use Rattle.simm_rules.specs.SimmKinds.declared.key.FactorKey.{FactorKey};
ghost use Rattle.simm_rules.specs.SimmKinds.Order.{same_key, key_cmp};
ghost use Rattle.factor_book.specs.declared.holding.Holding.{Holding};
ghost use Rattle.factor_book.specs.Holdings.{CanJoin, CanShrink, IsSmall, shrunk, with_others};

use crate::holding::Holding;
use crate::place::Place;
use simm_rules::mh_units::Cents;
use simm_rules::simm_kinds::FactorKey;
use std::alloc::{AllocError, Global};
use std::collections::BTreeMap;
use std::collections::btree_map::Iter;
use std::marker::Model;

/// A place of a book with its factors. Contracts see the place, and the list of the factors in key
/// order, each as its key and what its sensitivities come to.
#[derive(Drop)]
pub struct PlaceFactors {
    place: Place,
    by_key: BTreeMap<FactorKey, Holding>,
}

impl Model for PlaceFactors {
    ghost use Rattle.factor_book.specs.Places.{Lent};

    ghost Value = { Lent };

    ghost view = { λ b. record { place = b.place; factors = b.by_key.entries } };
}

impl PlaceFactors {
    /// The place.
    pub fn place(&self) -> Place
        ensures { result ≡ self.now.place }
    {
        self.place
    }

    /// How many factors there are. It costs the same however many.
    pub fn len(&self) -> usize
        ensures { result ≡ length self.now.factors }
    {
        self.by_key.len()
    }

    /// Lends each key and what its sensitivities come to, in key order. It takes no memory.
    pub fn iter(&self) -> Iter<'_, FactorKey, Holding>
        ensures rest { result ≡ self.now.factors }
        ensures runs { ShowsInOrder (deref_pair {K = FactorKey} {X = Holding}) }
        ensures ordered { IsStrictlySortedBy key_cmp (keys_of self.now.factors) }
    {
        self.by_key.iter()
    }

    /// No factors of a place. It takes no memory.
    pub(crate) fn new(alloc: Global, place: Place) -> Self
        ensures { result ≡ record { place = place; factors = [] } }
    {
        PlaceFactors {
            place,
            by_key: BTreeMap::new(alloc),
        }
    }

    /// Whether there are none.
    pub(crate) fn is_empty(&self) -> bool
        ensures { IsTrue result ↔ (self.now.factors ≡ []) }
    {
        self.by_key.is_empty()
    }

    /// Equal factors. The only error is want of memory.
    pub(crate) fn copy(&self, alloc: Global) -> Result<PlaceFactors, AllocError>
        ensures { IfOk result (λ copy. copy ≡ self.now) }
    {
        let mut by_key = BTreeMap::new(alloc);
        for (key, holding) in self.iter() {
            by_key.insert(key.copy(alloc)?, *holding)?;
        }
        Ok(PlaceFactors {
            place: self.place,
            by_key,
        })
    }

    /// What the sensitivities to a key come to; `None` where there is none.
    pub(crate) fn holding(&self, key: &FactorKey) -> Option<Holding>
        ensures { result ≡ lookup (same_key key.now) self.now.factors }
    {
        self.by_key.get(key).copied()
    }

    /// Adds what sensitivities to a key come to, and tells whether the key is new. For want of
    /// memory nothing changes.
    pub(crate) fn add(
        &mut self,
        alloc: Global,
        key: &FactorKey,
        holding: Holding,
    ) -> Result<bool, AllocError>
        requires room { IfSome (lookup (same_key key.now) self.old.factors)
            (λ had. CanJoin had holding) }
        ensures ok { OnOk result ((k : FactorKey) → lookup (same_key k) self.new.factors
            ≡ with_others (λ q. lookup (same_key q) self.old.factors) key.now holding k) }
        ensures new { IfOk result (λ is_new. is_new
            ≡ is_none (lookup (same_key key.now) self.old.factors)) }
        ensures ordered { IsStrictlySortedBy key_cmp (keys_of self.new.factors) }
        ensures place { self.new.place ≡ self.old.place }
        ensures err { OnErr result (self.new ≡ self.old) }
    {
        match self.by_key.get_mut(key) {
            Some(had) => {
                *had = had.joined(holding);
                Ok(false)
            }
            None => {
                let own = key.copy(alloc)?;
                self.by_key.insert(own, holding)?;
                Ok(true)
            }
        }
    }

    /// Takes a sensitivity of a key that is there, and tells whether the key went with it, as its
    /// last. It takes no memory.
    pub(crate) fn take(&mut self, key: &FactorKey, amount: Cents) -> bool
        requires held { IsSomeAnd (lookup (same_key key.now) self.old.factors) CanShrink }
        requires amount { IsSmall amount.0 }
        ensures taken { (k : FactorKey) → lookup (same_key k) self.new.factors
            ≡ cond (same_key key.now k)
            (shrunk (lookup (same_key key.now) self.old.factors) amount.0)
            (lookup (same_key k) self.old.factors) }
        ensures gone { result
            ≡ is_none (shrunk (lookup (same_key key.now) self.old.factors) amount.0) }
        ensures ordered { IsStrictlySortedBy key_cmp (keys_of self.new.factors) }
        ensures place { self.new.place ≡ self.old.place }
    {
        let Some(holding) = self.by_key.get_mut(key) else {
            return false;
        };
        match holding.shrunk(amount) {
            Some(left) => {
                *holding = left;
                false
            }
            None => {
                self.by_key.remove(key);
                true
            }
        }
    }
}
