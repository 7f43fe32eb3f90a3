//! Sensitivities go into the factors of their place, and out of them.
ghost use Rattle.std.specs.Prelude.{◌≡◌, cond, is_none, true, false};
ghost use Rattle.std.specs.Prelude.{IfSome, IsSomeAnd, IfOk, OnOk, OnErr};
ghost use Rattle.simm_rules.specs.SimmKinds.declared.key.FactorKey.{FactorKey};
ghost use Rattle.simm_rules.specs.SimmKinds.Order.{same_key};
ghost use Rattle.factor_book.specs.Holdings.{CanJoin, CanShrink, IsSmall, shrunk, with_others};
ghost use Rattle.factor_book.specs.Filing.{ArePlaced, TakesPlaced, factors_by, found};

use crate::address::Address;
use crate::holding::Holding;
use crate::place::Place;
use crate::place_factors::PlaceFactors;
use simm_rules::mh_units::Cents;
use simm_rules::simm_kinds::FactorKey;
use std::alloc::{AllocError, Global};
use std::collections::BTreeMap;

/// What is left at a place after a sensitivity was taken there.
#[derive(Clone, Copy)]
pub enum Left {
    /// More of its key.
    Key,
    /// Other keys alone.
    Others,
    /// Nothing.
    Nothing,
}

/// Adds what sensitivities to a key come to, and tells whether the key is new. For want of memory
/// each key keeps what it had.
pub fn add_at_place(
    filed: &mut BTreeMap<Address, PlaceFactors>,
    alloc: Global,
    key: &FactorKey,
    holding: Holding,
) -> Result<bool, AllocError>
    requires filing { ArePlaced filed.old.entries }
    requires room { IfSome (found (factors_by filed.old.entries) key.now)
        (λ had. CanJoin had holding) }
    ensures filing { ArePlaced filed.new.entries }
    ensures ok { OnOk result ((k : FactorKey) → found (factors_by filed.new.entries) k
        ≡ with_others (found (factors_by filed.old.entries)) key.now holding k) }
    ensures new { IfOk result (λ is_new. is_new
        ≡ is_none (found (factors_by filed.old.entries) key.now)) }
    ensures err { OnErr result ((k : FactorKey) → found (factors_by filed.new.entries) k
        ≡ found (factors_by filed.old.entries) k) }
{
    let place = Place::of(key);
    let at = place.address();
    match filed.get_mut(&at) {
        Some(factors) => factors.add(alloc, key, holding),
        None => {
            let mut factors = PlaceFactors::new(alloc, place);
            factors.add(alloc, key, holding)?;
            filed.insert(at, factors)?;
            Ok(true)
        }
    }
}

/// Takes a sensitivity of a key that is there, and tells whether the key went with it. A place
/// goes with its last key. It takes no memory.
pub fn take_at_place(
    filed: &mut BTreeMap<Address, PlaceFactors>,
    key: &FactorKey,
    amount: Cents,
) -> bool
    requires filing { ArePlaced filed.old.entries }
    requires held { IsSomeAnd (found (factors_by filed.old.entries) key.now) CanShrink }
    requires amount { IsSmall amount.0 }
    ensures filing { ArePlaced filed.new.entries }
    ensures taken { (k : FactorKey) → found (factors_by filed.new.entries) k
        ≡ cond (same_key key.now k)
        (shrunk (found (factors_by filed.old.entries) key.now) amount.0)
        (found (factors_by filed.old.entries) k) }
    ensures gone { result
        ≡ is_none (shrunk (found (factors_by filed.old.entries) key.now) amount.0) }
{
    match take_filed(filed, key, amount) {
        Left::Key => false,
        Left::Others => true,
        Left::Nothing => {
            filed.remove(&Place::of(key).address());
            true
        }
    }
}

/// Takes a sensitivity of a key that is there; its place stays, whatever is left there.
fn take_filed(filed: &mut BTreeMap<Address, PlaceFactors>, key: &FactorKey, amount: Cents) -> Left
    requires filing { ArePlaced filed.old.entries }
    requires held { IsSomeAnd (found (factors_by filed.old.entries) key.now) CanShrink }
    requires amount { IsSmall amount.0 }
    ensures { TakesPlaced filed.old.entries filed.new.entries key.now amount.0 result }
{
    let Some(factors) = filed.get_mut(&Place::of(key).address()) else {
        return Left::Key;
    };
    if !factors.take(key, amount) {
        return Left::Key;
    }
    if factors.is_empty() {
        Left::Nothing
    } else {
        Left::Others
    }
}
