ghost use Rattle.std.specs.Prelude.{◌≡◌, ◌∷◌, ◌++◌, List, [], length, map, nat_eq, true, flat_map};
ghost use Rattle.std.specs.Prelude.{IsPermutation, MatchOption, IfOk, OnOk, OnErr};
ghost use Rattle.std.specs.List.{list_all};
ghost use Rattle.std.specs.Map.{lookup};
ghost use Rattle.std.specs.Map.Iter.{ShowsInOrder, deref, deref_pair};
ghost use Rattle.simm_rules.specs.SimmKinds.declared.key.FactorKey.{FactorKey};
ghost use Rattle.simm_rules.specs.SimmKinds.declared.row.CrifRow.{CrifRow as Row};
ghost use Rattle.simm_rules.specs.SimmKinds.Batch.{is_in_range};
ghost use Rattle.simm_rules.specs.SimmKinds.Order.{same_key};
ghost use Rattle.simm_rules.specs.Net.{Sensitivity, sensitivity, sensitivities, net};
ghost use Rattle.factor_book.specs.declared.address.Address.{Address as At};
ghost use Rattle.factor_book.specs.declared.holding.Holding.{Holding};
ghost use Rattle.factor_book.specs.Holdings.{IsSmall, rows_at};
ghost use Rattle.factor_book.specs.Factors.{factors_in, factors_of, count_of};
ghost use Rattle.factor_book.specs.Factors.{IsBook, HasRoom, AreHeld};
ghost use Rattle.factor_book.specs.Places.{Lent, addressed, factors_at, lent_at, by_place, by_side};
ghost use Rattle.factor_book.specs.Filing.{AreSmall, HasRoomFor, Holds};
ghost use Rattle.factor_book.specs.Netting.{AreNets, IsNetting};

use crate::address::Address;
use crate::filing::{add_at_place, take_at_place};
use crate::holding::Holding;
use crate::netted_rows::NettedRows;
use crate::place::{BookSide, Place};
use crate::place_factors::PlaceFactors;
use crate::side_places::side_bounds;
use simm_rules::mh_units::Cents;
use simm_rules::simm_kinds::{BucketId, CrifRow, FactorKey, ProductClass, RiskClass};
use std::alloc::{AllocError, Global};
use std::collections::BTreeMap;
use std::collections::btree_map::{Range, Values};
use std::marker::Model;

/// The risk factors of the rows that the book holds: for each its net sensitivity, its gross size
/// and its number of rows. Rows that are no sensitivities are of no factor. Contracts see the list
/// of factors in key order: a book holds rows where its list is theirs. The factors are kept by
/// place, so that those of a place are lent as they stand. Finding a key costs the logarithm of
/// the number of keys.
#[derive(Drop)]
pub struct Factors {
    by_place: BTreeMap<Address, PlaceFactors>,
    // how many keys all places have
    keys: usize,
}

impl Model for Factors {
    ghost use Rattle.std.specs.Prelude.{List};
    ghost use Rattle.simm_rules.specs.SimmKinds.declared.key.FactorKey.{FactorKey};
    ghost use Rattle.factor_book.specs.declared.holding.Holding.{Holding};
    ghost use Rattle.factor_book.specs.Filing.{factors_by, gathered, IsPlacedBook};

    ghost Value = { List (FactorKey × Holding) };

    ghost view = { λ f. gathered (factors_by f.by_place.entries) };

    ghost invariant = { λ f. IsPlacedBook f.by_place.entries f.keys };
}

impl Factors {
    /// A book that holds no rows. It takes no memory.
    pub fn new(alloc: Global) -> Self
        ensures { result ≡ [] }
    {
        Factors {
            by_place: BTreeMap::new(alloc),
            keys: 0,
        }
    }

    /// A book of the rows that were netted. It costs their keys, each of which is copied and put in
    /// order among those of its place once. The only error is want of memory.
    pub fn of(alloc: Global, rows: &NettedRows<'_>) -> Result<Factors, AllocError>
        requires { IsNetting rows.now }
        ensures { (held : List Row) → AreNets held rows.now
            → IfOk result (λ factors. factors ≡ factors_of held) }
    {
        Ok(Factors {
            by_place: rows.filed(alloc)?,
            keys: rows.len(),
        })
    }

    /// An equal book, which holds the same rows. It costs the keys, each of which is copied. The
    /// only error is want of memory.
    pub fn copy(&self, alloc: Global) -> Result<Factors, AllocError>
        ensures { IfOk result (λ copy. copy ≡ self.now) }
    {
        let mut by_place = BTreeMap::new(alloc);
        for (address, factors) in &self.by_place {
            by_place.insert(*address, factors.copy(alloc)?)?;
        }
        Ok(Factors {
            by_place,
            keys: self.keys,
        })
    }

    /// Does nothing: what each book keeps.
    pub fn facts(&self)
        ensures { IsBook self.now }
    {
        let _filed = &self.by_place;
    }

    /// How many factors there are, which are the different keys of the rows. It costs the same
    /// however many.
    pub fn len(&self) -> usize
        ensures { result ≡ length self.now }
    {
        self.keys
    }

    /// Whether there are none: no row held is a sensitivity.
    pub fn is_empty(&self) -> bool
        ensures { result ≡ nat_eq (length self.now) 0 }
    {
        self.keys == 0
    }

    /// Adds rows, whose amounts are those that a batch can have; fewer than 2^32 rows are held
    /// afterwards. A key is copied where it is new. For want of memory nothing changes.
    pub fn add_rows(&mut self, alloc: Global, rows: &[CrifRow]) -> Result<(), AllocError>
        requires room { HasRoom self.old (length rows.now) }
        requires amounts { list_all is_in_range rows.now ≡ true }
        ensures ok { (held : List Row) → self.old ≡ factors_of held
            → OnOk result (self.new ≡ factors_of (held ++ rows.now)) }
        ensures err { OnErr result (self.new ≡ self.old) }
    {
        self.facts();
        for (index, row) in rows.iter().enumerate() {
            if let Err(fault) = self.add_row(alloc, row) {
                self.take_each(&rows[..index]);
                return Err(fault);
            }
        }
        Ok(())
    }

    /// Takes rows that are held. A key goes with its last row, whatever its net, and stays as long
    /// as it has one. It takes no memory.
    pub fn take_rows(&mut self, rows: &[CrifRow])
        requires { AreHeld rows.now self.old }
        ensures { (before after : List Row) → self.old ≡ factors_of (before ++ rows.now ++ after)
            → self.new ≡ factors_of (before ++ after) }
    {
        self.take_each(rows);
    }

    /// The net sensitivity to a key in cents, 0 where no row has it. It takes no memory.
    pub fn net(&self, key: &FactorKey) -> i128
        ensures { (held : List Row) → self.now ≡ factors_of held
            → result ≡ net (sensitivities held) key.now }
    {
        match self.holding(key) {
            Some(holding) => holding.net,
            None => 0,
        }
    }

    /// How many rows a key has, 0 where it has none. It takes no memory.
    pub fn rows(&self, key: &FactorKey) -> u32
        ensures value { result ≡ rows_at self.now key.now }
        ensures held { (held : List Row) → self.now ≡ factors_of held
            → result ≡ count_of (sensitivities held) key.now }
    {
        match self.holding(key) {
            Some(holding) => holding.rows,
            None => 0,
        }
    }

    /// What the rows of a key come to; `None` where it has none. It takes no memory, and costs the
    /// logarithm of the number of keys.
    pub fn holding(&self, key: &FactorKey) -> Option<Holding>
        ensures { result ≡ lookup (same_key key.now) self.now }
    {
        self.by_place.get(&Place::of(key).address())?.holding(key)
    }

    /// Lends a place with its factors, in key order; `None` where it has none. It takes no memory,
    /// and costs the logarithm of the number of places.
    pub fn at(&self, place: &Place) -> Option<&PlaceFactors>
        ensures { MatchOption result (factors_at place.now self.now ≡ [])
            (λ lent. lent.now ≡ lent_at self.now place.now) }
    {
        self.by_place.get(&place.address())
    }

    /// How many factors a place has. It takes no memory, and costs the logarithm of the number
    /// of places.
    pub fn len_at(&self, place: &Place) -> usize
        ensures { result ≡ length (factors_at place.now self.now) }
    {
        match self.at(place) {
            Some(factors) => factors.len(),
            None => 0,
        }
    }

    /// Lends each place that has a factor, in the order of places, with its factors in key order.
    /// All factors are among them, each once. It takes no memory.
    pub fn places(&self) -> Values<'_, Address, PlaceFactors>
        ensures rest { result ≡ by_place self.now }
        ensures runs { ShowsInOrder (deref {X = Lent}) }
        ensures all { IsPermutation self.now (flat_map (λ lent. lent.factors) (by_place self.now)) }
    {
        self.by_place.values()
    }

    /// Lends each place of a side that has a factor, in the order of buckets, with its factors in
    /// key order, behind what it is sorted by. It takes no memory, and costs the logarithm of the
    /// number of places, and what it lends.
    pub fn side(
        &self,
        product: ProductClass,
        class: RiskClass,
        side: BookSide,
    ) -> Range<'_, Address, PlaceFactors>
        ensures rest { result ≡ map addressed (by_side product class side self.now) }
        ensures runs { ShowsInOrder (deref_pair {K = At} {X = Lent}) }
    {
        let last = Address {
            product,
            class,
            side,
            bucket: BucketId::Single,
        };
        let (start, end) = side_bounds(&last);
        self.by_place.range((start.as_ref(), end.as_ref()))
    }

    /// Takes rows that are held.
    fn take_each(&mut self, rows: &[CrifRow])
        requires { Holds (sensitivities rows.now) self.old }
        ensures { (rest : List Sensitivity)
            → self.old ≡ factors_in (sensitivities rows.now ++ rest) → self.new ≡ factors_in rest }
    {
        for row in rows {
            self.take_row(row);
        }
    }

    /// Adds a row. For want of memory nothing changes.
    fn add_row(&mut self, alloc: Global, row: &CrifRow) -> Result<(), AllocError>
        requires room { HasRoomFor (sensitivity row.now) self.old }
        requires amounts { AreSmall (sensitivity row.now) }
        ensures ok { (ss : List Sensitivity) → self.old ≡ factors_in ss
            → OnOk result (self.new ≡ factors_in (ss ++ sensitivity row.now)) }
        ensures err { OnErr result (self.new ≡ self.old) }
    {
        match row {
            CrifRow::Sensitivity { key, amount } => self.add(alloc, key, *amount),
            CrifRow::Notional { .. }
            | CrifRow::FixedAmount(_)
            | CrifRow::NotionalFactor { .. }
            | CrifRow::Multiplier { .. } => Ok(()),
        }
    }

    /// Takes a row that is held.
    fn take_row(&mut self, row: &CrifRow)
        requires { Holds (sensitivity row.now) self.old }
        ensures { (rest : List Sensitivity) → self.old ≡ factors_in (sensitivity row.now ++ rest)
            → self.new ≡ factors_in rest }
    {
        match row {
            CrifRow::Sensitivity { key, amount } => self.take(key, *amount),
            CrifRow::Notional { .. }
            | CrifRow::FixedAmount(_)
            | CrifRow::NotionalFactor { .. }
            | CrifRow::Multiplier { .. } => {}
        }
    }

    /// Adds a sensitivity. For want of memory nothing changes.
    fn add(&mut self, alloc: Global, key: &FactorKey, amount: Cents) -> Result<(), AllocError>
        requires room { HasRoomFor (record { key = key.now; amount = amount.0 } ∷ []) self.old }
        requires amount { IsSmall amount.0 }
        ensures ok { (ss : List Sensitivity) → self.old ≡ factors_in ss → OnOk result
            (self.new ≡ factors_in (ss ++ record { key = key.now; amount = amount.0 } ∷ [])) }
        ensures err { OnErr result (self.new ≡ self.old) }
    {
        if add_at_place(&mut self.by_place, alloc, key, Holding::first(amount))? {
            self.keys += 1;
        }
        Ok(())
    }

    /// Takes a sensitivity that is held.
    fn take(&mut self, key: &FactorKey, amount: Cents)
        requires { Holds (record { key = key.now; amount = amount.0 } ∷ []) self.old }
        ensures { (rest : List Sensitivity)
            → self.old ≡ factors_in (record { key = key.now; amount = amount.0 } ∷ rest)
            → self.new ≡ factors_in rest }
    {
        if take_at_place(&mut self.by_place, key, amount) {
            self.keys -= 1;
        }
    }
}
