ghost use Rattle.std.specs.Prelude.{◌≡◌, ◌++◌, List, [], length, true, IfSome, IfOk, OnOk};
ghost use Rattle.std.specs.List.{list_all};
ghost use Rattle.std.specs.Map.{lookup};
ghost use Rattle.simm_rules.specs.SimmKinds.declared.key.FactorKey.{FactorKey};
ghost use Rattle.simm_rules.specs.SimmKinds.declared.row.CrifRow.{CrifRow as Row};
ghost use Rattle.simm_rules.specs.SimmKinds.Batch.{is_in_range};
ghost use Rattle.simm_rules.specs.SimmKinds.Order.{same_key};
ghost use Rattle.simm_rules.specs.Net.{Sensitivity, sensitivity};
ghost use Rattle.factor_book.specs.Holdings.{CanJoin, IsSmall, first, with_others};
ghost use Rattle.factor_book.specs.Filing.{ArePlaced, AreSmall, factors_by, gathered, found};
ghost use Rattle.factor_book.specs.Netting.{AreNets, AreNetsOf, HasNetRoom, HasNetRoomFor};

use crate::address::Address;
use crate::filing::add_at_place;
use crate::holding::Holding;
use crate::place_factors::PlaceFactors;
use indexmap::IndexMap;
use simm_rules::mh_units::Cents;
use simm_rules::simm_kinds::{CrifRow, FactorKey, orders_are_defined};
use std::alloc::{AllocError, Global};
use std::collections::BTreeMap;
use std::marker::Model;

/// What rows come to by themselves, before they come to a book: of each of their keys what the
/// sensitivities to it come to. Rows that are no sensitivities are of no key. The rows lend their
/// keys, and each row costs a hash of its key. Contracts see the list of the keys, each with what
/// it comes to.
#[derive(Drop)]
pub struct NettedRows<'a> {
    by_key: IndexMap<&'a FactorKey, Holding>,
}

impl<'a> Model for NettedRows<'a> {
    ghost use Rattle.std.specs.Prelude.{List};
    ghost use Rattle.simm_rules.specs.SimmKinds.declared.key.FactorKey.{FactorKey};
    ghost use Rattle.factor_book.specs.declared.holding.Holding.{Holding};
    ghost use Rattle.factor_book.specs.Netting.{lent_factors};

    ghost Value = { List (FactorKey × Holding) };

    ghost view = { λ n. lent_factors n.by_key.entries };
}

impl<'a> NettedRows<'a> {
    /// No rows. It takes no memory.
    pub fn new(alloc: Global) -> Self
        ensures { result ≡ [] }
    {
        NettedRows {
            by_key: IndexMap::new(alloc),
        }
    }

    /// How many keys there are. It costs the same however many.
    pub(crate) fn len(&self) -> usize
        ensures { result ≡ length self.now }
    {
        self.by_key.len()
    }

    /// Nets rows with those so far. Their amounts are those that a batch can have; fewer than 2^32
    /// rows are netted afterwards. The only error is want of memory, after which it is of no use.
    pub fn add_rows(&mut self, rows: &'a [CrifRow]) -> Result<(), AllocError>
        requires room { HasNetRoom self.old (length rows.now) }
        requires amounts { list_all is_in_range rows.now ≡ true }
        ensures { (held : List Row) → AreNets held self.old
            → OnOk result (AreNets (held ++ rows.now) self.new) }
    {
        for row in rows {
            self.add_row(row)?;
        }
        Ok(())
    }

    /// Each key is filed at its place, with what its sensitivities come to. The only error is want
    /// of memory.
    pub(crate) fn filed(&self, alloc: Global) -> Result<BTreeMap<Address, PlaceFactors>, AllocError>
        ensures filing { IfOk result (λ filed. ArePlaced filed.entries) }
        ensures found { IfOk result (λ filed.
            (k : FactorKey) → found (factors_by filed.entries) k ≡ lookup (same_key k) self.now) }
        ensures counted { IfOk result (λ filed.
            length (gathered (factors_by filed.entries)) ≡ length self.now) }
    {
        orders_are_defined();
        let mut filed = BTreeMap::new(alloc);
        for (key, holding) in &self.by_key {
            add_at_place(&mut filed, alloc, key, *holding)?;
        }
        Ok(filed)
    }

    /// Nets a row.
    fn add_row(&mut self, row: &'a CrifRow) -> Result<(), AllocError>
        requires room { HasNetRoomFor (sensitivity row.now) self.old }
        requires amounts { AreSmall (sensitivity row.now) }
        ensures { (ss : List Sensitivity) → AreNetsOf ss self.old
            → OnOk result (AreNetsOf (ss ++ sensitivity row.now) self.new) }
    {
        match row {
            CrifRow::Sensitivity { key, amount } => self.add(key, *amount),
            CrifRow::Notional { .. }
            | CrifRow::FixedAmount(_)
            | CrifRow::NotionalFactor { .. }
            | CrifRow::Multiplier { .. } => Ok(()),
        }
    }

    /// Nets a sensitivity.
    fn add(&mut self, key: &'a FactorKey, amount: Cents) -> Result<(), AllocError>
        requires room { IfSome (lookup (same_key key.now) self.old)
            (λ had. CanJoin had (first amount.0)) }
        requires amount { IsSmall amount.0 }
        ensures { OnOk result ((k : FactorKey) → lookup (same_key k) self.new
            ≡ with_others (λ q. lookup (same_key q) self.old) key.now (first amount.0) k) }
    {
        orders_are_defined();
        let one = Holding::first(amount);
        match self.by_key.get_mut(&key) {
            Some(had) => *had = had.joined(one),
            None => {
                self.by_key.insert(key, one)?;
            }
        }
        Ok(())
    }
}
