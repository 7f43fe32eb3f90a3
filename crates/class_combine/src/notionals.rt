ghost use Rattle.std.specs.Prelude.{◌≡◌, IfSome, IsSomeAnd, IfOk, OnOk, OnErr};
ghost use Rattle.std.specs.FinMap as table;
ghost use Rattle.class_combine.specs.Summed.{CanGrow, CanShrink, IsSmall};
ghost use Rattle.class_combine.specs.Summed.{grown, shrunk, size_in, with_left};

use crate::notional_sum::NotionalSum;
use simm_params::mh_units::Cents;
use simm_params::simm_kinds::Name;
use std::alloc::{AllocError, Global};
use std::collections::BTreeMap;
use std::marker::Model;

/// What the notionals of each qualifier come to. Contracts see the map of them by qualifier.
#[derive(Drop)]
pub struct Notionals {
    by_qualifier: BTreeMap<Name, NotionalSum>,
}

impl Model for Notionals {
    ghost use Rattle.std.specs.FinMap as table;
    ghost use Rattle.std.specs.Coded.{coded_ℕ, coded_list};
    ghost use Rattle.simm_params.specs.SimmKinds.Order.{name_cmp};
    ghost use Rattle.class_combine.specs.declared.notional_sum.NotionalSum.{NotionalSum};
    ghost use Rattle.class_combine.specs.Summed.{sum_code};

    ghost Value = { table.FinMap name_cmp NotionalSum };

    ghost coded = { table.code (coded_list coded_ℕ) sum_code };

    ghost view = { λ n. table.from_entries n.by_qualifier.entries };
}

impl Notionals {
    /// No notionals. It takes no memory.
    pub fn new(alloc: Global) -> Self
        ensures { result ≡ table.empty }
    {
        Notionals {
            by_qualifier: BTreeMap::new(alloc),
        }
    }

    /// Equal notionals. The only error is want of memory.
    pub fn copy(&self, alloc: Global) -> Result<Notionals, AllocError>
        ensures { IfOk result (λ copy. copy ≡ self.now) }
    {
        let mut by_qualifier = BTreeMap::new(alloc);
        for (qualifier, sum) in self.by_qualifier.iter() {
            by_qualifier.insert(qualifier.copy(alloc)?, *sum)?;
        }
        Ok(Notionals { by_qualifier })
    }

    /// The sum of the sizes of a qualifier's notionals in cents, 0 where it has none.
    pub fn size(&self, qualifier: &Name) -> i128
        ensures { result ≡ size_in (table.get self.now qualifier.now) }
    {
        match self.by_qualifier.get(qualifier) {
            Some(sum) => sum.size,
            None => 0,
        }
    }

    /// Adds a notional. For want of memory nothing changes.
    pub fn add(&mut self, alloc: Global, qualifier: &Name, amount: Cents) -> Result<(), AllocError>
        requires room { IfSome (table.get self.old qualifier.now) CanGrow }
        requires amount { IsSmall amount.0 }
        ensures ok { OnOk result (self.new ≡ table.insert self.old qualifier.now
            (grown (table.get self.old qualifier.now) amount.0)) }
        ensures err { OnErr result (self.new ≡ self.old) }
    {
        match self.by_qualifier.get_mut(qualifier) {
            Some(sum) => *sum = sum.grown(amount),
            None => {
                let own = qualifier.copy(alloc)?;
                self.by_qualifier.insert(own, NotionalSum::first(amount))?;
            }
        }
        Ok(())
    }

    /// Takes a notional of a qualifier that is there. A qualifier goes with its last notional. It
    /// takes no memory.
    pub fn take(&mut self, qualifier: &Name, amount: Cents)
        requires held { IsSomeAnd (table.get self.old qualifier.now) CanShrink }
        requires amount { IsSmall amount.0 }
        ensures { self.new ≡ with_left self.old qualifier.now
            (shrunk (table.get self.old qualifier.now) amount.0) }
    {
        let Some(sum) = self.by_qualifier.get_mut(qualifier) else {
            return;
        };
        match sum.shrunk(amount) {
            Some(left) => *sum = left,
            None => {
                self.by_qualifier.remove(qualifier);
            }
        }
    }
}
