ghost use Rattle.std.specs.Prelude.{◌≡◌, ◌<◌, [], length, option_map, IfOk, OnOk, OnErr};
ghost use Rattle.csa_terms.specs.Terms.{IsShare, AreHaircuts, haircut_in};
ghost use Rattle.csa_terms.specs.Held.{with_haircut, classes};
ghost use Rattle.toml_values.specs.SimmKinds.Order.{name_cmp};
ghost use Rattle.std.specs.List.Sorted.{IsStrictlySortedBy};

use std::alloc::{AllocError, Global};
use std::collections::BTreeMap;
use std::marker::Model;
use toml_values::mh_units::Rate4;
use toml_values::simm_kinds::Name;

/// The haircuts of collateral by its class, in ten-thousandths of the value: at most 256, each
/// from 0 to 1. Contracts see their list in the order of the classes.
#[derive(Drop)]
pub struct HaircutTable {
    rates: BTreeMap<Name, Rate4>,
}

impl Model for HaircutTable {
    ghost use Rattle.std.specs.Prelude.{List};
    ghost use Rattle.csa_terms.specs.Terms.{Haircut};
    ghost use Rattle.csa_terms.specs.Held.{haircuts_at, AreShares};

    ghost Value = { List Haircut };

    ghost view = { λ t. haircuts_at t.rates.entries };

    ghost invariant = { λ t. AreShares (haircuts_at t.rates.entries) };
}

impl HaircutTable {
    /// No haircut. It takes no memory.
    pub fn new(alloc: Global) -> Self
        ensures { result ≡ [] }
    {
        HaircutTable {
            rates: BTreeMap::new(alloc),
        }
    }

    /// Sets the haircut of a class, 0 to 10,000 ten-thousandths. The only error is want of memory,
    /// and then nothing changes.
    pub fn put(&mut self, class: Name, rate: Rate4) -> Result<(), AllocError>
        requires few { length self.old < 256 }
        requires share { IsShare rate.0 }
        ensures ok { OnOk result (self.new ≡ with_haircut self.old class rate.0) }
        ensures err { OnErr result (self.new ≡ self.old) }
    {
        self.rates.insert(class, rate)?;
        Ok(())
    }

    /// The haircut of a class in ten-thousandths, or `None` where it has none.
    pub fn get(&self, class: &Name) -> Option<Rate4>
        ensures { option_map (λ r. r.0) result ≡ haircut_in self.now class.now }
    {
        self.rates.get(class).copied()
    }

    /// What each table keeps. It does nothing.
    pub fn facts(&self)
        ensures haircuts { AreHaircuts self.now }
        ensures ascending { IsStrictlySortedBy name_cmp (classes self.now) }
    {
        // The classes ascend, so they differ.
        let _count = self.rates.len();
    }

    /// Equal haircuts once more. The only error is want of memory.
    pub fn copy(&self, alloc: Global) -> Result<HaircutTable, AllocError>
        ensures { IfOk result (λ t. t ≡ self.now) }
    {
        self.facts();
        let mut copy = HaircutTable::new(alloc);
        for (class, rate) in &self.rates {
            copy.put(class.copy(alloc)?, *rate)?;
        }
        Ok(copy)
    }
}
