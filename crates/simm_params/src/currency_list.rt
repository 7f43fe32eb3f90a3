ghost use Rattle.std.specs.Prelude.{◌≡◌, [], ◌∷◌, ◌++◌, OnOk, OnErr, IfOk};
ghost use Rattle.simm_rules.specs.Lookups.{is_listed};

use simm_rules::simm_kinds::Currency;
use std::alloc::{AllocError, Global};
use std::collections::BTreeSet;
use std::marker::Model;

/// Currencies in the order of the file, which contracts see as just that list. Whether a currency
/// is among them is looked up in a tree.
#[derive(Drop)]
pub struct CurrencyList {
    listed: Vec<Currency>,
    different: BTreeSet<Currency>,
}

impl Model for CurrencyList {
    ghost use Rattle.std.specs.Prelude.{List, ℕ};
    ghost use Rattle.simm_params.specs.Listed.{AreListed};

    ghost Value = { List (List ℕ) };

    ghost view = { λ l. l.listed.items };

    ghost invariant = { λ l. AreListed l.listed.items l.different.keys };
}

impl CurrencyList {
    /// No currency. It takes no memory.
    pub fn new(alloc: Global) -> Self
        ensures { result ≡ [] }
    {
        CurrencyList {
            listed: Vec::new(alloc),
            different: BTreeSet::new(alloc),
        }
    }

    /// No currency, with room for `count` in the list. The only error is want of memory.
    pub fn with_capacity(alloc: Global, count: usize) -> Result<Self, AllocError>
        ensures { IfOk result (λ l. l ≡ []) }
    {
        Ok(CurrencyList {
            listed: Vec::with_capacity(alloc, count)?,
            different: BTreeSet::new(alloc),
        })
    }

    /// Adds a currency at the end. The only error is want of memory, and then nothing changes.
    pub fn push(&mut self, currency: Currency) -> Result<(), AllocError>
        ensures ok { OnOk result (self.new ≡ self.old ++ currency ∷ []) }
        ensures err { OnErr result (self.new ≡ self.old) }
    {
        // What is added is a currency.
        let _letters = currency.letters();
        // Room comes first: once the tree has changed, nothing fails.
        self.listed.reserve(1)?;
        self.different.insert(currency)?;
        self.listed.push_reserved(currency);
        Ok(())
    }

    /// Adds the currencies of another list at the end. The only error is want of memory; a front
    /// of them may have been added then.
    pub fn append(&mut self, other: &CurrencyList) -> Result<(), AllocError>
        ensures { OnOk result (self.new ≡ self.old ++ other.now) }
    {
        for currency in &other.listed {
            self.push(*currency)?;
        }
        Ok(())
    }

    /// Whether the list has this currency.
    pub fn contains(&self, currency: Currency) -> bool
        ensures { result ≡ is_listed self.now currency }
    {
        self.different.contains(&currency)
    }

    /// Lends the currencies.
    pub fn as_slice(&self) -> &[Currency]
        ensures { result.now ≡ self.now }
    {
        self.listed.as_slice()
    }
}
