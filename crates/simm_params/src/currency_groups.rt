ghost use Rattle.std.specs.Prelude.{◌≡◌, map, option_map, IfOk, OnOk};
ghost use Rattle.simm_params.specs.GroupView.{group_view};
ghost use Rattle.simm_params.specs.Grouped.{AreGrouped, IsKept, group_thresholds};
ghost use Rattle.simm_params.specs.ThresholdView.{thresholds_view};

use crate::currency_list::CurrencyList;
use crate::thresholds::Thresholds;
use simm_rules::simm_kinds::Currency;
use std::alloc::{AllocError, Global};
use std::collections::BTreeMap;
use std::marker::Model;

/// A concentration group of currencies.
#[derive(Drop)]
pub struct CurrencyGroup {
    /// The currencies of the group, as the file has them.
    pub currencies: CurrencyList,
    /// Their thresholds.
    pub thresholds: Thresholds,
}

/// The concentration groups of currencies, in the order of the file, which contracts see as just
/// that list. The thresholds of a currency are looked up in a tree.
#[derive(Drop)]
pub struct CurrencyGroups {
    groups: Vec<CurrencyGroup>,
    by_currency: BTreeMap<Currency, Thresholds>,
}

impl Model for CurrencyGroups {
    ghost use Rattle.std.specs.Prelude.{List, map};
    ghost use Rattle.simm_rules.specs.Params.{CurrencyGroup as Group};

    ghost Value = { List Group };

    ghost use Rattle.simm_params.specs.GroupView.{group_view};

    ghost view = { λ g. map group_view g.groups.items };

    ghost use Rattle.simm_params.specs.Grouped.{AreGrouped};

    ghost invariant = { λ g. AreGrouped (map group_view g.groups.items) g.by_currency.entries };
}

impl CurrencyGroups {
    /// These groups. The only error is want of memory.
    pub fn new(alloc: Global, groups: Vec<CurrencyGroup>) -> Result<CurrencyGroups, AllocError>
        ensures { IfOk result (λ g. g ≡ map group_view groups.items) }
    {
        let by_currency = by_currency(alloc, groups.as_slice())?;
        Ok(CurrencyGroups {
            groups,
            by_currency,
        })
    }

    /// The thresholds of the first group that lists a currency, where one does.
    pub fn thresholds(&self, currency: Currency) -> Option<Thresholds>
        ensures { option_map thresholds_view result ≡ group_thresholds self.now currency }
    {
        self.by_currency.get(&currency).copied()
    }

    /// Lends the groups.
    pub fn groups(&self) -> &[CurrencyGroup]
        ensures { map group_view result.now ≡ self.now }
    {
        self.groups.as_slice()
    }
}

/// Keeps the thresholds of a group at each of its currencies.
fn keep_group(
    by_currency: &mut BTreeMap<Currency, Thresholds>,
    group: &CurrencyGroup,
) -> Result<(), AllocError>
    ensures { OnOk result
        (IsKept (group_view group.now) by_currency.old.entries by_currency.new.entries) }
{
    for currency in group.currencies.as_slice() {
        by_currency.insert(*currency, group.thresholds)?;
    }
    Ok(())
}

/// The thresholds of each currency that a group lists.
fn by_currency(
    alloc: Global,
    groups: &[CurrencyGroup],
) -> Result<BTreeMap<Currency, Thresholds>, AllocError>
    ensures { IfOk result (λ kept. AreGrouped (map group_view groups.now) kept.entries) }
{
    let mut by_currency = BTreeMap::new(alloc);
    // The first group that lists a currency decides, so it is kept last.
    for group in groups.iter().rev() {
        keep_group(&mut by_currency, group)?;
    }
    Ok(by_currency)
}
