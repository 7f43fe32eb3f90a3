ghost use Rattle.std.specs.Prelude.{◌≡◌, [], Some, map, IfOk};
ghost use Rattle.toml.specs.View.{view, items_view, table_view};
ghost use Rattle.simm_params.specs.TomlValues.Answers.{Gives};
ghost use Rattle.simm_params.specs.TomlValues.Places.{each_of};
ghost use Rattle.simm_params.specs.TomlValues.Values.{found};
ghost use Rattle.simm_params.specs.GroupView.{group_view};
ghost use Rattle.simm_params.specs.Thresholds.{AreThresholds};
ghost use Rattle.simm_params.specs.ThresholdView.{thresholds_view};
ghost use Rattle.params_file.specs.Groups.{AreGroups, group_table_of, group_currencies_of};
ghost use Rattle.params_file.specs.Groups.{group_thresholds_of, group_of, group_at, groups_of};

use crate::currencies::new_currencies;
use crate::threshold_table::read_thresholds;
use simm_params::toml_values::{Part, ValueFault, array, member, table};
use simm_params::{CurrencyGroup, CurrencyGroups, CurrencyList, Thresholds};
use std::alloc::Global;
use toml::{Table, Value};

#[tactic(auto, unfolding(crate::specs::Groups::group_table_of))]
fn group_table<'a>(alloc: Global, number: usize, value: &'a Value) -> Result<&'a Table, ValueFault>
    ensures { Gives (λ t. table_view t.now) result (group_table_of number (view value.now)) }
{
    let path = [Part::Key("ir"), Part::Key("group"), Part::Place(number)];
    table(alloc, &path, Some(value))
}

#[tactic(auto, unfolding(crate::specs::Groups::group_currencies_of))]
fn group_currencies(
    alloc: Global,
    number: usize,
    earlier: &CurrencyList,
    group: &Table,
) -> Result<CurrencyList, ValueFault>
    ensures { Gives (λ l. l) result
        (group_currencies_of number earlier.now (table_view group.now)) }
{
    let path = [
        Part::Key("ir"),
        Part::Key("group"),
        Part::Place(number),
        Part::Key("currencies"),
    ];
    new_currencies(alloc, &path, member(group, "currencies"), earlier)
}

#[tactic(auto, unfolding(crate::specs::Groups::group_thresholds_of))]
fn group_thresholds(alloc: Global, number: usize, group: &Table) -> Result<Thresholds, ValueFault>
    ensures value { Gives thresholds_view result
        (group_thresholds_of number (table_view group.now)) }
    ensures within { IfOk result (λ t. AreThresholds (thresholds_view t)) }
{
    let path = [Part::Key("ir"), Part::Key("group"), Part::Place(number)];
    read_thresholds(alloc, &path, group)
}

/// The group at a place, counted from 1, of the array at `ir.group`: none of its currencies stands
/// twice or among the earlier ones.
#[tactic(auto, unfolding(crate::specs::Groups::group_of))]
fn group_at(
    alloc: Global,
    number: usize,
    earlier: &CurrencyList,
    value: &Value,
) -> Result<CurrencyGroup, ValueFault>
    ensures value { Gives group_view result (group_of number earlier.now (view value.now)) }
    ensures within { IfOk result (λ g. AreThresholds (thresholds_view g.thresholds)) }
{
    let group = group_table(alloc, number, value)?;
    let currencies = group_currencies(alloc, number, earlier, group)?;
    let thresholds = group_thresholds(alloc, number, group)?;
    Ok(CurrencyGroup {
        currencies,
        thresholds,
    })
}

/// The groups at the places of the array at `ir.group`.
fn read_places(alloc: Global, places: &[Value]) -> Result<Vec<CurrencyGroup>, ValueFault>
    ensures value { Gives (λ groups. map group_view groups.items) result
        (each_of group_at 1 [] (items_view places.now)) }
    ensures within { IfOk result (λ groups. AreGroups (map group_view groups.items)) }
{
    let mut groups = Vec::with_capacity(alloc, places.len())?;
    let mut earlier = CurrencyList::new(alloc);
    for (index, value) in places.iter().enumerate() {
        let group = group_at(alloc, index + 1, &earlier, value)?;
        earlier.append(&group.currencies)?;
        groups.push(group)?;
    }
    Ok(groups)
}

#[tactic(auto, unfolding(crate::specs::Groups::groups_of))]
fn read_array(alloc: Global, value: &Value) -> Result<Vec<CurrencyGroup>, ValueFault>
    ensures value { Gives (λ groups. map group_view groups.items) result
        (groups_of (Some (view value.now))) }
    ensures within { IfOk result (λ groups. AreGroups (map group_view groups.items)) }
{
    let path = [Part::Key("ir"), Part::Key("group")];
    read_places(alloc, array(alloc, &path, Some(value))?)
}

/// The concentration groups at `ir.group`, of which there are none where nothing stands there.
#[tactic(auto, unfolding(crate::specs::Groups::groups_of))]
pub fn read_groups(alloc: Global, value: Option<&Value>) -> Result<CurrencyGroups, ValueFault>
    ensures value { Gives (λ g. g) result (groups_of (found value.entry)) }
    ensures within { IfOk result AreGroups }
{
    let groups = match value {
        Some(value) => read_array(alloc, value)?,
        None => Vec::new(alloc),
    };
    Ok(CurrencyGroups::new(alloc, groups)?)
}
