ghost use Rattle.std.specs.Prelude.{◌≡◌, ◌++◌, [], map};
ghost use Rattle.toml.specs.View.{view, items_view};
ghost use Rattle.simm_params.specs.TomlValues.Answers.{Gives};
ghost use Rattle.simm_params.specs.TomlValues.Paths.{word_of};
ghost use Rattle.simm_params.specs.TomlValues.Values.{found};
ghost use Rattle.simm_params.specs.TomlValues.Places.{each_of};
ghost use Rattle.params_file.specs.Currencies.{currency_at, currencies_of};
ghost use Rattle.params_file.specs.Currencies.{new_currency_at, new_currencies_of};

use crate::place::place_path;
use simm_params::CurrencyList;
use simm_params::simm_kinds::Currency;
use simm_params::toml_values::{Part, ValueFault, array, currency, path_text};
use std::alloc::Global;
use toml::Value;

/// The currency at a place, counted from 1, of the array at a path.
fn currency_at(
    alloc: Global,
    path: &[Part<'_>],
    number: usize,
    value: &Value,
) -> Result<Currency, ValueFault>
    ensures { Gives (λ c. c) result
        (currency_at (map word_of path.now) number [] (view value.now)) }
{
    let path = place_path(alloc, path, number)?;
    currency(alloc, path.as_slice(), Some(value))
}

fn read_places(
    alloc: Global,
    path: &[Part<'_>],
    places: &[Value],
) -> Result<CurrencyList, ValueFault>
    ensures { Gives (λ l. l) result
        (each_of (currency_at (map word_of path.now)) 1 [] (items_view places.now)) }
{
    let mut list = CurrencyList::with_capacity(alloc, places.len())?;
    for (index, value) in places.iter().enumerate() {
        list.push(currency_at(alloc, path, index + 1, value)?)?;
    }
    Ok(list)
}

/// A currency at each place of an array; one may stand twice.
#[tactic(auto, unfolding(crate::specs::Currencies::currencies_of))]
pub fn currencies(
    alloc: Global,
    path: &[Part<'_>],
    value: Option<&Value>,
) -> Result<CurrencyList, ValueFault>
    ensures { Gives (λ l. l) result (currencies_of (map word_of path.now) (found value.entry)) }
{
    read_places(alloc, path, array(alloc, path, value)?)
}

/// A currency that stands in neither list.
#[tactic(auto, unfolding(crate::specs::Currencies::new_currency_at))]
fn new_currency_at(
    alloc: Global,
    path: &[Part<'_>],
    number: usize,
    earlier: &CurrencyList,
    list: &CurrencyList,
    value: &Value,
) -> Result<Currency, ValueFault>
    ensures { Gives (λ c. c) result (new_currency_at (map word_of path.now) number
        (earlier.now ++ list.now) (view value.now)) }
{
    let currency = currency_at(alloc, path, number, value)?;
    if earlier.contains(currency) || list.contains(currency) {
        let path = place_path(alloc, path, number)?;
        return Err(ValueFault::BadNumber(path_text(alloc, path.as_slice())?));
    }
    Ok(currency)
}

fn read_new_places(
    alloc: Global,
    path: &[Part<'_>],
    earlier: &CurrencyList,
    places: &[Value],
) -> Result<CurrencyList, ValueFault>
    ensures { Gives (λ l. l) result
        (each_of (new_currency_at (map word_of path.now)) 1 earlier.now (items_view places.now)) }
{
    let mut list = CurrencyList::with_capacity(alloc, places.len())?;
    for (index, value) in places.iter().enumerate() {
        list.push(new_currency_at(alloc, path, index + 1, earlier, &list, value)?)?;
    }
    Ok(list)
}

/// A currency at each place of an array, none of which stands twice or among the earlier ones.
#[tactic(auto, unfolding(crate::specs::Currencies::new_currencies_of))]
pub fn new_currencies(
    alloc: Global,
    path: &[Part<'_>],
    value: Option<&Value>,
    earlier: &CurrencyList,
) -> Result<CurrencyList, ValueFault>
    ensures { Gives (λ l. l) result
        (new_currencies_of (map word_of path.now) earlier.now (found value.entry)) }
{
    read_new_places(alloc, path, earlier, array(alloc, path, value)?)
}
