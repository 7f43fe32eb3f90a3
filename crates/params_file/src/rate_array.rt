ghost use Rattle.std.specs.Prelude.{◌≡◌, [], map, IfOk};
ghost use Rattle.toml.specs.View.{view, items_view};
ghost use Rattle.simm_params.specs.TomlValues.Answers.{Gives};
ghost use Rattle.simm_params.specs.TomlValues.Paths.{word_of};
ghost use Rattle.simm_params.specs.TomlValues.Places.{each_of};
ghost use Rattle.simm_params.specs.TomlValues.Values.{found};
ghost use Rattle.simm_params.specs.Matrix.{AreRates};
ghost use Rattle.params_file.specs.Matrix.{rate_at, rates_of};

use crate::place::place_path;
use simm_params::Rates;
use simm_params::mh_units::Rate4;
use simm_params::toml_values::{Part, Range, ValueFault, array_of_length, rate};
use std::alloc::Global;
use toml::Value;

/// The rate at a place, counted from 1, of the array at a path.
fn rate_at(
    alloc: Global,
    path: &[Part<'_>],
    range: Range,
    number: usize,
    value: &Value,
) -> Result<Rate4, ValueFault>
    ensures { Gives (λ r. r.0) result
        (rate_at (map word_of path.now) range number [] (view value.now)) }
{
    let path = place_path(alloc, path, number)?;
    rate(alloc, path.as_slice(), Some(value), range)
}

/// The rates at the places of the array at a path.
fn read_places(
    alloc: Global,
    path: &[Part<'_>],
    range: Range,
    places: &[Value],
) -> Result<Rates, ValueFault>
    ensures { Gives (λ r. r) result
        (each_of (rate_at (map word_of path.now) range) 1 [] (items_view places.now)) }
{
    let mut rates = Rates::with_capacity(alloc, places.len())?;
    for (index, value) in places.iter().enumerate() {
        rates.push(rate_at(alloc, path, range, index + 1, value)?)?;
    }
    Ok(rates)
}

/// An array of so many rates in the range. Another array, and any other value, is `Missing`; then
/// each place is tested in order.
#[tactic(auto, unfolding(crate::specs::Matrix::rates_of))]
pub fn read_rates(
    alloc: Global,
    path: &[Part<'_>],
    value: Option<&Value>,
    count: usize,
    range: Range,
) -> Result<Rates, ValueFault>
    ensures value { Gives (λ r. r) result
        (rates_of (map word_of path.now) count range (found value.entry)) }
    ensures rates { IfOk result (AreRates count range) }
{
    let places = array_of_length(alloc, path, value, count)?;
    read_places(alloc, path, range, places)
}
