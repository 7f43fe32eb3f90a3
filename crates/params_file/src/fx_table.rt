ghost use Rattle.std.specs.Prelude.{◌≡◌, IfOk, map};
ghost use Rattle.toml.specs.Data.{get_member};
ghost use Rattle.toml.specs.View.{table_view};
ghost use Rattle.simm_params.specs.TomlValues.Answers.{Gives};
ghost use Rattle.simm_params.specs.TomlValues.Paths.{joined, word_of};
ghost use Rattle.simm_params.specs.TomlValues.Ranges.{IsWithin};
ghost use Rattle.simm_params.specs.TomlValues.Values.{found, rate_of, usd_of};
ghost use Rattle.simm_params.specs.Ranges.{weights, thresholds};
ghost use Rattle.simm_params.specs.FxView.{rates_view, thresholds_view};
ghost use Rattle.simm_params.specs.FxView.{rows_view, volatilities_view, fx_view};
ghost use Rattle.simm_params.specs.FxRanges.{ArePairThresholds};
ghost use Rattle.params_file.specs.FxRanges.{AreWithin, AreVolatilities, IsRangedFx};
ghost use Rattle.params_file.specs.Fx.{place_words, fx_currencies, fx_new_currencies, fx_weights};
ghost use Rattle.params_file.specs.Fx.{fx_pair_rates, category_thresholds, pair_thresholds};
ghost use Rattle.params_file.specs.Fx.{fx_thresholds, fx_vega_thresholds, fx_volatilities, fx_of};

use crate::currencies::{currencies, new_currencies};
use crate::key_rate::key_rate;
use crate::place::place_path;
use crate::range::{CORRELATION, HVR, SIGMA, VEGA_WEIGHT, WEIGHT};
use simm_params::mh_units::Rate4;
use simm_params::toml_values::{
    Part, Range, ValueFault, array_of_length, member, place, rate, usd,
};
use simm_params::{
    CurrencyList, FxParams, FxThresholds, FxVolatilities, FxWeights, PairRates, PairThresholds,
};
use std::alloc::Global;
use toml::{Table, Value};

/// A rate at a place, counted from 1, of the array at a path.
fn rate_at(
    alloc: Global,
    path: &[Part<'_>],
    number: usize,
    value: Option<&Value>,
    range: Range,
) -> Result<Rate4, ValueFault>
    ensures value { Gives (λ r. r.0) result
        (rate_of (joined (place_words (map word_of path.now) number)) range (found value.entry)) }
    ensures within { IfOk result (λ r. IsWithin range r.0) }
{
    let path = place_path(alloc, path, number)?;
    rate(alloc, path.as_slice(), value, range)
}

/// An amount of USD, in cents, at a place, counted from 1, of the array at a path.
fn usd_at(
    alloc: Global,
    path: &[Part<'_>],
    number: usize,
    value: Option<&Value>,
) -> Result<i64, ValueFault>
    ensures value { Gives (λ c. c) result
        (usd_of (joined (place_words (map word_of path.now) number)) (found value.entry)) }
    ensures within { IfOk result (IsWithin thresholds) }
{
    let path = place_path(alloc, path, number)?;
    usd(alloc, path.as_slice(), value)
}

/// Currencies at a key of the table; one may stand twice.
#[tactic(auto, unfolding(crate::specs::Fx::fx_currencies))]
fn currencies_at(alloc: Global, fx: &Table, key: &str) -> Result<CurrencyList, ValueFault>
    ensures { Gives (λ l. l) result (fx_currencies key.now (table_view fx.now)) }
{
    let path = [Part::Key("fx"), Part::Key(key)];
    currencies(alloc, &path, member(fx, key))
}

/// Currencies at a key of the table, none of which stands twice or among the earlier ones.
#[tactic(auto, unfolding(crate::specs::Fx::fx_new_currencies))]
fn new_currencies_at(
    alloc: Global,
    fx: &Table,
    key: &str,
    earlier: &CurrencyList,
) -> Result<CurrencyList, ValueFault>
    ensures { Gives (λ l. l) result (fx_new_currencies key.now earlier.now (table_view fx.now)) }
{
    let path = [Part::Key("fx"), Part::Key(key)];
    new_currencies(alloc, &path, member(fx, key), earlier)
}

#[tactic(auto, unfolding(crate::specs::Fx::fx_weights))]
fn weights(alloc: Global, fx: &Table) -> Result<FxWeights, ValueFault>
    ensures value { Gives (λ w. (w.regular.0, w.high.0)) result (fx_weights (table_view fx.now)) }
    ensures within { IfOk result (λ w. IsWithin weights w.regular.0 × IsWithin weights w.high.0) }
{
    let path = [Part::Key("fx"), Part::Key("weight")];
    let places = array_of_length(alloc, &path, member(fx, "weight"), 2)?;
    let regular = rate_at(alloc, &path, 1, place(places, 0), WEIGHT)?;
    let high = rate_at(alloc, &path, 2, place(places, 1), WEIGHT)?;
    Ok(FxWeights { regular, high })
}

#[tactic(auto, unfolding(crate::specs::Fx::fx_pair_rates))]
fn pair_rates(alloc: Global, fx: &Table, key: &str, range: Range) -> Result<PairRates, ValueFault>
    ensures value { Gives rates_view result (fx_pair_rates key.now range (table_view fx.now)) }
    ensures within { IfOk result (λ r. AreWithin range (rates_view r)) }
{
    let path = [Part::Key("fx"), Part::Key(key)];
    let places = array_of_length(alloc, &path, member(fx, key), 3)?;
    let regular = rate_at(alloc, &path, 1, place(places, 0), range)?;
    let mixed = rate_at(alloc, &path, 2, place(places, 1), range)?;
    let high = rate_at(alloc, &path, 3, place(places, 2), range)?;
    Ok(PairRates {
        regular,
        mixed,
        high,
    })
}

#[tactic(auto, unfolding(crate::specs::Fx::category_thresholds))]
fn category_thresholds(
    alloc: Global,
    path: &[Part<'_>],
    value: Option<&Value>,
) -> Result<FxThresholds, ValueFault>
    ensures value { Gives thresholds_view result
        (category_thresholds (map word_of path.now) (found value.entry)) }
    ensures within { IfOk result (λ t. AreWithin thresholds (thresholds_view t)) }
{
    let places = array_of_length(alloc, path, value, 3)?;
    let first = usd_at(alloc, path, 1, place(places, 0))?;
    let second = usd_at(alloc, path, 2, place(places, 1))?;
    let third = usd_at(alloc, path, 3, place(places, 2))?;
    Ok(FxThresholds {
        first,
        second,
        third,
    })
}

/// The thresholds in a row, counted from 1, of the array at a path.
fn thresholds_at(
    alloc: Global,
    path: &[Part<'_>],
    number: usize,
    value: Option<&Value>,
) -> Result<FxThresholds, ValueFault>
    ensures value { Gives thresholds_view result
        (category_thresholds (place_words (map word_of path.now) number) (found value.entry)) }
    ensures within { IfOk result (λ t. AreWithin thresholds (thresholds_view t)) }
{
    let path = place_path(alloc, path, number)?;
    category_thresholds(alloc, path.as_slice(), value)
}

#[tactic(auto, unfolding(crate::specs::Fx::pair_thresholds))]
fn pair_thresholds(
    alloc: Global,
    path: &[Part<'_>],
    value: Option<&Value>,
) -> Result<PairThresholds, ValueFault>
    ensures value { Gives rows_view result
        (pair_thresholds (map word_of path.now) (found value.entry)) }
    ensures within { IfOk result (λ t. ArePairThresholds (rows_view t)) }
{
    let places = array_of_length(alloc, path, value, 3)?;
    let first = thresholds_at(alloc, path, 1, place(places, 0))?;
    let second = thresholds_at(alloc, path, 2, place(places, 1))?;
    let third = thresholds_at(alloc, path, 3, place(places, 2))?;
    Ok(PairThresholds {
        first,
        second,
        third,
    })
}

#[tactic(auto, unfolding(crate::specs::Fx::fx_thresholds))]
fn thresholds(alloc: Global, fx: &Table) -> Result<FxThresholds, ValueFault>
    ensures value { Gives thresholds_view result (fx_thresholds (table_view fx.now)) }
    ensures within { IfOk result (λ t. AreWithin thresholds (thresholds_view t)) }
{
    let key = "threshold";
    category_thresholds(alloc, &[Part::Key("fx"), Part::Key(key)], member(fx, key))
}

#[tactic(auto, unfolding(crate::specs::Fx::fx_vega_thresholds))]
fn vega_thresholds(alloc: Global, fx: &Table) -> Result<PairThresholds, ValueFault>
    ensures value { Gives rows_view result (fx_vega_thresholds (table_view fx.now)) }
    ensures within { IfOk result (λ t. ArePairThresholds (rows_view t)) }
{
    let key = "vega_threshold";
    pair_thresholds(alloc, &[Part::Key("fx"), Part::Key(key)], member(fx, key))
}

#[tactic(auto, unfolding(crate::specs::Fx::fx_volatilities))]
fn volatilities(alloc: Global, fx: &Table) -> Result<FxVolatilities, ValueFault>
    ensures value { Gives volatilities_view result (fx_volatilities (table_view fx.now)) }
    ensures within { IfOk result (λ v. AreVolatilities (volatilities_view v)) }
{
    let thresholds = vega_thresholds(alloc, fx)?;
    let sigmas = pair_rates(alloc, fx, "sigma", SIGMA)?;
    let path = [Part::Key("fx")];
    let vrw = key_rate(alloc, &path, fx, "vrw", VEGA_WEIGHT)?;
    let hvr = key_rate(alloc, &path, fx, "hvr", HVR)?;
    let rho = key_rate(alloc, &path, fx, "vol_rho", CORRELATION)?;
    Ok(FxVolatilities {
        thresholds,
        sigmas,
        vrw,
        hvr,
        rho,
    })
}

/// The parameters of foreign exchange in their table.
#[tactic(auto, unfolding(crate::specs::Fx::fx_of))]
pub fn read_fx(alloc: Global, fx: &Table) -> Result<FxParams, ValueFault>
    ensures value { Gives fx_view result (fx_of (table_view fx.now)) }
    ensures ranged { IfOk result (λ fx. IsRangedFx (fx_view fx)) }
{
    let high = currencies_at(alloc, fx, "high")?;
    let weights = weights(alloc, fx)?;
    let rhos = pair_rates(alloc, fx, "rho", CORRELATION)?;
    let none = CurrencyList::new(alloc);
    let first = new_currencies_at(alloc, fx, "first", &none)?;
    let second = new_currencies_at(alloc, fx, "second", &first)?;
    let thresholds = thresholds(alloc, fx)?;
    let volatilities = volatilities(alloc, fx)?;
    Ok(FxParams {
        high,
        weights,
        rhos,
        first,
        second,
        thresholds,
        volatilities,
    })
}
