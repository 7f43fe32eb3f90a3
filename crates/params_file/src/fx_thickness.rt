ghost use Rattle.std.specs.Prelude.{◌≡◌, pos, OnOk};
ghost use Rattle.params_file.specs.Faults.{Gives};
ghost use Rattle.simm_params.specs.Fx.{row};
ghost use Rattle.simm_params.specs.FxView.{fx_view, rows_view, thresholds_view};
ghost use Rattle.simm_params.specs.Ranges.{IsThick};
ghost use Rattle.simm_params.specs.Thickness.{IsThickRow, AreThickPairs};
ghost use Rattle.params_file.specs.Thickness.{thick_category, thick_fx, IsThickFx};
ghost use Rattle.params_file.specs.Thickness.{thick_pair, thick_row, thick_pairs};

use crate::fault::ParamFault;
use crate::thickness::check_threshold;
use simm_params::toml_values::Part;
use simm_params::{FxParams, FxThresholds, PairThresholds};
use std::alloc::Global;

/// The weight of sensitivities that are weighted already: 1, in ten-thousandths.
const UNIT: i64 = 10_000;

#[tactic(auto, unfolding(crate::specs::Thickness::thick_category))]
fn check_category(
    alloc: Global,
    number: usize,
    weight: i64,
    threshold: i64,
) -> Result<(), ParamFault>
    ensures value { Gives (λ u. u) result (thick_category weight number threshold) }
    ensures thick { OnOk result (IsThick weight threshold) }
{
    let path = [Part::Key("fx"), Part::Key("threshold"), Part::Place(number)];
    check_threshold(alloc, &path, weight, threshold)
}

/// Refuses a threshold of foreign exchange that is too thin beside the lesser weight.
#[tactic(auto, unfolding(crate::specs::Thickness::thick_fx))]
pub fn check_fx(alloc: Global, fx: &FxParams) -> Result<(), ParamFault>
    ensures value { Gives (λ u. u) result (thick_fx (fx_view fx.now)) }
    ensures thick { OnOk result (IsThickFx (fx_view fx.now)) }
{
    let least = fx.weights.regular.0.min(fx.weights.high.0);
    check_category(alloc, 1, least, fx.thresholds.first)?;
    check_category(alloc, 2, least, fx.thresholds.second)?;
    check_category(alloc, 3, least, fx.thresholds.third)
}

#[tactic(auto, unfolding(crate::specs::Thickness::thick_pair))]
fn check_pair(alloc: Global, row: usize, column: usize, threshold: i64) -> Result<(), ParamFault>
    ensures value { Gives (λ u. u) result (thick_pair row column threshold) }
    ensures thick { OnOk result (IsThick (pos 10000) threshold) }
{
    let path = [
        Part::Key("fx"),
        Part::Key("vega_threshold"),
        Part::Place(row),
        Part::Place(column),
    ];
    check_threshold(alloc, &path, UNIT, threshold)
}

#[tactic(auto, unfolding(crate::specs::Thickness::thick_row, crate::specs::Thickness::each_passes))]
fn check_row(alloc: Global, number: usize, thresholds: &FxThresholds) -> Result<(), ParamFault>
    ensures value { Gives (λ u. u) result
        (thick_row number (row (thresholds_view thresholds.now))) }
    ensures thick { OnOk result (IsThickRow (row (thresholds_view thresholds.now))) }
{
    check_pair(alloc, number, 1, thresholds.first)?;
    check_pair(alloc, number, 2, thresholds.second)?;
    check_pair(alloc, number, 3, thresholds.third)?;
    Ok(())
}

/// Refuses a vega threshold of foreign exchange that is too thin beside 1, row by row.
#[tactic(auto, unfolding(crate::specs::Thickness::thick_pairs, crate::specs::Thickness::each_passes))]
pub fn check_pairs(alloc: Global, thresholds: &PairThresholds) -> Result<(), ParamFault>
    ensures value { Gives (λ u. u) result (thick_pairs (rows_view thresholds.now)) }
    ensures thick { OnOk result (AreThickPairs (rows_view thresholds.now)) }
{
    check_row(alloc, 1, &thresholds.first)?;
    check_row(alloc, 2, &thresholds.second)?;
    check_row(alloc, 3, &thresholds.third)?;
    Ok(())
}
