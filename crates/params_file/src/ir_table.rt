ghost use Rattle.std.specs.Prelude.{◌≡◌, IfOk};
ghost use Rattle.toml.specs.View.{table_view};
ghost use Rattle.simm_params.specs.TomlValues.Answers.{Gives};
ghost use Rattle.simm_params.specs.TomlValues.Ranges.{IsWithin};
ghost use Rattle.simm_params.specs.Ranges.{weights, correlations, vega_weights, ir_hvrs};
ghost use Rattle.simm_params.specs.Matrix.{AreRates, IsMatrix};
ghost use Rattle.simm_params.specs.ThresholdView.{thresholds_view};
ghost use Rattle.simm_params.specs.Thresholds.{AreThresholds};
ghost use Rattle.simm_params.specs.IrView.{curves_view, weights_view};
ghost use Rattle.simm_params.specs.IrView.{rhos_view, volatility_view, ir_view};
ghost use Rattle.params_file.specs.IrRate.{rate_range};
ghost use Rattle.simm_params.specs.IrRanges.{AreCurves};
ghost use Rattle.params_file.specs.IrRanges.{IsRangedIr};
ghost use Rattle.params_file.specs.Ir.{ir_rate, ir_currencies, curve_of, curves_of};
ghost use Rattle.params_file.specs.Ir.{factor_weights_of, tenor_rhos_of, factor_rhos_of};
ghost use Rattle.params_file.specs.Ir.{volatility_rates_of, ir_other_of, ir_of};

use crate::currencies::new_currencies;
use crate::group_array::read_groups;
use crate::ir_rate::IrRate;
use crate::matrix_array::read_matrix;
use crate::range::{CORRELATION, WEIGHT};
use crate::rate_array::read_rates;
use crate::threshold_table::read_thresholds;
use simm_params::mh_units::Rate4;
use simm_params::toml_values::{Part, ValueFault, member, rate, table};
use simm_params::{
    CurrencyList, CurveWeights, FactorRhos, FactorWeights, IrParams, Matrix, Rates, Thresholds,
    VolatilityRates,
};
use std::alloc::Global;
use toml::Table;

/// How many tenors a curve has.
const TENORS: usize = 12;

/// A single rate of the table.
#[tactic(auto, unfolding(crate::specs::Ir::ir_rate))]
fn rate_at(alloc: Global, ir: &Table, which: IrRate) -> Result<Rate4, ValueFault>
    ensures value { Gives (λ r. r.0) result (ir_rate which (table_view ir.now)) }
    ensures within { IfOk result (λ r. IsWithin (rate_range which) r.0) }
{
    let key = which.key();
    let path = [Part::Key("ir"), Part::Key(key)];
    rate(alloc, &path, member(ir, key), which.range())
}

/// The weights of a curve at a key of the table `ir.weight`.
#[tactic(auto, unfolding(crate::specs::Ir::curve_of))]
fn curve(alloc: Global, table: &Table, key: &str) -> Result<Rates, ValueFault>
    ensures value { Gives (λ r. r) result (curve_of key.now (table_view table.now)) }
    ensures rates { IfOk result (AreRates 12 weights) }
{
    let path = [Part::Key("ir"), Part::Key("weight"), Part::Key(key)];
    read_rates(alloc, &path, member(table, key), TENORS, WEIGHT)
}

#[tactic(auto, unfolding(crate::specs::Ir::curves_of))]
fn curves(alloc: Global, ir: &Table) -> Result<CurveWeights, ValueFault>
    ensures value { Gives curves_view result (curves_of (table_view ir.now)) }
    ensures within { IfOk result (λ w. AreCurves (curves_view w)) }
{
    let path = [Part::Key("ir"), Part::Key("weight")];
    let weights = table(alloc, &path, member(ir, "weight"))?;
    let regular = curve(alloc, weights, "regular")?;
    let low = curve(alloc, weights, "low")?;
    let high = curve(alloc, weights, "high")?;
    Ok(CurveWeights { regular, low, high })
}

#[tactic(auto, unfolding(crate::specs::Ir::factor_weights_of))]
fn factor_weights(alloc: Global, ir: &Table) -> Result<FactorWeights, ValueFault>
    ensures value { Gives weights_view result (factor_weights_of (table_view ir.now)) }
    ensures within { IfOk result (λ w.
        IsWithin weights w.inflation.0 × IsWithin weights w.basis.0) }
{
    let inflation = rate_at(alloc, ir, IrRate::InflationWeight)?;
    let basis = rate_at(alloc, ir, IrRate::BasisWeight)?;
    Ok(FactorWeights { inflation, basis })
}

#[tactic(auto, unfolding(crate::specs::Ir::tenor_rhos_of))]
fn tenor_rhos(alloc: Global, ir: &Table) -> Result<Matrix, ValueFault>
    ensures value { Gives (λ m. m) result (tenor_rhos_of (table_view ir.now)) }
    ensures matrix { IfOk result (IsMatrix 12 correlations) }
{
    let path = [Part::Key("ir"), Part::Key("rho")];
    read_matrix(alloc, &path, member(ir, "rho"), TENORS, CORRELATION)
}

#[tactic(auto, unfolding(crate::specs::Ir::factor_rhos_of))]
fn factor_rhos(alloc: Global, ir: &Table) -> Result<FactorRhos, ValueFault>
    ensures value { Gives rhos_view result (factor_rhos_of (table_view ir.now)) }
    ensures within { IfOk result (λ r.
        IsWithin correlations r.phi.0 × IsWithin correlations r.inflation.0
        × IsWithin correlations r.basis.0 × IsWithin correlations r.gamma.0) }
{
    let phi = rate_at(alloc, ir, IrRate::Phi)?;
    let inflation = rate_at(alloc, ir, IrRate::InflationRho)?;
    let basis = rate_at(alloc, ir, IrRate::BasisRho)?;
    let gamma = rate_at(alloc, ir, IrRate::Gamma)?;
    Ok(FactorRhos {
        phi,
        inflation,
        basis,
        gamma,
    })
}

#[tactic(auto, unfolding(crate::specs::Ir::volatility_rates_of))]
fn volatility_rates(alloc: Global, ir: &Table) -> Result<VolatilityRates, ValueFault>
    ensures value { Gives volatility_view result (volatility_rates_of (table_view ir.now)) }
    ensures within { IfOk result (λ v. IsWithin vega_weights v.vrw.0 × IsWithin ir_hvrs v.hvr.0) }
{
    let vrw = rate_at(alloc, ir, IrRate::Vrw)?;
    let hvr = rate_at(alloc, ir, IrRate::Hvr)?;
    Ok(VolatilityRates { vrw, hvr })
}

#[tactic(auto, unfolding(crate::specs::Ir::ir_other_of))]
fn other(alloc: Global, ir: &Table) -> Result<Thresholds, ValueFault>
    ensures value { Gives thresholds_view result (ir_other_of (table_view ir.now)) }
    ensures within { IfOk result (λ t. AreThresholds (thresholds_view t)) }
{
    let path = [Part::Key("ir"), Part::Key("other")];
    read_thresholds(alloc, &path, table(alloc, &path, member(ir, "other"))?)
}

/// The currencies at a key of the table, none of which stands twice or among the earlier ones.
#[tactic(auto, unfolding(crate::specs::Ir::ir_currencies))]
fn currencies_at(
    alloc: Global,
    ir: &Table,
    key: &str,
    earlier: &CurrencyList,
) -> Result<CurrencyList, ValueFault>
    ensures { Gives (λ l. l) result (ir_currencies key.now earlier.now (table_view ir.now)) }
{
    let path = [Part::Key("ir"), Part::Key(key)];
    new_currencies(alloc, &path, member(ir, key), earlier)
}

/// The parameters of interest rates in their table.
#[tactic(auto, unfolding(crate::specs::Ir::ir_of))]
pub fn read_ir(alloc: Global, ir: &Table) -> Result<IrParams, ValueFault>
    ensures value { Gives ir_view result (ir_of (table_view ir.now)) }
    ensures ranged { IfOk result (λ ir. IsRangedIr (ir_view ir)) }
{
    let low = currencies_at(alloc, ir, "low", &CurrencyList::new(alloc))?;
    let regular = currencies_at(alloc, ir, "regular", &low)?;
    let curves = curves(alloc, ir)?;
    let weights = factor_weights(alloc, ir)?;
    let tenor_rhos = tenor_rhos(alloc, ir)?;
    let rhos = factor_rhos(alloc, ir)?;
    let volatility = volatility_rates(alloc, ir)?;
    let other = other(alloc, ir)?;
    let groups = read_groups(alloc, member(ir, "group"))?;
    Ok(IrParams {
        low,
        regular,
        curves,
        weights,
        tenor_rhos,
        rhos,
        volatility,
        other,
        groups,
    })
}
