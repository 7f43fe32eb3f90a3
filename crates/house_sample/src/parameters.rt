//! The parameters of the sample.
ghost use Rattle.std.specs.Prelude.{◌≡◌, IfOk};
ghost use Rattle.simm_params.specs.IrView.{curves_view, ir_view};
ghost use Rattle.simm_params.specs.FxView.{fx_view, volatilities_view};
ghost use Rattle.simm_params.specs.TablesView.{tables_view};
ghost use Rattle.house_sample.specs.Parameters.{curves, rates, volatilities};
ghost use Rattle.house_sample.specs.Parameters.{exchange, sample_params};

use crate::classes::{commodity, equity, non_qualifying, qualifying};
use crate::matrices::{alike, even};
use simm_params::mh_units::{Corr6, Rate4};
use simm_params::simm_kinds::Currency;
use simm_params::{
    BaseParams, ClassTables, CurrencyGroups, CurrencyList, CurveWeights, FactorRhos, FactorWeights,
    FxParams, FxThresholds, FxVolatilities, FxWeights, IrParams, PairRates, PairThresholds, Params,
    Tables, Thresholds, VolatilityRates,
};
use std::alloc::{AllocError, Global};

fn list(alloc: Global, currencies: &[Currency]) -> Result<CurrencyList, AllocError>
    ensures { IfOk result (λ list. list ≡ currencies.now) }
{
    let mut list = CurrencyList::with_capacity(alloc, currencies.len())?;
    for currency in currencies {
        list.push(*currency)?;
    }
    Ok(list)
}

fn curves(alloc: Global) -> Result<CurveWeights, AllocError>
    ensures { IfOk result (λ weights. curves_view weights ≡ curves) }
{
    Ok(CurveWeights {
        regular: alike(alloc, Rate4(500_000), 12)?,
        low: alike(alloc, Rate4(150_000), 12)?,
        high: alike(alloc, Rate4(1_000_000), 12)?,
    })
}

fn rates(alloc: Global) -> Result<IrParams, AllocError>
    ensures { IfOk result (λ ir. ir_view ir ≡ rates) }
{
    let yen = Currency::new(b"JPY").unwrap();
    let dollar = Currency::new(b"USD").unwrap();
    let euro = Currency::new(b"EUR").unwrap();
    let pound = Currency::new(b"GBP").unwrap();
    Ok(IrParams {
        low: list(alloc, &[yen])?,
        regular: list(alloc, &[dollar, euro, pound])?,
        curves: curves(alloc)?,
        weights: FactorWeights {
            inflation: Rate4(500_000),
            basis: Rate4(200_000),
        },
        tenor_rhos: even(alloc, Rate4(5_000), 12)?,
        rhos: FactorRhos {
            phi: Rate4(9_800),
            inflation: Rate4(4_000),
            basis: Rate4(100),
            gamma: Rate4(5_000),
        },
        volatility: VolatilityRates {
            vrw: Rate4(2_000),
            hvr: Rate4(5_000),
        },
        other: Thresholds {
            delta: 91_000_000,
            vega: 1_000_000_000,
        },
        groups: CurrencyGroups::new(alloc, Vec::new(alloc))?,
    })
}

fn volatilities() -> FxVolatilities
    ensures { volatilities_view result ≡ volatilities }
{
    let row = FxThresholds {
        first: 1_000_000_000,
        second: 1_000_000_000,
        third: 1_000_000_000,
    };
    FxVolatilities {
        thresholds: PairThresholds {
            first: row,
            second: row,
            third: row,
        },
        sigmas: PairRates {
            regular: Rate4(162_000),
            mixed: Rate4(162_000),
            high: Rate4(162_000),
        },
        vrw: Rate4(4_000),
        hvr: Rate4(6_000),
        rho: Rate4(5_000),
    }
}

fn exchange(alloc: Global) -> Result<FxParams, AllocError>
    ensures { IfOk result (λ fx. fx_view fx ≡ exchange) }
{
    let real = Currency::new(b"BRL").unwrap();
    Ok(FxParams {
        high: list(alloc, &[real])?,
        weights: FxWeights {
            regular: Rate4(74_000),
            high: Rate4(100_000),
        },
        rhos: PairRates {
            regular: Rate4(5_000),
            mixed: Rate4(5_000),
            high: Rate4(5_000),
        },
        first: CurrencyList::new(alloc),
        second: CurrencyList::new(alloc),
        thresholds: FxThresholds {
            first: 10_000_000_000,
            second: 10_000_000_000,
            third: 10_000_000_000,
        },
        volatilities: volatilities(),
    })
}

fn tables(alloc: Global) -> Result<Tables, AllocError>
    ensures { IfOk result (λ tables. tables_view tables ≡ sample_params) }
{
    Ok(Tables {
        calculation_currency: Currency::new(b"USD").unwrap(),
        lambda_base: Corr6(5_634_897),
        psi: even(alloc, Rate4(5_000), 6)?,
        ir: rates(alloc)?,
        fx: exchange(alloc)?,
        classes: ClassTables {
            credit_q: qualifying(alloc)?,
            credit_nq: non_qualifying(alloc)?,
            equity: equity(alloc)?,
            commodity: commodity(alloc)?,
        },
        base: BaseParams {
            weight: Rate4(100_000),
            rho: Rate4(3_000),
        },
    })
}

/// The parameters of the sample, each within its range. They are those of `examples/toy.toml`.
///
/// # Errors
///
/// For want of memory alone.
#[tactic(auto, using(crate::proofs::Ranges::sample_is))]
pub fn sample_params(alloc: Global) -> Result<Params, AllocError>
    ensures { IfOk result (λ p. p ≡ sample_params) }
{
    Params::new(alloc, tables(alloc)?)
}
