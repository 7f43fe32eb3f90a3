//! The pairs of currencies of a product class: what the nets to the volatilities of each, as a
//! book lends them, come to over its tenors.
ghost use Rattle.std.specs.Prelude.{◌≡◌, ◌*◌, ◌^◌, ◌≤◌, IfOk};
ghost use Rattle.std.specs.Prelude.{map, option_map, sum_by, unsigned_abs};
ghost use Rattle.std.specs.List.Sorted.{IsStrictlySortedBy};
ghost use Rattle.measured_bucket.specs.SimmKinds.Order.{pair_cmp};
ghost use Rattle.measured_bucket.specs.SimmRules.Lookups.{six};
ghost use Rattle.measured_bucket.specs.SimmRules.Risks.{risk};
ghost use Rattle.measured_bucket.specs.SimmRules.Params.{Params};
ghost use Rattle.measured_bucket.specs.SimmRules.ForeignExchange.{as_pair_volatility, fx_sigma};
ghost use Rattle.measured_bucket.specs.SimmParams.Facts.{IsParams};
ghost use Rattle.measured_bucket.specs.Runs.{AreTotals};
ghost use Rattle.class_exchange.specs.Pairs.{pair_nets, pair_sums, pair_totals, ArePairs};
ghost use Rattle.class_exchange.specs.Pairs.{pair_volatility_cmp, tenor_view, volatility_view};

use measured_bucket::factor_book::PlaceFactors;
use measured_bucket::simm_kinds::{CurrencyPair, Factor, FactorKey, Tenor};
use measured_bucket::simm_params::Params;
use measured_bucket::{EvenRho, TenorNet, TenorScale, TenorSum, tenor_sums};
use std::alloc::{AllocError, Global};

/// The volatility of a pair at a tenor.
#[derive(Clone, Copy)]
struct PairVolatility {
    pair: CurrencyPair,
    tenor: Tenor,
}

/// What the nets to the volatilities of each pair of a place, which are in order, come to over its
/// tenors, in the order of the pairs. The sizes of the nets come to no more than those of 200,000
/// amounts that a batch can have. Want of memory is the only error.
pub fn volatile_pairs(
    alloc: Global,
    lent: &PlaceFactors,
    scale: TenorScale,
) -> Result<Vec<TenorSum<CurrencyPair>>, AllocError>
    requires order { IsStrictlySortedBy pair_volatility_cmp
        (map (λ a. a.of) (pair_nets lent.now.factors)) }
    requires sizes { sum_by (λ a. unsigned_abs a.amount) (pair_nets lent.now.factors)
        ≤ 2 * 10 ^ 20 }
    ensures sums { IfOk result (λ sums.
        pair_sums sums.items ≡ pair_totals scale (pair_nets lent.now.factors)) }
    ensures ready { (p : Params) → IsParams p → ArePairs p (pair_nets lent.now.factors)
        → IfOk result (λ sums.
        AreTotals pair_cmp scale (fx_sigma p) (pair_sums sums.items)) }
{
    let nets = tenors_among(alloc, lent)?;
    tenor_sums(alloc, scale, nets.as_slice())
}

fn tenors_among(
    alloc: Global,
    lent: &PlaceFactors,
) -> Result<Vec<TenorNet<CurrencyPair>>, AllocError>
    ensures { IfOk result (λ nets. map tenor_view nets.items ≡ pair_nets lent.now.factors) }
{
    let mut nets = Vec::with_capacity(alloc, lent.len())?;
    for (key, holding) in lent.iter() {
        if let Some(volatility) = volatility_of(key) {
            nets.push(TenorNet {
                of: volatility.pair,
                tenor: volatility.tenor,
                net: holding.net,
            })?;
        }
    }
    Ok(nets)
}

fn volatility_of(key: &FactorKey) -> Option<PairVolatility>
    ensures { option_map volatility_view result ≡ as_pair_volatility (risk key.now.factor) }
{
    match &key.factor {
        Factor::FxVol { pair, tenor } => Some(PairVolatility {
            pair: *pair,
            tenor: *tenor,
        }),
        _ => None,
    }
}

/// The correlation of the volatilities of any two of so many different pairs.
pub fn vol_rho(params: &Params, count: usize) -> EvenRho
    ensures count { result.count ≡ count }
    ensures rho { result.rho.0 ≡ six params.now.fx.vol_rho }
{
    EvenRho {
        count,
        rho: params.fx_vol_rho().in_millionths(),
    }
}
