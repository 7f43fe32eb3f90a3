//! The values of the one bucket of foreign exchange of a product class, of the factors of its
//! place in a book.
ghost use Rattle.std.specs.Prelude.{◌≡◌, ◌+◌, ◌*◌, ◌^◌, ◌≤◌, IfOk, length, unsigned_abs};
ghost use Rattle.measured_bucket.specs.SimmRules.ForeignExchange.{fx_sigma, fx_weight};
ghost use Rattle.measured_bucket.specs.SimmRules.ForeignExchange.{fx_value, fx_vega_value};
ghost use Rattle.measured_bucket.specs.SimmRules.ForeignExchange.{fx_curvature_value, pairs_of};
ghost use Rattle.measured_bucket.specs.Measured.{IsNear, IsSound};
ghost use Rattle.class_exchange.specs.Currencies.{risky_nets, AreRisky};
ghost use Rattle.class_exchange.specs.Pairs.{pair_nets, ArePairs};

use crate::currencies::risky_currencies;
use crate::curvature::FxCurvature;
use crate::delta::FxDelta;
use crate::pairs::volatile_pairs;
use crate::vega::FxVega;
use measured_bucket::factor_book::PlaceFactors;
use measured_bucket::pair_sum::Steps;
use measured_bucket::simm_params::Params;
use measured_bucket::simm_rules::BucketMargin;
use measured_bucket::{TenorScale, measure};
use std::alloc::{AllocError, Global};
use std::sync::ledger::Ledger;

/// The delta value of the currencies of a place, whose `k` is the delta margin of foreign
/// exchange; they are in range and in order. A sensitivity to the calculation currency is no risk.
/// `n` other currencies take at most `n * n` steps. Want of memory is the only error.
pub fn fx_delta<L: Ledger>(
    alloc: Global,
    params: &Params,
    lent: &PlaceFactors,
    steps: &mut Steps<L>,
) -> Result<BucketMargin, AllocError>
    requires { AreRisky params.now (risky_nets params.now lent.now.factors) }
    ensures value { IfOk result (λ m.
        m ≡ fx_value params.now (risky_nets params.now lent.now.factors)) }
    ensures sound { IfOk result IsSound }
    ensures near { let currencies = risky_nets params.now lent.now.factors in IfOk result (λ m.
        IsNear (10 ^ 10) 346999999 1 (fx_weight params.now) currencies (unsigned_abs m.gross)) }
    ensures steps { let n = length (risky_nets params.now lent.now.factors) in
        steps.new ≤ steps.old + n * n }
{
    let currencies = risky_currencies(alloc, params, lent)?;
    let measured = FxDelta {
        params,
        currencies: currencies.as_slice(),
    };
    measure(alloc, &measured, steps)
}

/// The vega value of the pairs of currencies of a place, whose `k` is the vega margin of foreign
/// exchange; their volatilities are in range and in order. `n` pairs take at most `n * n` steps.
/// Want of memory is the only error.
pub fn fx_vega<L: Ledger>(
    alloc: Global,
    params: &Params,
    lent: &PlaceFactors,
    steps: &mut Steps<L>,
) -> Result<BucketMargin, AllocError>
    requires { ArePairs params.now (pair_nets lent.now.factors) }
    ensures value { IfOk result (λ m. m ≡ fx_vega_value params.now (pair_nets lent.now.factors)) }
    ensures sound { IfOk result IsSound }
    ensures near { let volatilities = pair_nets lent.now.factors in
        IfOk result (λ m. IsNear (10 ^ 10) 832799998 695
        (λ v. fx_sigma params.now v.pair) volatilities (unsigned_abs m.gross)) }
    ensures steps { let n = length (pairs_of (pair_nets lent.now.factors)) in
        steps.new ≤ steps.old + n * n }
{
    params.facts();
    let pairs = volatile_pairs(alloc, lent, TenorScale::Even)?;
    let measured = FxVega {
        params,
        pairs: pairs.as_slice(),
    };
    measure(alloc, &measured, steps)
}

/// The curvature value of the pairs of currencies of a place, whose volatilities are in range and
/// in order. `n` pairs take at most `n * n` steps. Want of memory is the only error.
pub fn fx_curvature<L: Ledger>(
    alloc: Global,
    params: &Params,
    lent: &PlaceFactors,
    steps: &mut Steps<L>,
) -> Result<BucketMargin, AllocError>
    requires { ArePairs params.now (pair_nets lent.now.factors) }
    ensures value { IfOk result (λ m.
        m ≡ fx_curvature_value params.now (pair_nets lent.now.factors)) }
    ensures sound { IfOk result IsSound }
    ensures near { let volatilities = pair_nets lent.now.factors in IfOk result (λ m.
        IsNear 20000 1 1 (λ v. fx_sigma params.now v.pair) volatilities (unsigned_abs m.gross)) }
    ensures steps { let n = length (pairs_of (pair_nets lent.now.factors)) in
        steps.new ≤ steps.old + n * n }
{
    params.facts();
    let pairs = volatile_pairs(alloc, lent, TenorScale::Curved)?;
    let measured = FxCurvature {
        params,
        pairs: pairs.as_slice(),
    };
    measure(alloc, &measured, steps)
}
