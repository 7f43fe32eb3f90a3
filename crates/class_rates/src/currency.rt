//! The values of a currency's bucket, of the factors of its place in a book.
ghost use Rattle.std.specs.Prelude.{◌≡◌, ◌+◌, ◌*◌, ◌^◌, ◌≤◌, IfOk, length, unsigned_abs};
ghost use Rattle.measured_bucket.specs.SimmRules.Rates.{currency_curvature_value, currency_value};
ghost use Rattle.measured_bucket.specs.SimmRules.Rates.{currency_vega_value, rate_weight};
ghost use Rattle.measured_bucket.specs.Measured.{IsNear, IsSound};
ghost use Rattle.measured_bucket.specs.Values.{alone};
ghost use Rattle.class_rates.specs.Rates.{rates_among, AreRates};
ghost use Rattle.class_rates.specs.Volatilities.{volatilities_among, AreVolatilities};

use crate::curvature::CurrencyCurvature;
use crate::delta::CurrencyDelta;
use crate::rates::rates_among;
use crate::vega::CurrencyVega;
use crate::volatilities::volatilities_among;
use measured_bucket::factor_book::PlaceFactors;
use measured_bucket::measure;
use measured_bucket::pair_sum::Steps;
use measured_bucket::simm_kinds::Currency;
use measured_bucket::simm_params::Params;
use measured_bucket::simm_rules::BucketMargin;
use std::alloc::{AllocError, Global};
use std::sync::ledger::Ledger;

/// The delta value of a currency's bucket, of the rates of its place, which are in range and in
/// order. `n` rates take at most `n * n` steps. Want of memory is the only error.
pub fn currency_delta<L: Ledger>(
    alloc: Global,
    params: &Params,
    currency: &Currency,
    lent: &PlaceFactors,
    steps: &mut Steps<L>,
) -> Result<BucketMargin, AllocError>
    requires { AreRates params.now (rates_among currency.now lent.now.factors) }
    ensures value { let rates = rates_among currency.now lent.now.factors in
        IfOk result (λ m. m ≡ currency_value params.now currency.now rates) }
    ensures sound { IfOk result IsSound }
    ensures near { let rates = rates_among currency.now lent.now.factors in IfOk result (λ m.
        IsNear (10 ^ 10) 346999999 1 (rate_weight params.now) rates (unsigned_abs m.gross)) }
    ensures steps { let n = length (rates_among currency.now lent.now.factors) in
        steps.new ≤ steps.old + n * n }
{
    let rates = rates_among(alloc, lent)?;
    let measured = CurrencyDelta {
        params,
        currency,
        rates: rates.as_slice(),
    };
    measure(alloc, &measured, steps)
}

/// The vega value of a currency's bucket, of the volatilities of its place, which are in range and
/// in order. `n` volatilities take at most `n * n` steps. Want of memory is the only error.
pub fn currency_vega<L: Ledger>(
    alloc: Global,
    params: &Params,
    currency: &Currency,
    lent: &PlaceFactors,
    steps: &mut Steps<L>,
) -> Result<BucketMargin, AllocError>
    requires { AreVolatilities (volatilities_among currency.now lent.now.factors) }
    ensures value { let volatilities = volatilities_among currency.now lent.now.factors in
        IfOk result (λ m. m ≡ currency_vega_value params.now currency.now volatilities) }
    ensures sound { IfOk result IsSound }
    ensures near { let volatilities = volatilities_among currency.now lent.now.factors in
        IfOk result (λ m. IsNear (10 ^ 10) 693999998 1 alone volatilities (unsigned_abs m.gross)) }
    ensures steps { let n = length (volatilities_among currency.now lent.now.factors) in
        steps.new ≤ steps.old + n * n }
{
    let volatilities = volatilities_among(alloc, lent)?;
    let measured = CurrencyVega {
        params,
        currency,
        volatilities: volatilities.as_slice(),
    };
    measure(alloc, &measured, steps)
}

/// The curvature value of a currency's bucket, of the volatilities of its place, which are in
/// range and in order. `n` volatilities take at most `n * n` steps. Want of memory is the only
/// error.
pub fn currency_curvature<L: Ledger>(
    alloc: Global,
    params: &Params,
    currency: &Currency,
    lent: &PlaceFactors,
    steps: &mut Steps<L>,
) -> Result<BucketMargin, AllocError>
    requires { AreVolatilities (volatilities_among currency.now lent.now.factors) }
    ensures value { let volatilities = volatilities_among currency.now lent.now.factors in
        IfOk result (λ m. m ≡ currency_curvature_value params.now volatilities) }
    ensures sound { IfOk result IsSound }
    ensures near { let volatilities = volatilities_among currency.now lent.now.factors in
        IfOk result (λ m. IsNear 20000 1 1 alone volatilities (unsigned_abs m.gross)) }
    ensures steps { let n = length (volatilities_among currency.now lent.now.factors) in
        steps.new ≤ steps.old + n * n }
{
    let volatilities = volatilities_among(alloc, lent)?;
    let measured = CurrencyCurvature {
        params,
        currency,
        volatilities: volatilities.as_slice(),
    };
    measure(alloc, &measured, steps)
}
