//! What the amounts to a factor weigh in gross sizes.
ghost use Rattle.std.specs.Prelude.{◌≡◌, ◌^◌, ◌≤◌, unsigned_abs};
ghost use Rattle.simm_params.specs.SimmRules.ForeignExchange.{fx_weight};
ghost use Rattle.book_range.specs.Weights.{credit_weight, credit_volatility};
ghost use Rattle.book_range.specs.Weights.{price_weight, price_volatility};
ghost use Rattle.book_range.specs.Weighing.{own_weight};

use simm_params::Params;
use simm_params::mh_units::Rate4;
use simm_params::simm_kinds::{Bucket, Currency, Factor};
use simm_params::simm_rules::{CreditClass, PricedClass};

/// A weight of 1.
pub const ONE: Rate4 = Rate4(10_000);

/// A weight of 0.
const NOTHING: Rate4 = Rate4(0);

/// The weight of a factor that has one of its own, in ten-thousandths: a rate, a currency or
/// a pair.
pub fn own_weight(params: &Params, factor: &Factor) -> Rate4
    ensures value { result.0 ≡ own_weight params.now factor.now }
    ensures bound { unsigned_abs result.0 ≤ 10 ^ 8 }
{
    match factor {
        Factor::IrCurve {
            currency,
            tenor,
            ..
        } => params.curve_weight(params.curve_category(currency), *tenor),
        Factor::Inflation { .. } => params.inflation_weight(),
        Factor::XccyBasis { .. } => params.basis_weight(),
        Factor::Fx { currency } => currency_weight(params, currency),
        Factor::FxVol { pair, .. } => params.pair_volatility(*pair),
        Factor::IrVol { .. }
        | Factor::InflationVol { .. }
        | Factor::CreditQ { .. }
        | Factor::CreditVol { .. }
        | Factor::CreditNonQ { .. }
        | Factor::CreditVolNonQ { .. }
        | Factor::BaseCorr { .. }
        | Factor::Equity { .. }
        | Factor::EquityVol { .. }
        | Factor::Commodity { .. }
        | Factor::CommodityVol { .. } => NOTHING,
    }
}

/// The weight of the credit of a bucket, in ten-thousandths: none where the file doesn't list it.
pub fn credit_weight(params: &Params, class: CreditClass, bucket: Bucket) -> Rate4
    ensures value { result.0 ≡ credit_weight params.now class bucket }
    ensures bound { unsigned_abs result.0 ≤ 10 ^ 8 }
{
    match params.credit_bucket(class, bucket) {
        Some(listed) => listed.terms.weight,
        None => NOTHING,
    }
}

/// The same of its volatilities, each of which weighs 1.
pub fn credit_volatility(params: &Params, class: CreditClass, bucket: Bucket) -> Rate4
    ensures value { result.0 ≡ credit_volatility params.now class bucket }
    ensures bound { unsigned_abs result.0 ≤ 10 ^ 8 }
{
    match params.credit_bucket(class, bucket) {
        Some(_) => ONE,
        None => NOTHING,
    }
}

/// The weight of the names of a bucket, in ten-thousandths: none where the file doesn't list it.
pub fn price_weight(params: &Params, class: PricedClass, bucket: Bucket) -> Rate4
    ensures value { result.0 ≡ price_weight params.now class bucket }
    ensures bound { unsigned_abs result.0 ≤ 10 ^ 8 }
{
    match params.priced_bucket(class, bucket) {
        Some(listed) => listed.terms.weight,
        None => NOTHING,
    }
}

/// Their volatility, in ten-thousandths.
pub fn price_volatility(params: &Params, class: PricedClass, bucket: Bucket) -> Rate4
    ensures value { result.0 ≡ price_volatility params.now class bucket }
    ensures bound { unsigned_abs result.0 ≤ 10 ^ 8 }
{
    match params.priced_bucket(class, bucket) {
        Some(listed) => listed.sigma,
        None => NOTHING,
    }
}

fn currency_weight(params: &Params, currency: &Currency) -> Rate4
    ensures value { result.0 ≡ fx_weight params.now currency.now }
    ensures bound { unsigned_abs result.0 ≤ 10 ^ 8 }
{
    params.facts();
    if params.is_calculation_currency(currency) {
        return NOTHING;
    }
    params.fx_weight(params.volatility_category(currency))
}
