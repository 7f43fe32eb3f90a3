//! The currencies of a product class, as a book lends them at their place. A sensitivity to the
//! calculation currency is no risk.
ghost use Rattle.std.specs.Prelude.{◌≡◌, All, IfOk};
ghost use Rattle.measured_bucket.specs.SimmRules.Risks.{risk};
ghost use Rattle.class_exchange.specs.Currencies.{as_risky, currencies_view, risky_nets};
ghost use Rattle.class_exchange.specs.Currencies.{AreCurrencies, AreRisky, IsRisky};

use measured_bucket::factor_book::PlaceFactors;
use measured_bucket::simm_kinds::{Currency, Factor, FactorKey};
use measured_bucket::simm_params::{Params, VolatilityCategory};
use std::alloc::{AllocError, Global};

/// The net sensitivity to a currency.
#[derive(Clone, Copy)]
pub struct CurrencyNet {
    /// The currency.
    pub currency: Currency,
    /// Its volatility category, by which it weighs and correlates.
    pub category: VolatilityCategory,
    /// In cents.
    pub net: i128,
}

/// The nets to the currencies of a place, other than the calculation currency, in their order; the
/// category of each is looked up once. Want of memory is the only error.
pub fn risky_currencies(
    alloc: Global,
    params: &Params,
    lent: &PlaceFactors,
) -> Result<Vec<CurrencyNet>, AllocError>
    ensures nets { IfOk result (λ nets.
        currencies_view nets.items ≡ risky_nets params.now lent.now.factors) }
    ensures risky { IfOk result (λ nets. All (IsRisky params.now) nets.items) }
    ensures ready { AreRisky params.now (risky_nets params.now lent.now.factors)
        → IfOk result (λ nets. AreCurrencies params.now nets.items) }
{
    let mut nets = Vec::with_capacity(alloc, lent.len())?;
    for (key, holding) in lent.iter() {
        if let Some(currency) = risky_currency(params, key) {
            nets.push(CurrencyNet {
                currency,
                category: params.volatility_category(&currency),
                net: holding.net,
            })?;
        }
    }
    Ok(nets)
}

// The currency of a key that is one of another currency than the calculation currency.
fn risky_currency(params: &Params, key: &FactorKey) -> Option<Currency>
    ensures { result ≡ as_risky params.now (risk key.now.factor) }
{
    let Factor::Fx { currency } = &key.factor else {
        return None;
    };
    if params.is_calculation_currency(currency) {
        None
    } else {
        Some(*currency)
    }
}
