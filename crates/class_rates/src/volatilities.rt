//! The volatilities of a currency's rates and of its inflation, as a book lends them at a place.
ghost use Rattle.std.specs.Prelude.{◌≡◌, ℕ, IfOk, List};
ghost use Rattle.class_rates.specs.Volatilities.{volatilities_among, volatilities_view};

use crate::volatility::Volatility;
use measured_bucket::factor_book::PlaceFactors;
use std::alloc::{AllocError, Global};

/// The net sensitivity to a volatility of a currency.
#[derive(Clone, Copy)]
pub struct VolatilityNet {
    /// The volatility.
    pub volatility: Volatility,
    /// In cents.
    pub net: i128,
}

/// The nets to the volatilities of a place in their order, those of rates by tenor and then those
/// of inflation: of its currency, whichever that is. Want of memory is the only error.
pub fn volatilities_among(
    alloc: Global,
    lent: &PlaceFactors,
) -> Result<Vec<VolatilityNet>, AllocError>
    ensures { IfOk result (λ nets. (currency : List ℕ) →
        volatilities_view currency nets.items ≡ volatilities_among currency lent.now.factors) }
{
    let mut nets = Vec::with_capacity(alloc, lent.len())?;
    for (key, holding) in lent.iter() {
        if let Some(volatility) = Volatility::of(key) {
            nets.push(VolatilityNet {
                volatility,
                net: holding.net,
            })?;
        }
    }
    Ok(nets)
}
