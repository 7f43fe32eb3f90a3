//! The rates of a currency, as a book lends them at a place.
ghost use Rattle.std.specs.Prelude.{◌≡◌, ℕ, IfOk, List};
ghost use Rattle.class_rates.specs.Rates.{rates_among, rates_view};

use crate::rate::Rate;
use measured_bucket::factor_book::PlaceFactors;
use std::alloc::{AllocError, Global};

/// The net sensitivity to a rate of a currency.
#[derive(Clone, Copy)]
pub struct RateNet {
    /// The rate.
    pub rate: Rate,
    /// In cents.
    pub net: i128,
}

/// The nets to the rates of a place, in their order: those of its currency, whichever that is.
/// Want of memory is the only error.
pub fn rates_among(alloc: Global, lent: &PlaceFactors) -> Result<Vec<RateNet>, AllocError>
    ensures { IfOk result (λ nets. (currency : List ℕ) →
        rates_view currency nets.items ≡ rates_among currency lent.now.factors) }
{
    let mut nets = Vec::with_capacity(alloc, lent.len())?;
    for (key, holding) in lent.iter() {
        if let Some(rate) = Rate::of(key) {
            nets.push(RateNet {
                rate,
                net: holding.net,
            })?;
        }
    }
    Ok(nets)
}
