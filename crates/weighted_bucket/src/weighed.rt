ghost use Rattle.std.specs.Prelude.{◌≡◌, ◌*◌, ◌^◌, ◌<◌, ◌≤◌, unsigned_abs};
ghost use Rattle.concentration.specs.SimmRules.Bucket.{weighted_value};

use concentration::mh_units::{Corr6, Rate4, div_away};
use pair_sum::Weighted;

/// A factor of a bucket.
#[derive(Clone, Copy)]
pub struct Weighed {
    /// Its weighted value, in cents.
    pub w: i128,
    /// The concentration factor of its group; 1 where the measure has none.
    pub cr: Corr6,
}

impl Weighted for Weighed {
    ghost weight = { λ factor. factor.w };

    fn weight(&self) -> i128 {
        self.w
    }
}

/// The weighted value of an amount in cents: its risk weight times the amount times the
/// concentration factor of its group, rounded away from zero to the cent.
pub fn weigh(weight: Rate4, x: i128, cr: Corr6) -> i128
    requires small { unsigned_abs x * unsigned_abs weight.0 ≤ 10 ^ 28 }
    requires below { unsigned_abs cr.0 < 347000000 }
    ensures { result ≡ weighted_value weight.0 x cr.0 }
{
    let product = i128::from(weight.0) * x * i128::from(cr.0);
    div_away(product, 10_000_000_000)
}
