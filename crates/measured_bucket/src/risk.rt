//! The curvature risk of a factor.
ghost use Rattle.std.specs.Prelude.{◌≡◌, ◌*◌, ◌^◌, ◌≤◌, unsigned_abs};
ghost use Rattle.simm_params.specs.Ranges.{sigmas, IsWithin};
ghost use Rattle.measured_bucket.specs.Risk.{curved_by, risk_of};

use simm_params::mh_units::{Corr6, Rate4, div_away};
use weighted_bucket::Weighed;

/// The curvature risk of a factor with this sum of nets, each times what its tenor counts, at this
/// volatility. No concentration scales it.
pub fn curve(sigma: Rate4, sum: i128) -> Weighed
    requires sigma { IsWithin sigmas sigma.0 }
    requires small { unsigned_abs sum ≤ 219 * 10 ^ 22 }
    ensures { result ≡ curved_by sigma.0 sum }
{
    Weighed {
        w: curvature_risk(sigma, sum),
        cr: Corr6::ONE,
    }
}

// The volatility, in ten-thousandths, times the sum, in 21,900ths of a cent, away from zero to
// the cent.
fn curvature_risk(sigma: Rate4, sum: i128) -> i128
    requires sigma { IsWithin sigmas sigma.0 }
    requires small { unsigned_abs sum ≤ 219 * 10 ^ 22 }
    ensures { result ≡ risk_of sigma.0 sum }
{
    div_away(i128::from(sigma.0) * sum, 219_000_000)
}
