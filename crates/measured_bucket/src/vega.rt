//! The vega of what is a concentration group by itself: a name, or a pair of currencies.
ghost use Rattle.std.specs.Prelude.{◌≡◌, ◌*◌, ◌^◌, ◌≤◌, unsigned_abs, pos};
ghost use Rattle.simm_params.specs.Facts.{IsWeighed};
ghost use Rattle.simm_params.specs.Ranges.{hvrs, sigmas, vega_weights, IsWithin};
ghost use Rattle.measured_bucket.specs.Values.{IsSmall};
ghost use Rattle.measured_bucket.specs.Vega.{vega_alone, vega_from, vega_risk};

use crate::alone::weigh_alone;
use crate::weighing::Weighing;
use simm_params::mh_units::{Rate4, div_away};
use weighted_bucket::Weighed;

/// What makes a net change for one unit of volatility a vega risk, and what this weighs.
#[derive(Clone, Copy)]
pub struct VegaTerms {
    /// The historical volatility ratio of the class.
    pub hvr: Rate4,
    /// The volatility.
    pub sigma: Rate4,
    /// The vega risk weight.
    pub weight: Rate4,
    /// The vega threshold, in cents.
    pub threshold: i64,
    ghost ratio: { IsWithin hvrs hvr.0 },
    ghost volatility: { IsWithin sigmas sigma.0 },
    ghost risk_weight: { IsWithin vega_weights weight.0 },
    ghost thick: { IsWeighed (pos 10000) threshold },
}

/// The vega risk of a net change for one unit of volatility, in cents, weighed by its own
/// concentration. A net is no more than 200,000 amounts come to that a batch can have.
pub fn weigh_vega(terms: &VegaTerms, net: i128) -> Weighed
    requires size { unsigned_abs net ≤ 2 * 10 ^ 20 }
    requires small { IsSmall terms.now.sigma.0 net }
    ensures { let t = terms.now in
        result ≡ vega_alone t.hvr.0 t.sigma.0 t.weight.0 t.threshold net }
{
    let risk = vega_risk(terms.hvr, terms.sigma, net);
    weigh_alone(terms.weight, terms.threshold, risk)
}

/// What the vega risk of that net change is weighed from.
pub fn vega_weighing(terms: &VegaTerms, net: i128) -> Weighing
    requires { unsigned_abs net ≤ 2 * 10 ^ 20 }
    ensures { let t = terms.now in result ≡ vega_from t.hvr.0 t.sigma.0 t.weight.0 t.threshold net }
{
    let risk = vega_risk(terms.hvr, terms.sigma, net);
    Weighing::of_itself(terms.weight, terms.threshold, risk)
}

// The historical volatility ratio times the volatility times the net change, away from zero to
// the cent.
fn vega_risk(hvr: Rate4, sigma: Rate4, net: i128) -> i128
    requires hvr { IsWithin hvrs hvr.0 }
    requires sigma { IsWithin sigmas sigma.0 }
    requires size { unsigned_abs net ≤ 2 * 10 ^ 20 }
    ensures { result ≡ vega_risk hvr.0 sigma.0 net }
{
    let product = i128::from(hvr.0) * i128::from(sigma.0) * net;
    div_away(product, 100_000_000)
}
