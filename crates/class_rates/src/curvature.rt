//! The curvature of a currency: the volatilities of its rates and of its inflation,
//! without concentration.
ghost use Rattle.std.specs.Prelude.{◌≡◌, ◌*◌, ◌^◌, ◌≤◌, map, pos, All, IfOk, unsigned_abs};
ghost use Rattle.measured_bucket.specs.SimmRules.Concentration.{one};
ghost use Rattle.measured_bucket.specs.SimmRules.Risks.{RateVolatility};
ghost use Rattle.measured_bucket.specs.SimmRules.Rates.{curved_rate_volatility};
ghost use Rattle.measured_bucket.specs.SimmRules.Rates.{rate_volatility_rho, same_rate_volatility};
ghost use Rattle.measured_bucket.specs.WeightedBucket.declared.scaling.Scaling.TheVariants as ways;
ghost use Rattle.measured_bucket.specs.Explained.{without_group};
ghost use Rattle.measured_bucket.specs.Measured.{IsNear};
ghost use Rattle.measured_bucket.specs.Risk.{risk_of};
ghost use Rattle.measured_bucket.specs.Values.{alone};
ghost use Rattle.class_rates.specs.Unweighed.{scaled_net, uncurved_volatility};
ghost use Rattle.class_rates.specs.Volatilities.{curved_net, rule_volatility, volatilities_view};
ghost use Rattle.class_rates.specs.Volatilities.{AreVolatilities};

use crate::volatilities::VolatilityNet;
use crate::volatility_rho::VolatilityRho;
use measured_bucket::mh_units::{Corr6, Rate4};
use measured_bucket::simm_kinds::Currency;
use measured_bucket::simm_params::Params;
use measured_bucket::weighted_bucket::{Scaling, Weighed};
use measured_bucket::{Column, Measured, TenorScale, Weighing, curve};
use std::alloc::{AllocError, Global};

/// The volatility at which a volatility counts: 1, since its amount is already volatility
/// times vega.
const UNIT: Rate4 = Rate4(10_000);

/// The curvature of the volatilities of a currency.
#[derive(Clone, Copy)]
pub struct CurrencyCurvature<'a> {
    /// The parameters.
    pub params: &'a Params,
    /// The currency.
    pub currency: &'a Currency,
    /// Its volatilities, in their order.
    pub volatilities: &'a [VolatilityNet],
}

impl<'a> Measured for CurrencyCurvature<'a> {
    type Net = VolatilityNet;

    type Rho = VolatilityRho<'a>;

    ghost ready = { λ x. AreVolatilities (volatilities_view x.currency.now x.volatilities.now) };

    ghost Of = { RateVolatility };

    ghost of = { λ net. rule_volatility net.volatility };

    ghost same = { same_rate_volatility };

    ghost rho = { λ x. rate_volatility_rho x.params.now };

    ghost weighted = { λ x.
        map curved_rate_volatility (volatilities_view x.currency.now x.volatilities.now) };

    ghost unweighed = { λ x. let its = volatilities_view x.currency.now x.volatilities.now in
        map uncurved_volatility its };

    ghost weigh = { λ weight amount _. risk_of weight amount };

    ghost cr = { λ _. one };

    ghost near = { λ x.
        IsNear 20000 1 1 alone (volatilities_view x.currency.now x.volatilities.now) };

    ghost scaling = { ways.Squared };

    fn scaling(&self) -> Scaling {
        Scaling::Squared
    }

    fn nets(&self) -> &[VolatilityNet] {
        self.volatilities
    }

    fn weighings(&self, alloc: Global) -> Result<Vec<Weighing>, AllocError> {
        curvature_weighings(alloc, self.volatilities)
    }

    fn column(&self, alloc: Global) -> Result<Column<VolatilityRho<'a>>, AllocError> {
        self.params.facts();
        let factors = curve_volatilities(alloc, self.volatilities)?;
        let rho = VolatilityRho {
            params: self.params,
            volatilities: self.volatilities,
        };
        Ok(Column {
            factors,
            rho,
            cr: Corr6::ONE,
        })
    }
}

// The curvature risk of each net, by its tenor.
fn curve_volatilities(
    alloc: Global,
    volatilities: &[VolatilityNet],
) -> Result<Vec<Weighed>, AllocError>
    requires { All (λ n. unsigned_abs n.net ≤ 2 * 10 ^ 20) volatilities.now }
    ensures { IfOk result (λ risks. risks.items ≡ map curved_net volatilities.now) }
{
    let mut risks = Vec::with_capacity(alloc, volatilities.len())?;
    for net in volatilities {
        risks.push(curve_volatility(net))?;
    }
    Ok(risks)
}

fn curve_volatility(net: &VolatilityNet) -> Weighed
    requires { unsigned_abs net.now.net ≤ 2 * 10 ^ 20 }
    ensures { result ≡ curved_net net.now }
{
    curve(UNIT, scaled_net(net))
}

// A net, times what its tenor counts.
fn scaled_net(net: &VolatilityNet) -> i128
    requires { unsigned_abs net.now.net ≤ 2 * 10 ^ 20 }
    ensures value { result ≡ scaled_net net.now }
    ensures size { unsigned_abs result ≤ 219 * 10 ^ 22 }
{
    let tenor = net.volatility.tenor();
    TenorScale::Curved.scaled(tenor, net.net)
}

// What each net is weighed from.
fn curvature_weighings(
    alloc: Global,
    volatilities: &[VolatilityNet],
) -> Result<Vec<Weighing>, AllocError>
    requires { All (λ n. unsigned_abs n.net ≤ 2 * 10 ^ 20) volatilities.now }
    ensures { IfOk result (λ weighings. weighings.items
        ≡ map (λ n. without_group (pos 10000) (scaled_net n)) volatilities.now) }
{
    let mut weighings = Vec::with_capacity(alloc, volatilities.len())?;
    for net in volatilities {
        weighings.push(Weighing::ungrouped(UNIT, scaled_net(net)))?;
    }
    Ok(weighings)
}
