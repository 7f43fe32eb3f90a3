//! The vega of a currency: the volatilities of its rates and of its inflation, which are one
//! concentration group.
ghost use Rattle.std.specs.Prelude.{◌≡◌, ◌*◌, ◌^◌, ◌<◌, ◌≤◌, ◌≤ℤ◌, ◌<ℤ◌};
ghost use Rattle.std.specs.Prelude.{pos, map, sum_by, All, IfOk, unsigned_abs};
ghost use Rattle.measured_bucket.specs.SimmRules.Bucket.{weighted_value};
ghost use Rattle.measured_bucket.specs.SimmRules.Concentration.{one};
ghost use Rattle.measured_bucket.specs.SimmRules.Risks.{RateVolatility};
ghost use Rattle.measured_bucket.specs.SimmRules.Rates.{rate_volatility_cr, rate_volatility_rho};
ghost use Rattle.measured_bucket.specs.SimmRules.Rates.{same_rate_volatility};
ghost use Rattle.measured_bucket.specs.SimmRules.Rates.{weighted_rate_volatility};
ghost use Rattle.measured_bucket.specs.WeightedBucket.declared.scaling.Scaling.TheVariants as ways;
ghost use Rattle.measured_bucket.specs.Measured.{IsNear};
ghost use Rattle.measured_bucket.specs.Values.{alone};
ghost use Rattle.class_rates.specs.Unweighed.{unweighed_volatility};
ghost use Rattle.class_rates.specs.Unweighed.{volatilities_group, volatility_from};
ghost use Rattle.class_rates.specs.Volatilities.{group_net, rule_volatility, volatilities_view};
ghost use Rattle.class_rates.specs.Volatilities.{weighed_by, AreVolatilities};

use crate::volatilities::VolatilityNet;
use crate::volatility_rho::VolatilityRho;
use measured_bucket::concentration::cr;
use measured_bucket::mh_units::{Corr6, Rate4};
use measured_bucket::simm_kinds::Currency;
use measured_bucket::simm_params::Params;
use measured_bucket::weighted_bucket::{Scaling, Weighed, weigh};
use measured_bucket::{Column, Group, Measured, Weighing};
use std::alloc::{AllocError, Global};

/// The vega of the volatilities of a currency.
#[derive(Clone, Copy)]
pub struct CurrencyVega<'a> {
    /// The parameters.
    pub params: &'a Params,
    /// The currency.
    pub currency: &'a Currency,
    /// Its volatilities, in their order.
    pub volatilities: &'a [VolatilityNet],
}

impl<'a> Measured for CurrencyVega<'a> {
    type Net = VolatilityNet;

    type Rho = VolatilityRho<'a>;

    ghost ready = { λ x. AreVolatilities (volatilities_view x.currency.now x.volatilities.now) };

    ghost Of = { RateVolatility };

    ghost of = { λ net. rule_volatility net.volatility };

    ghost same = { same_rate_volatility };

    ghost rho = { λ x. rate_volatility_rho x.params.now };

    ghost weighted = { λ x.
        let volatilities = volatilities_view x.currency.now x.volatilities.now in
        map (weighted_rate_volatility x.params.now
        (rate_volatility_cr x.params.now x.currency.now volatilities)) volatilities };

    ghost unweighed = { λ x. let its = volatilities_view x.currency.now x.volatilities.now in
        let group = volatilities_group x.params.now x.currency.now its in
        map (unweighed_volatility x.params.now group) its };

    ghost weigh = { weighted_value };

    ghost cr = { λ x. rate_volatility_cr x.params.now x.currency.now
        (volatilities_view x.currency.now x.volatilities.now) };

    ghost near = { λ x.
        IsNear (10 ^ 10) 693999998 1 alone (volatilities_view x.currency.now x.volatilities.now) };

    ghost scaling = { ways.Plain };

    fn scaling(&self) -> Scaling {
        Scaling::Plain
    }

    fn nets(&self) -> &[VolatilityNet] {
        self.volatilities
    }

    fn weighings(&self, alloc: Global) -> Result<Vec<Weighing>, AllocError> {
        let group = currency_group(self.params, self.currency, self.volatilities);
        volatility_weighings(alloc, self.params.rate_vrw(), group, self.volatilities)
    }

    fn column(&self, alloc: Global) -> Result<Column<VolatilityRho<'a>>, AllocError> {
        self.params.facts();
        self.params.rate_facts();
        let cr = currency_cr(self.params, self.currency, self.volatilities);
        let factors = weigh_volatilities(alloc, self.params.rate_vrw(), cr, self.volatilities)?;
        let rho = VolatilityRho {
            params: self.params,
            volatilities: self.volatilities,
        };
        Ok(Column { factors, rho, cr })
    }
}

// The concentration factor of a currency.
fn currency_cr(params: &Params, currency: &Currency, volatilities: &[VolatilityNet]) -> Corr6
    requires { AreVolatilities (volatilities_view currency.now volatilities.now) }
    ensures value { result.0 ≡ rate_volatility_cr params.now currency.now
        (volatilities_view currency.now volatilities.now) }
    ensures from_one { one ≤ℤ result.0 }
    ensures below { result.0 <ℤ pos 347000000 }
{
    params.rate_facts();
    cr(
        group_net(volatilities),
        params.rate_thresholds(currency).vega,
    )
}

// The concentration group of a currency.
fn currency_group(params: &Params, currency: &Currency, volatilities: &[VolatilityNet]) -> Group
    requires { AreVolatilities (volatilities_view currency.now volatilities.now) }
    ensures { let its = volatilities_view currency.now volatilities.now in
        result ≡ volatilities_group params.now currency.now its }
{
    Group {
        net: group_net(volatilities),
        threshold: params.rate_thresholds(currency).vega,
    }
}

// The net of the concentration group, which is all of them.
fn group_net(volatilities: &[VolatilityNet]) -> i128
    requires { sum_by (λ n. unsigned_abs n.net) volatilities.now ≤ 10 ^ 17 }
    ensures { result ≡ group_net volatilities.now }
{
    let mut sum = 0;
    for net in volatilities {
        sum += net.net;
    }
    sum
}

// The net to each volatility, weighed. `cr` is the concentration factor of the currency.
fn weigh_volatilities(
    alloc: Global,
    vrw: Rate4,
    cr: Corr6,
    volatilities: &[VolatilityNet],
) -> Result<Vec<Weighed>, AllocError>
    requires small { All (λ n. unsigned_abs n.net * unsigned_abs vrw.0 ≤ 10 ^ 28) volatilities.now }
    requires below { unsigned_abs cr.0 < 347000000 }
    ensures { IfOk result (λ weighed.
        weighed.items ≡ map (weighed_by vrw.0 cr.0) volatilities.now) }
{
    let mut weighed = Vec::with_capacity(alloc, volatilities.len())?;
    for net in volatilities {
        weighed.push(weigh_volatility(vrw, cr, net))?;
    }
    Ok(weighed)
}

fn weigh_volatility(vrw: Rate4, cr: Corr6, net: &VolatilityNet) -> Weighed
    requires small { unsigned_abs net.now.net * unsigned_abs vrw.0 ≤ 10 ^ 28 }
    requires below { unsigned_abs cr.0 < 347000000 }
    ensures { result ≡ weighed_by vrw.0 cr.0 net.now }
{
    Weighed {
        w: weigh(vrw, net.net, cr),
        cr,
    }
}

// What the net to each volatility is weighed from. `group` is the group of the currency.
fn volatility_weighings(
    alloc: Global,
    vrw: Rate4,
    group: Group,
    volatilities: &[VolatilityNet],
) -> Result<Vec<Weighing>, AllocError>
    ensures { IfOk result (λ weighings.
        weighings.items ≡ map (λ n. volatility_from vrw.0 group n.net) volatilities.now) }
{
    let mut weighings = Vec::with_capacity(alloc, volatilities.len())?;
    for net in volatilities {
        weighings.push(Weighing {
            amount: net.net,
            group: Some(group),
            weight: vrw,
        })?;
    }
    Ok(weighings)
}
