//! The delta of a currency: its curves and its inflation, which are one concentration group, and
//! its basis, which is in none.
ghost use Rattle.std.specs.Prelude.{◌≡◌, ◌*◌, ◌^◌, ◌<◌, ◌≤◌, ◌≤ℤ◌, ◌<ℤ◌};
ghost use Rattle.std.specs.Prelude.{pos, map, sum_by, All, IfOk, unsigned_abs};
ghost use Rattle.measured_bucket.specs.SimmRules.Bucket.{weighted_value};
ghost use Rattle.measured_bucket.specs.SimmRules.Concentration.{one};
ghost use Rattle.measured_bucket.specs.SimmRules.Risks.{Rate as RuleRate};
ghost use Rattle.measured_bucket.specs.SimmRules.Rates.{rate_cr, rate_rho, rate_weight};
ghost use Rattle.measured_bucket.specs.SimmRules.Rates.{same_rate, weighted_rate};
ghost use Rattle.measured_bucket.specs.WeightedBucket.declared.scaling.Scaling.TheVariants as ways;
ghost use Rattle.measured_bucket.specs.Measured.{IsNear};
ghost use Rattle.class_rates.specs.Rates.{rates_view, rule_rate, AreRates};
ghost use Rattle.class_rates.specs.Unweighed.{rates_group, unweighed_rate, weighing_in};
ghost use Rattle.class_rates.specs.Weighing.{group_net, group_part, weighed_in, weight_in};

use crate::rate::Rate;
use crate::rate_rho::RateRho;
use crate::rates::RateNet;
use measured_bucket::concentration::cr;
use measured_bucket::mh_units::{Corr6, Rate4};
use measured_bucket::simm_kinds::Currency;
use measured_bucket::simm_params::{CurveCategory, Params};
use measured_bucket::weighted_bucket::{Scaling, Weighed, weigh};
use measured_bucket::{Column, Group, Measured, Weighing};
use std::alloc::{AllocError, Global};

/// The delta of the rates of a currency.
#[derive(Clone, Copy)]
pub struct CurrencyDelta<'a> {
    /// The parameters.
    pub params: &'a Params,
    /// The currency.
    pub currency: &'a Currency,
    /// Its rates, in their order.
    pub rates: &'a [RateNet],
}

impl<'a> Measured for CurrencyDelta<'a> {
    type Net = RateNet;

    type Rho = RateRho<'a>;

    ghost ready = { λ x. AreRates x.params.now (rates_view x.currency.now x.rates.now) };

    ghost Of = { RuleRate };

    ghost of = { λ net. rule_rate net.rate };

    ghost same = { same_rate };

    ghost rho = { λ x. rate_rho x.params.now };

    ghost weighted = { λ x. let rates = rates_view x.currency.now x.rates.now in
        map (weighted_rate x.params.now (rate_cr x.params.now x.currency.now rates)) rates };

    ghost unweighed = { λ x. let rates = rates_view x.currency.now x.rates.now in
        map (unweighed_rate x.params.now (rates_group x.params.now x.currency.now rates)) rates };

    ghost weigh = { weighted_value };

    ghost cr = { λ x. rate_cr x.params.now x.currency.now (rates_view x.currency.now x.rates.now) };

    ghost near = { λ x. IsNear (10 ^ 10) 346999999 1 (rate_weight x.params.now)
        (rates_view x.currency.now x.rates.now) };

    ghost scaling = { ways.Plain };

    fn scaling(&self) -> Scaling {
        Scaling::Plain
    }

    fn nets(&self) -> &[RateNet] {
        self.rates
    }

    fn weighings(&self, alloc: Global) -> Result<Vec<Weighing>, AllocError> {
        self.params.rate_facts();
        let group = currency_group(self.params, self.currency, self.rates);
        let category = self.params.curve_category(self.currency);
        rate_weighings(alloc, self.params, category, group, self.rates)
    }

    fn column(&self, alloc: Global) -> Result<Column<RateRho<'a>>, AllocError> {
        self.params.facts();
        self.params.rate_facts();
        let cr = currency_cr(self.params, self.currency, self.rates);
        let category = self.params.curve_category(self.currency);
        let factors = weigh_rates(alloc, self.params, category, cr, self.rates)?;
        let rho = RateRho {
            params: self.params,
            rates: self.rates,
        };
        Ok(Column { factors, rho, cr })
    }
}

// The concentration factor of a currency.
fn currency_cr(params: &Params, currency: &Currency, rates: &[RateNet]) -> Corr6
    requires { AreRates params.now (rates_view currency.now rates.now) }
    ensures value { result.0 ≡ rate_cr params.now currency.now (rates_view currency.now rates.now) }
    ensures from_one { one ≤ℤ result.0 }
    ensures below { result.0 <ℤ pos 347000000 }
{
    params.rate_facts();
    cr(group_net(rates), params.rate_thresholds(currency).delta)
}

// The concentration group of a currency.
fn currency_group(params: &Params, currency: &Currency, rates: &[RateNet]) -> Group
    requires { AreRates params.now (rates_view currency.now rates.now) }
    ensures { result ≡ rates_group params.now currency.now (rates_view currency.now rates.now) }
{
    params.rate_facts();
    Group {
        net: group_net(rates),
        threshold: params.rate_thresholds(currency).delta,
    }
}

// The net of the concentration group: of all rates but the basis.
fn group_net(rates: &[RateNet]) -> i128
    requires { sum_by (λ n. unsigned_abs n.net) rates.now ≤ 10 ^ 17 }
    ensures { result ≡ group_net rates.now }
{
    let mut sum = 0;
    for net in rates {
        sum += group_part(net);
    }
    sum
}

fn group_part(net: &RateNet) -> i128
    ensures { result ≡ group_part net.now }
{
    match net.rate {
        Rate::Curve { .. } | Rate::Inflation => net.net,
        Rate::Basis => 0,
    }
}

// The net to each rate of a currency of this category, weighed. `cr` is the concentration factor
// of the currency.
fn weigh_rates(
    alloc: Global,
    params: &Params,
    category: CurveCategory,
    cr: Corr6,
    rates: &[RateNet],
) -> Result<Vec<Weighed>, AllocError>
    requires small { All (λ n. unsigned_abs n.net
        * unsigned_abs (weight_in params.now category n.rate) ≤ 10 ^ 17) rates.now }
    requires below { unsigned_abs cr.0 < 347000000 }
    ensures { IfOk result (λ weighed.
        weighed.items ≡ map (weighed_in params.now category cr.0) rates.now) }
{
    let mut weighed = Vec::with_capacity(alloc, rates.len())?;
    for net in rates {
        weighed.push(weigh_rate(params, category, cr, net))?;
    }
    Ok(weighed)
}

fn weigh_rate(params: &Params, category: CurveCategory, cr: Corr6, net: &RateNet) -> Weighed
    requires small { unsigned_abs net.now.net
        * unsigned_abs (weight_in params.now category net.now.rate) ≤ 10 ^ 17 }
    requires below { unsigned_abs cr.0 < 347000000 }
    ensures { result ≡ weighed_in params.now category cr.0 net.now }
{
    let cr = match net.rate {
        Rate::Curve { .. } | Rate::Inflation => cr,
        Rate::Basis => Corr6::ONE,
    };
    Weighed {
        w: weigh(weight(params, category, net.rate), net.net, cr),
        cr,
    }
}

// What the net to each rate of a currency of this category is weighed from. `group` is the group
// of the currency.
fn rate_weighings(
    alloc: Global,
    params: &Params,
    category: CurveCategory,
    group: Group,
    rates: &[RateNet],
) -> Result<Vec<Weighing>, AllocError>
    ensures { IfOk result (λ weighings.
        weighings.items ≡ map (weighing_in params.now category group) rates.now) }
{
    let mut weighings = Vec::with_capacity(alloc, rates.len())?;
    for net in rates {
        weighings.push(rate_weighing(params, category, group, net))?;
    }
    Ok(weighings)
}

fn rate_weighing(params: &Params, category: CurveCategory, group: Group, net: &RateNet) -> Weighing
    ensures { result ≡ weighing_in params.now category group net.now }
{
    Weighing {
        amount: net.net,
        group: match net.rate {
            Rate::Curve { .. } | Rate::Inflation => Some(group),
            Rate::Basis => None,
        },
        weight: weight(params, category, net.rate),
    }
}

// The risk weight of a rate of a currency of this category.
fn weight(params: &Params, category: CurveCategory, rate: Rate) -> Rate4
    ensures { result.0 ≡ weight_in params.now category rate }
{
    match rate {
        Rate::Curve { tenor, .. } => params.curve_weight(category, tenor),
        Rate::Inflation => params.inflation_weight(),
        Rate::Basis => params.basis_weight(),
    }
}
