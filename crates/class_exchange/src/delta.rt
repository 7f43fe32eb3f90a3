//! The delta of foreign exchange: its currencies, each a concentration group by itself.
ghost use Rattle.std.specs.Prelude.{◌≡◌, ℕ, ◌^◌, All, IfOk, List, map};
ghost use Rattle.measured_bucket.specs.SimmKinds.Order.{same_name};
ghost use Rattle.measured_bucket.specs.SimmRules.Bucket.{weighted_value};
ghost use Rattle.measured_bucket.specs.SimmRules.Concentration.{one};
ghost use Rattle.measured_bucket.specs.SimmRules.ForeignExchange.{currency_rho, fx_weight};
ghost use Rattle.measured_bucket.specs.SimmRules.ForeignExchange.{weighted_currency};
ghost use Rattle.measured_bucket.specs.WeightedBucket.declared.scaling.Scaling.TheVariants as ways;
ghost use Rattle.measured_bucket.specs.Measured.{IsNear};
ghost use Rattle.class_exchange.specs.Currencies.{currencies_view, currency_view};
ghost use Rattle.class_exchange.specs.Currencies.{weighed_currency, AreCurrencies};
ghost use Rattle.class_exchange.specs.Currencies.{CanWeigh, IsRisky};
ghost use Rattle.class_exchange.specs.Unweighed.{unweighed_currency};

use crate::categories::CategoryRho;
use crate::currencies::CurrencyNet;
use measured_bucket::mh_units::Corr6;
use measured_bucket::simm_params::Params;
use measured_bucket::weighted_bucket::{Scaling, Weighed};
use measured_bucket::{Column, Measured, Weighing, weigh_alone};
use std::alloc::{AllocError, Global};

/// The delta of the currencies of a product class.
#[derive(Clone, Copy)]
pub struct FxDelta<'a> {
    /// The parameters.
    pub params: &'a Params,
    /// The currencies, in their order.
    pub currencies: &'a [CurrencyNet],
}

impl<'a> Measured for FxDelta<'a> {
    type Net = CurrencyNet;

    type Rho = CategoryRho<'a>;

    ghost ready = { λ x. AreCurrencies x.params.now x.currencies.now };

    ghost Of = { List ℕ };

    ghost of = { λ net. net.currency };

    ghost same = { same_name };

    ghost rho = { λ x. currency_rho x.params.now };

    ghost weighted = { λ x.
        map (weighted_currency x.params.now) (currencies_view x.currencies.now) };

    ghost unweighed = { λ x.
        map (unweighed_currency x.params.now) (currencies_view x.currencies.now) };

    ghost weigh = { weighted_value };

    ghost cr = { λ _. one };

    ghost near = { λ x.
        IsNear (10 ^ 10) 346999999 1 (fx_weight x.params.now) (currencies_view x.currencies.now) };

    ghost scaling = { ways.Concentrated };

    fn scaling(&self) -> Scaling {
        Scaling::Concentrated
    }

    fn nets(&self) -> &[CurrencyNet] {
        self.currencies
    }

    fn weighings(&self, alloc: Global) -> Result<Vec<Weighing>, AllocError> {
        currency_weighings(alloc, self.params, self.currencies)
    }

    fn column(&self, alloc: Global) -> Result<Column<CategoryRho<'a>>, AllocError> {
        self.params.facts();
        let factors = weigh_currencies(alloc, self.params, self.currencies)?;
        let rho = CategoryRho {
            params: self.params,
            currencies: self.currencies,
        };
        Ok(Column {
            factors,
            rho,
            cr: Corr6::ONE,
        })
    }
}

// Each net, weighed by its category and by its own concentration.
fn weigh_currencies(
    alloc: Global,
    params: &Params,
    currencies: &[CurrencyNet],
) -> Result<Vec<Weighed>, AllocError>
    requires { All (CanWeigh params.now) currencies.now }
    ensures { IfOk result (λ weighed. weighed.items
        ≡ map (λ net. weighed_currency params.now (currency_view net)) currencies.now) }
{
    let mut weighed = Vec::with_capacity(alloc, currencies.len())?;
    for currency in currencies {
        weighed.push(weigh_currency(params, currency))?;
    }
    Ok(weighed)
}

fn weigh_currency(params: &Params, currency: &CurrencyNet) -> Weighed
    requires { CanWeigh params.now currency.now }
    ensures { result ≡ weighed_currency params.now (currency_view currency.now) }
{
    params.facts();
    let threshold = params.fx_threshold(params.concentration_category(&currency.currency));
    weigh_alone(params.fx_weight(currency.category), threshold, currency.net)
}

// What each net is weighed from.
fn currency_weighings(
    alloc: Global,
    params: &Params,
    currencies: &[CurrencyNet],
) -> Result<Vec<Weighing>, AllocError>
    requires { All (IsRisky params.now) currencies.now }
    ensures { IfOk result (λ weighings. weighings.items
        ≡ map (λ net. (unweighed_currency params.now (currency_view net)).from) currencies.now) }
{
    let mut weighings = Vec::with_capacity(alloc, currencies.len())?;
    for currency in currencies {
        weighings.push(currency_weighing(params, currency))?;
    }
    Ok(weighings)
}

fn currency_weighing(params: &Params, currency: &CurrencyNet) -> Weighing
    requires { IsRisky params.now currency.now }
    ensures { result ≡ (unweighed_currency params.now (currency_view currency.now)).from }
{
    let threshold = params.fx_threshold(params.concentration_category(&currency.currency));
    Weighing::of_itself(params.fx_weight(currency.category), threshold, currency.net)
}
