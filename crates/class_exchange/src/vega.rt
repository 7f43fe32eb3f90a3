//! The vega of foreign exchange: the volatilities of its pairs of currencies, each pair a
//! concentration group by itself.
ghost use Rattle.std.specs.Prelude.{◌≡◌, ◌^◌, All, IfOk, map};
ghost use Rattle.measured_bucket.specs.SimmKinds.Order.{pair_cmp, same_pair};
ghost use Rattle.measured_bucket.specs.SimmKinds.Pair.{Pair};
ghost use Rattle.measured_bucket.specs.SimmRules.Bucket.{weighted_value};
ghost use Rattle.measured_bucket.specs.SimmRules.Concentration.{one};
ghost use Rattle.measured_bucket.specs.SimmRules.ForeignExchange.{fx_sigma};
ghost use Rattle.measured_bucket.specs.SimmRules.ForeignExchange.{fx_vega_threshold, pair_rho};
ghost use Rattle.measured_bucket.specs.WeightedBucket.declared.scaling.Scaling.TheVariants as ways;
ghost use Rattle.measured_bucket.specs.Measured.{IsNear};
ghost use Rattle.measured_bucket.specs.Runs.{AreTotals};
ghost use Rattle.measured_bucket.specs.Values.{weighed_as};
ghost use Rattle.measured_bucket.specs.declared.tenor_scale.TenorScale.TheVariants as scale;
ghost use Rattle.class_exchange.specs.Pairs.{pair_sum, pair_sums, vega_pair, CanWeigh};
ghost use Rattle.class_exchange.specs.Unweighed.{unweighed_pair};

use crate::pairs::vol_rho;
use measured_bucket::mh_units::Corr6;
use measured_bucket::simm_kinds::CurrencyPair;
use measured_bucket::simm_params::Params;
use measured_bucket::weighted_bucket::{Scaling, Weighed};
use measured_bucket::{
    Column, EvenRho, Measured, TenorSum, VegaTerms, Weighing, vega_weighing, weigh_vega,
};
use std::alloc::{AllocError, Global};

/// The vega of the pairs of a product class.
#[derive(Clone, Copy)]
pub struct FxVega<'a> {
    /// The parameters.
    pub params: &'a Params,
    /// What the nets to the volatilities of each pair come to, each tenor counted once; in the
    /// order of the pairs.
    pub pairs: &'a [TenorSum<CurrencyPair>],
}

impl<'a> Measured for FxVega<'a> {
    type Net = TenorSum<CurrencyPair>;

    type Rho = EvenRho;

    ghost ready = { λ x.
        AreTotals pair_cmp scale.Even (fx_sigma x.params.now) (pair_sums x.pairs.now) };

    ghost Of = { Pair };

    ghost of = { λ net. net.of };

    ghost same = { same_pair };

    ghost rho = { λ x. pair_rho x.params.now };

    ghost weighted = { λ x. map (vega_pair x.params.now) (pair_sums x.pairs.now) };

    ghost unweighed = { λ x. map (unweighed_pair x.params.now) (pair_sums x.pairs.now) };

    ghost weigh = { weighted_value };

    ghost cr = { λ _. one };

    ghost near = { λ x.
        IsNear (10 ^ 10) 832799998 695 (fx_sigma x.params.now) (pair_sums x.pairs.now) };

    ghost scaling = { ways.Concentrated };

    fn scaling(&self) -> Scaling {
        Scaling::Concentrated
    }

    fn nets(&self) -> &[TenorSum<CurrencyPair>] {
        self.pairs
    }

    fn weighings(&self, alloc: Global) -> Result<Vec<Weighing>, AllocError> {
        self.params.facts();
        self.params.pair_facts();
        pair_weighings(alloc, self.params, self.pairs)
    }

    fn column(&self, alloc: Global) -> Result<Column<EvenRho>, AllocError> {
        self.params.facts();
        self.params.pair_facts();
        let factors = weigh_pairs(alloc, self.params, self.pairs)?;
        let rho = vol_rho(self.params, factors.len());
        Ok(Column {
            factors,
            rho,
            cr: Corr6::ONE,
        })
    }
}

// The vega risk of each pair, weighed by its own concentration.
fn weigh_pairs(
    alloc: Global,
    params: &Params,
    pairs: &[TenorSum<CurrencyPair>],
) -> Result<Vec<Weighed>, AllocError>
    requires { All (CanWeigh params.now) pairs.now }
    ensures { IfOk result (λ weighed. weighed.items
        ≡ map (λ pair. weighed_as (vega_pair params.now (pair_sum pair))) pairs.now) }
{
    let mut weighed = Vec::with_capacity(alloc, pairs.len())?;
    for pair in pairs {
        weighed.push(weigh_pair(params, pair))?;
    }
    Ok(weighed)
}

fn weigh_pair(params: &Params, pair: &TenorSum<CurrencyPair>) -> Weighed
    requires { CanWeigh params.now pair.now }
    ensures { result ≡ weighed_as (vega_pair params.now (pair_sum pair.now)) }
{
    weigh_vega(&vega_terms(params, pair.of), pair.sum)
}

// What each sum is weighed from.
fn pair_weighings(
    alloc: Global,
    params: &Params,
    pairs: &[TenorSum<CurrencyPair>],
) -> Result<Vec<Weighing>, AllocError>
    requires { All (CanWeigh params.now) pairs.now }
    ensures { IfOk result (λ weighings. weighings.items
        ≡ map (λ pair. (unweighed_pair params.now (pair_sum pair)).from) pairs.now) }
{
    let mut weighings = Vec::with_capacity(alloc, pairs.len())?;
    for pair in pairs {
        weighings.push(pair_weighing(params, pair))?;
    }
    Ok(weighings)
}

fn pair_weighing(params: &Params, pair: &TenorSum<CurrencyPair>) -> Weighing
    requires { CanWeigh params.now pair.now }
    ensures { result ≡ (unweighed_pair params.now (pair_sum pair.now)).from }
{
    vega_weighing(&vega_terms(params, pair.of), pair.sum)
}

// What the categories of a pair's currencies say of its vega.
fn vega_terms(params: &Params, pair: CurrencyPair) -> VegaTerms
    ensures hvr { result.hvr.0 ≡ params.now.fx.hvr }
    ensures sigma { result.sigma.0 ≡ fx_sigma params.now pair }
    ensures weight { result.weight.0 ≡ params.now.fx.vrw }
    ensures threshold { result.threshold ≡ fx_vega_threshold params.now pair }
{
    params.pair_facts();
    VegaTerms {
        hvr: params.fx_hvr(),
        sigma: params.pair_volatility(pair),
        weight: params.fx_vrw(),
        threshold: vega_threshold(params, pair),
    }
}

fn vega_threshold(params: &Params, pair: CurrencyPair) -> i64
    ensures { result ≡ fx_vega_threshold params.now pair }
{
    let first = params.concentration_category(&pair.first());
    let second = params.concentration_category(&pair.second());
    params.fx_vega_threshold(first, second)
}
