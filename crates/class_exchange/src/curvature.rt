//! The curvature of foreign exchange: the volatilities of its pairs of currencies,
//! without concentration.
ghost use Rattle.std.specs.Prelude.{◌≡◌, ◌*◌, ◌^◌, ◌≤◌, All, IfOk, map, unsigned_abs};
ghost use Rattle.measured_bucket.specs.SimmKinds.Order.{pair_cmp, same_pair};
ghost use Rattle.measured_bucket.specs.SimmKinds.Pair.{Pair};
ghost use Rattle.measured_bucket.specs.SimmRules.Concentration.{one};
ghost use Rattle.measured_bucket.specs.SimmRules.ForeignExchange.{fx_sigma, pair_rho};
ghost use Rattle.measured_bucket.specs.WeightedBucket.declared.scaling.Scaling.TheVariants as ways;
ghost use Rattle.measured_bucket.specs.Measured.{IsNear};
ghost use Rattle.measured_bucket.specs.Risk.{risk_of};
ghost use Rattle.measured_bucket.specs.Runs.{AreTotals};
ghost use Rattle.measured_bucket.specs.Values.{weighed_as};
ghost use Rattle.measured_bucket.specs.declared.tenor_scale.TenorScale.TheVariants as scale;
ghost use Rattle.class_exchange.specs.Pairs.{curved_sum, pair_sum, pair_sums};
ghost use Rattle.class_exchange.specs.Unweighed.{uncurved_pair};

use crate::pairs::vol_rho;
use measured_bucket::mh_units::Corr6;
use measured_bucket::simm_kinds::CurrencyPair;
use measured_bucket::simm_params::Params;
use measured_bucket::weighted_bucket::{Scaling, Weighed};
use measured_bucket::{Column, EvenRho, Measured, TenorSum, Weighing, curve};
use std::alloc::{AllocError, Global};

/// The curvature of the pairs of a product class.
#[derive(Clone, Copy)]
pub struct FxCurvature<'a> {
    /// The parameters.
    pub params: &'a Params,
    /// What the nets to the volatilities of each pair come to, by how near their tenors are; in
    /// the order of the pairs.
    pub pairs: &'a [TenorSum<CurrencyPair>],
}

impl<'a> Measured for FxCurvature<'a> {
    type Net = TenorSum<CurrencyPair>;

    type Rho = EvenRho;

    ghost ready = { λ x.
        AreTotals pair_cmp scale.Curved (fx_sigma x.params.now) (pair_sums x.pairs.now) };

    ghost Of = { Pair };

    ghost of = { λ net. net.of };

    ghost same = { same_pair };

    ghost rho = { λ x. pair_rho x.params.now };

    ghost weighted = { λ x. map (curved_sum x.params.now) (pair_sums x.pairs.now) };

    ghost unweighed = { λ x. map (uncurved_pair x.params.now) (pair_sums x.pairs.now) };

    ghost weigh = { λ weight amount _. risk_of weight amount };

    ghost cr = { λ _. one };

    ghost near = { λ x. IsNear 219000000 1 1 (fx_sigma x.params.now) (pair_sums x.pairs.now) };

    ghost scaling = { ways.Squared };

    fn scaling(&self) -> Scaling {
        Scaling::Squared
    }

    fn nets(&self) -> &[TenorSum<CurrencyPair>] {
        self.pairs
    }

    fn weighings(&self, alloc: Global) -> Result<Vec<Weighing>, AllocError> {
        pair_weighings(alloc, self.params, self.pairs)
    }

    fn column(&self, alloc: Global) -> Result<Column<EvenRho>, AllocError> {
        self.params.facts();
        let factors = curve_pairs(alloc, self.params, self.pairs)?;
        let rho = vol_rho(self.params, factors.len());
        Ok(Column {
            factors,
            rho,
            cr: Corr6::ONE,
        })
    }
}

// The curvature risk of each pair, at its own volatility.
fn curve_pairs(
    alloc: Global,
    params: &Params,
    pairs: &[TenorSum<CurrencyPair>],
) -> Result<Vec<Weighed>, AllocError>
    requires { All (λ pair. unsigned_abs pair.sum ≤ 219 * 10 ^ 22) pairs.now }
    ensures { IfOk result (λ risks.
        risks.items ≡ map (λ pair. weighed_as (curved_sum params.now (pair_sum pair))) pairs.now) }
{
    let mut risks = Vec::with_capacity(alloc, pairs.len())?;
    for pair in pairs {
        risks.push(curve(params.pair_volatility(pair.of), pair.sum))?;
    }
    Ok(risks)
}

// What each sum is weighed from.
fn pair_weighings(
    alloc: Global,
    params: &Params,
    pairs: &[TenorSum<CurrencyPair>],
) -> Result<Vec<Weighing>, AllocError>
    ensures { IfOk result (λ weighings. weighings.items
        ≡ map (λ pair. (uncurved_pair params.now (pair_sum pair)).from) pairs.now) }
{
    let mut weighings = Vec::with_capacity(alloc, pairs.len())?;
    for pair in pairs {
        let sigma = params.pair_volatility(pair.of);
        weighings.push(Weighing::ungrouped(sigma, pair.sum))?;
    }
    Ok(weighings)
}
