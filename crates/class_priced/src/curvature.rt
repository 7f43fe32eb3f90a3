//! The curvature of a bucket of equity or of commodities: the volatilities of its names,
//! without concentration.
ghost use Rattle.std.specs.Prelude.{◌≡◌, ℕ, ◌*◌, ◌^◌, ◌≤◌, All, IfOk, List, map, unsigned_abs};
ghost use Rattle.measured_bucket.specs.SimmKinds.Order.{name_cmp, same_name};
ghost use Rattle.measured_bucket.specs.SimmRules.Concentration.{one};
ghost use Rattle.measured_bucket.specs.SimmRules.Priced.{name_rho};
ghost use Rattle.measured_bucket.specs.SimmParams.ListedBuckets.{priced_bucket_view};
ghost use Rattle.measured_bucket.specs.SimmParams.Ranges.{sigmas, IsWithin};
ghost use Rattle.measured_bucket.specs.WeightedBucket.declared.scaling.Scaling.TheVariants as ways;
ghost use Rattle.measured_bucket.specs.Explained.{without_group};
ghost use Rattle.measured_bucket.specs.Measured.{IsNear};
ghost use Rattle.measured_bucket.specs.Risk.{curved_by, risk_of};
ghost use Rattle.measured_bucket.specs.Runs.{AreTotals};
ghost use Rattle.measured_bucket.specs.declared.tenor_scale.TenorScale.TheVariants as scale;
ghost use Rattle.class_priced.specs.Sums.{name_sums};
ghost use Rattle.class_priced.specs.Unweighed.{uncurved_name};
ghost use Rattle.class_priced.specs.Weights.{curved_at, curved_name};

use crate::listed::ListedPriced;
use measured_bucket::mh_units::{Corr6, Rate4};
use measured_bucket::simm_kinds::FullName;
use measured_bucket::weighted_bucket::{Scaling, Weighed};
use measured_bucket::{Column, EvenRho, Measured, TenorSum, Weighing, curve};
use std::alloc::{AllocError, Global};

/// The curvature of the names of a bucket.
#[derive(Clone, Copy)]
pub struct PricedCurvature<'a> {
    /// The bucket.
    pub listed: ListedPriced,
    /// What the nets to the volatilities of each name come to, by how near their tenors are; in
    /// the order of the names.
    pub names: &'a [TenorSum<&'a FullName>],
}

impl<'a> Measured for PricedCurvature<'a> {
    type Net = TenorSum<&'a FullName>;

    type Rho = EvenRho;

    ghost ready = { λ x.
        AreTotals name_cmp scale.Curved (λ _. x.listed.bucket.sigma.0) (name_sums x.names.now) };

    ghost Of = { List ℕ };

    ghost of = { λ net. net.of.now };

    ghost same = { same_name };

    ghost rho = { λ x. name_rho (priced_bucket_view x.listed.bucket) };

    ghost weighted = { λ x.
        map (curved_name (priced_bucket_view x.listed.bucket)) (name_sums x.names.now) };

    ghost unweighed = { λ x. let b = priced_bucket_view x.listed.bucket in
        map (uncurved_name b) (name_sums x.names.now) };

    ghost weigh = { λ weight amount _. risk_of weight amount };

    ghost cr = { λ _. one };

    ghost near = { λ x.
        IsNear 219000000 1 1 (λ _. x.listed.bucket.sigma.0) (name_sums x.names.now) };

    ghost scaling = { ways.Squared };

    fn scaling(&self) -> Scaling {
        Scaling::Squared
    }

    fn nets(&self) -> &[TenorSum<&'a FullName>] {
        self.names
    }

    fn weighings(&self, alloc: Global) -> Result<Vec<Weighing>, AllocError> {
        name_weighings(alloc, volatility_in(&self.listed), self.names)
    }

    fn column(&self, alloc: Global) -> Result<Column<EvenRho>, AllocError> {
        let factors = curve_names(alloc, volatility_in(&self.listed), self.names)?;
        let rho = self.listed.correlated(factors.len());
        Ok(Column {
            factors,
            rho,
            cr: Corr6::ONE,
        })
    }
}

// The volatility at which a bucket's names count: none where the bucket has no curvature.
fn volatility_in(listed: &ListedPriced) -> Rate4
    ensures value { result.0 ≡ curved_at (priced_bucket_view listed.now.bucket) }
    ensures range { IsWithin sigmas result.0 }
{
    if listed.bucket.terms.curvature {
        listed.bucket.sigma
    } else {
        Rate4(0)
    }
}

// The curvature risk of each name.
fn curve_names(
    alloc: Global,
    sigma: Rate4,
    names: &[TenorSum<&FullName>],
) -> Result<Vec<Weighed>, AllocError>
    requires sigma { IsWithin sigmas sigma.0 }
    requires small { All (λ name. unsigned_abs name.sum ≤ 219 * 10 ^ 22) names.now }
    ensures { IfOk result (λ risks.
        risks.items ≡ map (λ name. curved_by sigma.0 name.sum) names.now) }
{
    let mut risks = Vec::with_capacity(alloc, names.len())?;
    for name in names {
        risks.push(curve(sigma, name.sum))?;
    }
    Ok(risks)
}

// What each sum is weighed from.
fn name_weighings(
    alloc: Global,
    sigma: Rate4,
    names: &[TenorSum<&FullName>],
) -> Result<Vec<Weighing>, AllocError>
    ensures { IfOk result (λ weighings.
        weighings.items ≡ map (λ name. without_group sigma.0 name.sum) names.now) }
{
    let mut weighings = Vec::with_capacity(alloc, names.len())?;
    for name in names {
        weighings.push(Weighing::ungrouped(sigma, name.sum))?;
    }
    Ok(weighings)
}
