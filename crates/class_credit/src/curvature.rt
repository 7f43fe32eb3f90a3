//! The curvature of a bucket of credit: the volatilities of its points, without concentration.
ghost use Rattle.std.specs.Prelude.{◌≡◌, ◌*◌, ◌^◌, ◌≤◌, map, pos};
ghost use Rattle.std.specs.Prelude.{if◌then◌else◌, All, IfOk, unsigned_abs};
ghost use Rattle.measured_bucket.specs.SimmRules.Concentration.{one};
ghost use Rattle.measured_bucket.specs.SimmRules.Credit.{credit_rho, curved_point, same_point};
ghost use Rattle.measured_bucket.specs.SimmRules.Risks.{CreditPoint};
ghost use Rattle.measured_bucket.specs.SimmParams.ListedBuckets.{credit_bucket_view};
ghost use Rattle.measured_bucket.specs.SimmParams.Ranges.{sigmas, IsWithin};
ghost use Rattle.measured_bucket.specs.WeightedBucket.declared.scaling.Scaling.TheVariants as ways;
ghost use Rattle.measured_bucket.specs.Measured.{IsNear};
ghost use Rattle.measured_bucket.specs.Risk.{risk_of};
ghost use Rattle.measured_bucket.specs.Values.{alone};
ghost use Rattle.class_credit.specs.Points.{credit_view, curved_net, point_view, points_view};
ghost use Rattle.class_credit.specs.Points.{ArePoints};
ghost use Rattle.class_credit.specs.Unweighed.{scaled_net, uncurved_point, weighing_at};

use crate::groups::group_points;
use crate::issuers::IssuerRho;
use crate::listed::ListedCredit;
use crate::points::PointNet;
use measured_bucket::mh_units::{Corr6, Rate4};
use measured_bucket::simm_params::BucketTerms;
use measured_bucket::weighted_bucket::{Scaling, Weighed};
use measured_bucket::{Column, Measured, TenorScale, Weighing, curve};
use std::alloc::{AllocError, Global};

/// The curvature of the volatilities of a bucket.
#[derive(Clone, Copy)]
pub struct CreditCurvature<'a> {
    /// The bucket.
    pub listed: ListedCredit,
    /// Its volatilities, in their order.
    pub points: &'a [PointNet<'a>],
}

impl<'a> Measured for CreditCurvature<'a> {
    type Net = PointNet<'a>;

    type Rho = IssuerRho;

    ghost ready = { λ x. ArePoints (pos 10000) (points_view x.points.now) };

    ghost Of = { CreditPoint };

    ghost of = { λ net. credit_view net.point };

    ghost same = { same_point };

    ghost rho = { λ x. credit_rho (credit_bucket_view x.listed.bucket) };

    ghost weighted = { λ x.
        map (curved_point x.listed.bucket.terms.curvature) (points_view x.points.now) };

    ghost unweighed = { λ x. let terms = x.listed.bucket.terms in
        map (uncurved_point terms.curvature) (points_view x.points.now) };

    ghost weigh = { λ weight amount _. risk_of weight amount };

    ghost cr = { λ _. one };

    ghost near = { λ x. IsNear 20000 1 1 alone (points_view x.points.now) };

    ghost scaling = { ways.Squared };

    fn scaling(&self) -> Scaling {
        Scaling::Squared
    }

    fn nets(&self) -> &[PointNet<'a>] {
        self.points
    }

    fn weighings(&self, alloc: Global) -> Result<Vec<Weighing>, AllocError> {
        let sigma = volatility_in(&self.listed.bucket.terms);
        curvature_weighings(alloc, sigma, self.points)
    }

    fn column(&self, alloc: Global) -> Result<Column<IssuerRho>, AllocError> {
        let terms = self.listed.bucket.terms;
        let grouped = group_points(alloc, terms.thresholds.vega, self.points)?;
        let factors = curve_points(alloc, volatility_in(&terms), self.points)?;
        Ok(Column {
            factors,
            rho: self.listed.correlated(grouped),
            cr: Corr6::ONE,
        })
    }
}

// The volatility at which a bucket's factors count: 1, since their amounts are already volatility
// times vega; none where the bucket has no curvature.
fn volatility_in(terms: &BucketTerms) -> Rate4
    ensures value { result.0 ≡ (if terms.now.curvature then pos 10000 else pos 0) }
    ensures range { IsWithin sigmas result.0 }
{
    if terms.curvature {
        Rate4(10_000)
    } else {
        Rate4(0)
    }
}

// The curvature risk of each net, by its tenor.
fn curve_points(
    alloc: Global,
    sigma: Rate4,
    points: &[PointNet],
) -> Result<Vec<Weighed>, AllocError>
    requires sigma { IsWithin sigmas sigma.0 }
    requires small { All (λ point. unsigned_abs point.net ≤ 2 * 10 ^ 20) points.now }
    ensures { IfOk result (λ risks.
        risks.items ≡ map (λ point. curved_net sigma.0 (point_view point)) points.now) }
{
    let mut risks = Vec::with_capacity(alloc, points.len())?;
    for point in points {
        risks.push(curve_point(sigma, point))?;
    }
    Ok(risks)
}

fn curve_point(sigma: Rate4, point: &PointNet) -> Weighed
    requires sigma { IsWithin sigmas sigma.0 }
    requires small { unsigned_abs point.now.net ≤ 2 * 10 ^ 20 }
    ensures { result ≡ curved_net sigma.0 (point_view point.now) }
{
    curve(sigma, scaled_net(point))
}

// A net, times what its tenor counts.
fn scaled_net(point: &PointNet) -> i128
    requires { unsigned_abs point.now.net ≤ 2 * 10 ^ 20 }
    ensures value { result ≡ scaled_net (point_view point.now) }
    ensures size { unsigned_abs result ≤ 219 * 10 ^ 22 }
{
    let tenor = point.point.tenor.tenor();
    TenorScale::Curved.scaled(tenor, point.net)
}

// What each net is weighed from.
fn curvature_weighings(
    alloc: Global,
    sigma: Rate4,
    points: &[PointNet],
) -> Result<Vec<Weighing>, AllocError>
    requires { All (λ point. unsigned_abs point.net ≤ 2 * 10 ^ 20) points.now }
    ensures { IfOk result (λ weighings.
        weighings.items ≡ map (λ point. weighing_at sigma.0 (point_view point)) points.now) }
{
    let mut weighings = Vec::with_capacity(alloc, points.len())?;
    for point in points {
        weighings.push(Weighing::ungrouped(sigma, scaled_net(point)))?;
    }
    Ok(weighings)
}
