//! The delta of a bucket of credit: its points, of which an issuer's are one concentration group.
ghost use Rattle.std.specs.Prelude.{◌^◌, map};
ghost use Rattle.measured_bucket.specs.SimmRules.Bucket.{weighted_value};
ghost use Rattle.measured_bucket.specs.SimmRules.Concentration.{one};
ghost use Rattle.measured_bucket.specs.SimmRules.Credit.{credit_rho, same_point, weighted_point};
ghost use Rattle.measured_bucket.specs.SimmRules.Risks.{CreditPoint};
ghost use Rattle.measured_bucket.specs.SimmParams.ListedBuckets.{credit_bucket_view};
ghost use Rattle.measured_bucket.specs.WeightedBucket.declared.scaling.Scaling.TheVariants as ways;
ghost use Rattle.measured_bucket.specs.Measured.{IsNear};
ghost use Rattle.class_credit.specs.Points.{credit_view, points_view, ArePoints};
ghost use Rattle.class_credit.specs.Unweighed.{unweighed_point};

use crate::groups::point_weighings;
use crate::issuers::IssuerRho;
use crate::listed::ListedCredit;
use crate::points::PointNet;
use measured_bucket::weighted_bucket::Scaling;
use measured_bucket::{Column, Measured, Weighing};
use std::alloc::{AllocError, Global};

/// The delta of the points of a bucket.
#[derive(Clone, Copy)]
pub struct CreditDelta<'a> {
    /// The bucket.
    pub listed: ListedCredit,
    /// Its points, in their order.
    pub points: &'a [PointNet<'a>],
}

impl<'a> Measured for CreditDelta<'a> {
    type Net = PointNet<'a>;

    type Rho = IssuerRho;

    ghost ready = { λ x. ArePoints x.listed.bucket.terms.weight.0 (points_view x.points.now) };

    ghost Of = { CreditPoint };

    ghost of = { λ net. credit_view net.point };

    ghost same = { same_point };

    ghost rho = { λ x. credit_rho (credit_bucket_view x.listed.bucket) };

    ghost weighted = { λ x. let terms = x.listed.bucket.terms in
        let points = points_view x.points.now in
        map (weighted_point terms.weight.0 terms.thresholds.delta points) points };

    ghost unweighed = { λ x. let terms = x.listed.bucket.terms in
        let points = points_view x.points.now in
        map (unweighed_point terms.weight.0 terms.thresholds.delta points) points };

    ghost weigh = { weighted_value };

    ghost cr = { λ _. one };

    ghost near = { λ x. IsNear (10 ^ 10) 346999999 1 (λ _. x.listed.bucket.terms.weight.0)
        (points_view x.points.now) };

    ghost scaling = { ways.Concentrated };

    fn scaling(&self) -> Scaling {
        Scaling::Concentrated
    }

    fn nets(&self) -> &[PointNet<'a>] {
        self.points
    }

    fn weighings(&self, alloc: Global) -> Result<Vec<Weighing>, AllocError> {
        let terms = self.listed.bucket.terms;
        point_weighings(alloc, terms.weight, terms.thresholds.delta, self.points)
    }

    fn column(&self, alloc: Global) -> Result<Column<IssuerRho>, AllocError> {
        let terms = self.listed.bucket.terms;
        self.listed
            .concentrated(alloc, terms.weight, terms.thresholds.delta, self.points)
    }
}
