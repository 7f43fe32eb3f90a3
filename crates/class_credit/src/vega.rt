//! The vega of a bucket of credit: the volatilities of its points, of which an issuer's are one
//! concentration group.
ghost use Rattle.std.specs.Prelude.{◌^◌, map, pos};
ghost use Rattle.measured_bucket.specs.SimmRules.Bucket.{weighted_value};
ghost use Rattle.measured_bucket.specs.SimmRules.Concentration.{one};
ghost use Rattle.measured_bucket.specs.SimmRules.Credit.{credit_rho, same_point, weighted_point};
ghost use Rattle.measured_bucket.specs.SimmRules.Risks.{CreditPoint};
ghost use Rattle.measured_bucket.specs.SimmParams.ListedBuckets.{credit_bucket_view};
ghost use Rattle.measured_bucket.specs.WeightedBucket.declared.scaling.Scaling.TheVariants as ways;
ghost use Rattle.measured_bucket.specs.Measured.{IsNear};
ghost use Rattle.measured_bucket.specs.Values.{alone};
ghost use Rattle.class_credit.specs.Points.{credit_view, points_view, ArePoints};
ghost use Rattle.class_credit.specs.Unweighed.{unweighed_point};

use crate::groups::point_weighings;
use crate::issuers::IssuerRho;
use crate::listed::ListedCredit;
use crate::points::PointNet;
use measured_bucket::weighted_bucket::Scaling;
use measured_bucket::{Column, Measured, Weighing};
use std::alloc::{AllocError, Global};

/// The vega of the volatilities of a bucket.
#[derive(Clone, Copy)]
pub struct CreditVega<'a> {
    /// The bucket.
    pub listed: ListedCredit,
    /// Its volatilities, in their order.
    pub points: &'a [PointNet<'a>],
}

impl<'a> Measured for CreditVega<'a> {
    type Net = PointNet<'a>;

    type Rho = IssuerRho;

    ghost ready = { λ x. ArePoints (pos 10000) (points_view x.points.now) };

    ghost Of = { CreditPoint };

    ghost of = { λ net. credit_view net.point };

    ghost same = { same_point };

    ghost rho = { λ x. credit_rho (credit_bucket_view x.listed.bucket) };

    ghost weighted = { λ x. let terms = x.listed.bucket.terms in
        let points = points_view x.points.now in
        map (weighted_point terms.vrw.0 terms.thresholds.vega points) points };

    ghost unweighed = { λ x. let terms = x.listed.bucket.terms in
        let points = points_view x.points.now in
        map (unweighed_point terms.vrw.0 terms.thresholds.vega points) points };

    ghost weigh = { weighted_value };

    ghost cr = { λ _. one };

    ghost near = { λ x. IsNear (10 ^ 10) 693999998 1 alone (points_view x.points.now) };

    ghost scaling = { ways.Concentrated };

    fn scaling(&self) -> Scaling {
        Scaling::Concentrated
    }

    fn nets(&self) -> &[PointNet<'a>] {
        self.points
    }

    fn weighings(&self, alloc: Global) -> Result<Vec<Weighing>, AllocError> {
        let terms = self.listed.bucket.terms;
        point_weighings(alloc, terms.vrw, terms.thresholds.vega, self.points)
    }

    fn column(&self, alloc: Global) -> Result<Column<IssuerRho>, AllocError> {
        let terms = self.listed.bucket.terms;
        self.listed
            .concentrated(alloc, terms.vrw, terms.thresholds.vega, self.points)
    }
}
