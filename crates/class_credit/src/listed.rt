ghost use Rattle.std.specs.Prelude.{◌≡◌, ◌^◌, IfOk, map, option_map, sum_by, unsigned_abs};
ghost use Rattle.std.specs.List.Sorted.{IsStrictlySortedBy};
ghost use Rattle.measured_bucket.specs.SimmRules.Concentration.{one};
ghost use Rattle.measured_bucket.specs.SimmRules.Credit.{credit_rho, same_point, weighted_point};
ghost use Rattle.measured_bucket.specs.SimmRules.Lookups.{six};
ghost use Rattle.measured_bucket.specs.SimmParams.ListedBuckets.{credit_bucket_view};
ghost use Rattle.measured_bucket.specs.SimmParams.Weighed.{IsWeighedCredit};
ghost use Rattle.measured_bucket.specs.Measured.{AreCorrelated, IsNear};
ghost use Rattle.measured_bucket.specs.Values.{weighed_as, AreTerms};
ghost use Rattle.class_credit.specs.Groups.{issuer_rho, AreWeighable};
ghost use Rattle.class_credit.specs.Listed.{bucket_of};
ghost use Rattle.class_credit.specs.Points.{point_cmp, points_view};

use crate::groups::{group_points, weigh_points};
use crate::issuers::IssuerRho;
use crate::points::PointNet;
use measured_bucket::Column;
use measured_bucket::mh_units::{Corr6, Rate4};
use measured_bucket::simm_kinds::Bucket;
use measured_bucket::simm_params::{CreditBucket, Params};
use measured_bucket::simm_rules::CreditClass;
use measured_bucket::weighted_bucket::Grouped;
use std::alloc::{AllocError, Global};

/// What the parameter file says of a bucket of credit that it lists.
#[derive(Clone, Copy)]
pub struct ListedCredit {
    /// The bucket.
    pub bucket: CreditBucket,
    ghost weighed: { IsWeighedCredit (credit_bucket_view bucket) },
    ghost terms: { AreTerms (credit_bucket_view bucket).terms.weight
        (credit_bucket_view bucket).terms.thresholds.delta },
}

impl ListedCredit {
    /// The bucket of this id; `None` where the file doesn't list it.
    pub fn of(params: &Params, class: CreditClass, id: Bucket) -> Option<ListedCredit>
        ensures { option_map (λ listed. credit_bucket_view listed.bucket) result
            ≡ bucket_of params.now class id }
    {
        params.facts();
        let bucket = params.credit_bucket(class, id)?;
        Some(ListedCredit { bucket })
    }

    /// The correlations of points of these groups.
    pub fn correlated(&self, grouped: Vec<Grouped>) -> IssuerRho
        ensures grouped { result.grouped.items ≡ grouped.items }
        ensures same { result.same.0 ≡ six (credit_bucket_view self.now.bucket).same }
        ensures rho { result.rho.0 ≡ six (credit_bucket_view self.now.bucket).terms.rho }
    {
        IssuerRho {
            grouped,
            same: self.bucket.same.in_millionths(),
            rho: self.bucket.terms.rho.in_millionths(),
        }
    }

    /// These points, each weighed by the concentration of its issuer over the threshold, in cents.
    /// Want of memory is the only error.
    pub fn concentrated(
        &self,
        alloc: Global,
        weight: Rate4,
        threshold: i64,
        points: &[PointNet],
    ) -> Result<Column<IssuerRho>, AllocError>
        requires ascends { IsStrictlySortedBy point_cmp (map (λ a. a.of) (points_view points.now)) }
        requires weighable { AreWeighable weight.0 threshold (points_view points.now) }
        ensures made { let amounts = points_view points.now in
            IfOk result (λ column. column.factors.items
            ≡ map weighed_as (map (weighted_point weight.0 threshold amounts) amounts)) }
        ensures correlated { let amounts = points_view points.now in
            let rho = credit_rho (credit_bucket_view self.now.bucket) in IfOk result (λ column.
            AreCorrelated same_point rho (map (weighted_point weight.0 threshold amounts) amounts)
            (issuer_rho column.rho.same.0 column.rho.rho.0 column.rho.grouped.items)) }
        ensures cr { IfOk result (λ column. column.cr.0 ≡ one) }
        ensures near { IfOk result (λ column.
            IsNear (10 ^ 10) 346999999 1 (λ _. weight.0) (points_view points.now)
            (sum_by (λ factor. unsigned_abs factor.w) column.factors.items)) }
    {
        let grouped = group_points(alloc, threshold, points)?;
        let factors = weigh_points(alloc, weight, grouped.as_slice())?;
        Ok(Column {
            factors,
            rho: self.correlated(grouped),
            cr: Corr6::ONE,
        })
    }
}
