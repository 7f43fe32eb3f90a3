ghost use Rattle.std.specs.Prelude.{◌≡◌, ◌<◌, length, slice_index_or, option_map};
ghost use Rattle.simm_params.specs.BucketView.{bucket_view};
ghost use Rattle.simm_params.specs.Classes.{credit_bucket, priced_bucket};
ghost use Rattle.simm_params.specs.ListedBuckets.{credit_bucket_view, priced_bucket_view};

use crate::bucket::{BucketTerms, ClassBucket};
use crate::buckets::Buckets;
use crate::matrix::Matrix;
use simm_rules::mh_units::Rate4;
use simm_rules::simm_kinds::Bucket;

/// The parameters of a class of credit.
#[derive(Drop)]
pub struct CreditParams {
    /// The buckets, each with the correlation of the factors of one name.
    pub buckets: Buckets,
    /// Correlations of two numbered buckets.
    pub gamma: Matrix,
}

/// The parameters of equity or of commodities.
#[derive(Drop)]
pub struct PricedParams {
    /// The buckets, each with its volatility.
    pub buckets: Buckets,
    /// The historical volatility ratio.
    pub hvr: Rate4,
    /// Correlations of two numbered buckets.
    pub gamma: Matrix,
}

/// The parameters of base correlations.
#[derive(Clone, Copy)]
pub struct BaseParams {
    /// The risk weight.
    pub weight: Rate4,
    /// The correlation of two indices.
    pub rho: Rate4,
}

/// What the parameters say of a bucket of credit.
#[derive(Clone, Copy)]
pub struct CreditBucket {
    /// What buckets of each class have.
    pub terms: BucketTerms,
    /// The correlation of two factors of one name.
    pub same: Rate4,
}

/// What the parameters say of a bucket of equity or of commodities.
#[derive(Clone, Copy)]
pub struct PricedBucket {
    /// What buckets of each class have.
    pub terms: BucketTerms,
    /// The volatility.
    pub sigma: Rate4,
}

fn credit_bucket(bucket: &ClassBucket) -> CreditBucket
    ensures { credit_bucket_view result ≡ credit_bucket (bucket_view bucket.now) }
{
    CreditBucket {
        terms: bucket.terms,
        same: bucket.own,
    }
}

fn priced_bucket(bucket: &ClassBucket) -> PricedBucket
    ensures { priced_bucket_view result ≡ priced_bucket (bucket_view bucket.now) }
{
    PricedBucket {
        terms: bucket.terms,
        sigma: bucket.own,
    }
}

impl CreditParams {
    ghost use Rattle.simm_rules.specs.Credit.{listed_credit};
    ghost use Rattle.simm_rules.specs.Admits.{lists};
    ghost use Rattle.simm_params.specs.ClassView.{credit_view};
    ghost use Rattle.simm_params.specs.ListedBuckets.{credit_bucket_of, listed_place};

    /// How many buckets are listed.
    pub fn count(&self) -> usize
        ensures { result ≡ length (credit_view self.now).buckets }
    {
        self.buckets.count()
    }

    /// The bucket at a place of the list, counted from 0.
    pub fn bucket_at(&self, place: usize) -> CreditBucket
        requires { place < length (credit_view self.now).buckets }
        ensures { credit_bucket_view result
            ≡ slice_index_or (credit_view self.now).buckets place (credit_bucket_view result) }
    {
        credit_bucket(self.buckets.at(place))
    }

    /// Whether a bucket is listed.
    pub fn lists(&self, id: Bucket) -> bool
        ensures { result ≡ lists (listed_credit (credit_view self.now)) id }
    {
        self.buckets.lists(id)
    }

    /// The bucket of an id, where it is listed.
    pub fn bucket(&self, id: Bucket) -> Option<CreditBucket>
        ensures { option_map credit_bucket_view result
            ≡ credit_bucket_of (credit_view self.now).buckets id }
    {
        let bucket = self.buckets.get(id)?;
        Some(credit_bucket(bucket))
    }

    /// The place of a bucket in the list, counted from 0, where it is listed.
    pub fn place(&self, id: Bucket) -> Option<usize>
        ensures { result ≡ listed_place (listed_credit (credit_view self.now)) id }
    {
        self.buckets.place(id)
    }
}

impl PricedParams {
    ghost use Rattle.simm_rules.specs.Priced.{listed_priced};
    ghost use Rattle.simm_rules.specs.Admits.{lists};
    ghost use Rattle.simm_params.specs.ClassView.{priced_view};
    ghost use Rattle.simm_params.specs.ListedBuckets.{priced_bucket_of, listed_place};

    /// How many buckets are listed.
    pub fn count(&self) -> usize
        ensures { result ≡ length (priced_view self.now).buckets }
    {
        self.buckets.count()
    }

    /// The bucket at a place of the list, counted from 0.
    pub fn bucket_at(&self, place: usize) -> PricedBucket
        requires { place < length (priced_view self.now).buckets }
        ensures { priced_bucket_view result
            ≡ slice_index_or (priced_view self.now).buckets place (priced_bucket_view result) }
    {
        priced_bucket(self.buckets.at(place))
    }

    /// Whether a bucket is listed.
    pub fn lists(&self, id: Bucket) -> bool
        ensures { result ≡ lists (listed_priced (priced_view self.now)) id }
    {
        self.buckets.lists(id)
    }

    /// The bucket of an id, where it is listed.
    pub fn bucket(&self, id: Bucket) -> Option<PricedBucket>
        ensures { option_map priced_bucket_view result
            ≡ priced_bucket_of (priced_view self.now).buckets id }
    {
        let bucket = self.buckets.get(id)?;
        Some(priced_bucket(bucket))
    }

    /// The place of a bucket in the list, counted from 0, where it is listed.
    pub fn place(&self, id: Bucket) -> Option<usize>
        ensures { result ≡ listed_place (listed_priced (priced_view self.now)) id }
    {
        self.buckets.place(id)
    }
}
