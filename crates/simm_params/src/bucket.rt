ghost use Rattle.std.specs.Prelude.{◌≡◌, ◌<◌};
ghost use Rattle.simm_params.specs.Buckets.{IsBucket, bucket_slot, precedes};

use crate::thresholds::Thresholds;
use simm_rules::mh_units::Rate4;
use simm_rules::simm_kinds::Bucket;

/// How many buckets a class has at most: 64 numbered ones and the residual one.
pub const MOST_BUCKETS: usize = 65;

/// What the parameters say of a bucket in each class that has buckets.
#[derive(Clone, Copy)]
pub struct BucketTerms {
    /// Which bucket of its class it is.
    pub id: Bucket,
    /// The risk weight.
    pub weight: Rate4,
    /// The concentration thresholds of a name.
    pub thresholds: Thresholds,
    /// The correlation of two names.
    pub rho: Rate4,
    /// The vega risk weight.
    pub vrw: Rate4,
    /// Whether volatilities have curvature.
    pub curvature: bool,
}

/// A bucket of any class, with the rate that only classes of its kind have: in credit the
/// correlation of the factors of one name, in equity and commodities the volatility.
#[derive(Clone, Copy)]
pub struct ClassBucket {
    /// What buckets of each class have.
    pub terms: BucketTerms,
    /// The rate of its kind of class.
    pub own: Rate4,
}

/// The place of a bucket among all that a class may have, counted from 0: the numbered ones by
/// number, and then the residual one.
pub fn bucket_slot(id: Bucket) -> usize
    ensures value { result ≡ bucket_slot id }
    ensures bucket { IsBucket id }
    ensures bound { result < 65 }
{
    match id {
        Bucket::Number(number) => usize::from(number.get() - 1),
        Bucket::Residual => MOST_BUCKETS - 1,
    }
}

/// Whether one bucket comes before another in the order of buckets.
pub fn precedes(id: Bucket, other: Bucket) -> bool
    ensures { result ≡ precedes id other }
{
    bucket_slot(id) < bucket_slot(other)
}
