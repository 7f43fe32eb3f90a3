ghost use Rattle.std.specs.Prelude.{◌≡◌, IfSome, option_map};
ghost use Rattle.measured_bucket.specs.SimmRules.Lookups.{six};
ghost use Rattle.measured_bucket.specs.SimmRules.Priced.{priced_params};
ghost use Rattle.measured_bucket.specs.SimmParams.ListedBuckets.{priced_bucket_view};
ghost use Rattle.measured_bucket.specs.SimmParams.Ranges.{hvrs, IsWithin};
ghost use Rattle.measured_bucket.specs.SimmParams.Weighed.{IsWeighedPriced};
ghost use Rattle.measured_bucket.specs.Values.{AreTerms};
ghost use Rattle.class_priced.specs.Listed.{bucket_of};

use measured_bucket::EvenRho;
use measured_bucket::mh_units::Rate4;
use measured_bucket::simm_kinds::Bucket;
use measured_bucket::simm_params::{Params, PricedBucket};
use measured_bucket::simm_rules::PricedClass;

/// What the parameter file says of a bucket of equity or of commodities that it lists.
#[derive(Clone, Copy)]
pub struct ListedPriced {
    /// The bucket.
    pub bucket: PricedBucket,
    /// The historical volatility ratio of its class.
    pub hvr: Rate4,
    ghost weighed: { IsWeighedPriced (priced_bucket_view bucket) },
    ghost terms: { AreTerms (priced_bucket_view bucket).terms.weight
        (priced_bucket_view bucket).terms.thresholds.delta },
    ghost ratio: { IsWithin hvrs hvr.0 },
}

impl ListedPriced {
    /// The bucket of this id; `None` where the file doesn't list it.
    pub fn of(params: &Params, class: PricedClass, id: Bucket) -> Option<ListedPriced>
        ensures bucket { option_map (λ listed. priced_bucket_view listed.bucket) result
            ≡ bucket_of params.now class id }
        ensures hvr { IfSome result (λ listed.
            listed.hvr.0 ≡ (priced_params params.now class).hvr) }
    {
        params.facts();
        let bucket = params.priced_bucket(class, id)?;
        Some(ListedPriced {
            bucket,
            hvr: params.priced_hvr(class),
        })
    }

    /// The correlation of any two of so many different names.
    pub fn correlated(&self, count: usize) -> EvenRho
        ensures count { result.count ≡ count }
        ensures rho { result.rho.0 ≡ six (priced_bucket_view self.now.bucket).terms.rho }
    {
        EvenRho {
            count,
            rho: self.bucket.terms.rho.in_millionths(),
        }
    }
}
