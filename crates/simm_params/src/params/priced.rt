//! The look-ups of equity and commodities.
ghost use Rattle.std.specs.Prelude.{◌≡◌, ◌<◌, ◌≤◌, length, slice_index_or, option_map};
ghost use Rattle.std.specs.Prelude.{IfSome, unsigned_abs};
ghost use Rattle.simm_rules.specs.declared.classes.PricedClass.{PricedClass as RuleClass};
ghost use Rattle.simm_rules.specs.Priced.{priced_params, listed_priced};
ghost use Rattle.simm_rules.specs.Lookups.{at_row};
ghost use Rattle.simm_params.specs.Ranges.{hvrs, IsWithin};
ghost use Rattle.simm_params.specs.ListedBuckets.{priced_bucket_view};
ghost use Rattle.simm_params.specs.ListedBuckets.{priced_bucket_of, listed_place};
ghost use Rattle.simm_params.specs.Weighed.{IsWeighedPriced, AreWeighedPriced};

use super::Params;
use crate::classes::{PricedBucket, PricedParams};
use simm_rules::PricedClass;
use simm_rules::mh_units::Rate4;
use simm_rules::simm_kinds::Bucket;

impl Params {
    ghost use Rattle.simm_params.specs.ClassView.{priced_view};

    fn priced(&self, class: PricedClass) -> &PricedParams
        ensures value { priced_view result.now ≡ priced_params self.now class }
        ensures weighed { AreWeighedPriced (priced_view result.now) }
    {
        let classes = &self.tables.classes;
        match class {
            PricedClass::Equities => &classes.equity,
            PricedClass::Commodities => &classes.commodity,
        }
    }

    /// What follows at every bucket of equity and commodities. It does nothing.
    pub fn priced_facts(&self)
        ensures { (class : RuleClass) → AreWeighedPriced (priced_params self.now class) }
    {
        let _tables = &self.tables;
    }

    /// How many buckets the file lists for equity or commodities.
    pub fn priced_count(&self, class: PricedClass) -> usize
        ensures { result ≡ length (priced_params self.now class).buckets }
    {
        self.priced(class).count()
    }

    /// The bucket at a place of the file's list, counted from 0.
    pub fn priced_bucket_at(&self, class: PricedClass, place: usize) -> PricedBucket
        requires { place < length (priced_params self.now class).buckets }
        ensures value { priced_bucket_view result
            ≡ slice_index_or (priced_params self.now class).buckets place
            (priced_bucket_view result) }
        ensures weighed { IsWeighedPriced (priced_bucket_view result) }
    {
        self.priced(class).bucket_at(place)
    }

    /// The bucket of an id, where the file lists it.
    pub fn priced_bucket(&self, class: PricedClass, id: Bucket) -> Option<PricedBucket>
        ensures value { option_map priced_bucket_view result
            ≡ priced_bucket_of (priced_params self.now class).buckets id }
        ensures weighed { IfSome result (λ b. IsWeighedPriced (priced_bucket_view b)) }
    {
        self.priced(class).bucket(id)
    }

    /// The place of a bucket in the file's list, counted from 0, where the file lists it.
    pub fn priced_place(&self, class: PricedClass, id: Bucket) -> Option<usize>
        ensures { result ≡ listed_place (listed_priced (priced_params self.now class)) id }
    {
        self.priced(class).place(id)
    }

    /// The correlation of the numbered buckets at two places of the file's list, in
    /// ten-thousandths.
    pub fn priced_gamma(&self, class: PricedClass, row: usize, column: usize) -> Rate4
        ensures value { result.0 ≡ at_row (priced_params self.now class).gamma row column }
        ensures size { unsigned_abs result.0 ≤ 10000 }
    {
        self.priced(class).gamma.rate(row, column)
    }

    /// The historical volatility ratio of equity or of commodities, in ten-thousandths.
    pub fn priced_hvr(&self, class: PricedClass) -> Rate4
        ensures value { result.0 ≡ (priced_params self.now class).hvr }
        ensures range { IsWithin hvrs result.0 }
    {
        self.priced(class).hvr
    }
}
