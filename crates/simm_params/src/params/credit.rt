//! The look-ups of credit.
ghost use Rattle.std.specs.Prelude.{◌≡◌, ◌<◌, ◌≤◌, length, slice_index_or, option_map};
ghost use Rattle.std.specs.Prelude.{IfSome, unsigned_abs};
ghost use Rattle.simm_rules.specs.declared.classes.CreditClass.{CreditClass as RuleClass};
ghost use Rattle.simm_rules.specs.Credit.{credit_params, listed_credit};
ghost use Rattle.simm_rules.specs.Lookups.{at_row};
ghost use Rattle.simm_params.specs.ListedBuckets.{credit_bucket_view};
ghost use Rattle.simm_params.specs.ListedBuckets.{credit_bucket_of, listed_place};
ghost use Rattle.simm_params.specs.Weighed.{IsWeighedCredit, AreWeighedCredit};

use super::Params;
use crate::classes::{CreditBucket, CreditParams};
use simm_rules::CreditClass;
use simm_rules::mh_units::Rate4;
use simm_rules::simm_kinds::Bucket;

impl Params {
    ghost use Rattle.simm_params.specs.ClassView.{credit_view};

    fn credit(&self, class: CreditClass) -> &CreditParams
        ensures value { credit_view result.now ≡ credit_params self.now class }
        ensures weighed { AreWeighedCredit (credit_view result.now) }
    {
        let classes = &self.tables.classes;
        match class {
            CreditClass::Qualifying => &classes.credit_q,
            CreditClass::NonQualifying => &classes.credit_nq,
        }
    }

    /// What follows at every bucket of credit. It does nothing.
    pub fn credit_facts(&self)
        ensures { (class : RuleClass) → AreWeighedCredit (credit_params self.now class) }
    {
        let _tables = &self.tables;
    }

    /// How many buckets the file lists for a class of credit.
    pub fn credit_count(&self, class: CreditClass) -> usize
        ensures { result ≡ length (credit_params self.now class).buckets }
    {
        self.credit(class).count()
    }

    /// The bucket at a place of the file's list, counted from 0.
    pub fn credit_bucket_at(&self, class: CreditClass, place: usize) -> CreditBucket
        requires { place < length (credit_params self.now class).buckets }
        ensures value { credit_bucket_view result
            ≡ slice_index_or (credit_params self.now class).buckets place
            (credit_bucket_view result) }
        ensures weighed { IsWeighedCredit (credit_bucket_view result) }
    {
        self.credit(class).bucket_at(place)
    }

    /// The bucket of an id, where the file lists it.
    pub fn credit_bucket(&self, class: CreditClass, id: Bucket) -> Option<CreditBucket>
        ensures value { option_map credit_bucket_view result
            ≡ credit_bucket_of (credit_params self.now class).buckets id }
        ensures weighed { IfSome result (λ b. IsWeighedCredit (credit_bucket_view b)) }
    {
        self.credit(class).bucket(id)
    }

    /// The place of a bucket in the file's list, counted from 0, where the file lists it.
    pub fn credit_place(&self, class: CreditClass, id: Bucket) -> Option<usize>
        ensures { result ≡ listed_place (listed_credit (credit_params self.now class)) id }
    {
        self.credit(class).place(id)
    }

    /// The correlation of the numbered buckets at two places of the file's list, in
    /// ten-thousandths.
    pub fn credit_gamma(&self, class: CreditClass, row: usize, column: usize) -> Rate4
        ensures value { result.0 ≡ at_row (credit_params self.now class).gamma row column }
        ensures size { unsigned_abs result.0 ≤ 10000 }
    {
        self.credit(class).gamma.rate(row, column)
    }
}
