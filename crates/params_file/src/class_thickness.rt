ghost use Rattle.std.specs.Prelude.{◌≡◌, map, OnOk};
ghost use Rattle.params_file.specs.Faults.{Gives};
ghost use Rattle.simm_params.specs.BucketView.{terms_view};
ghost use Rattle.simm_params.specs.ClassView.{credit_view, priced_view};
ghost use Rattle.simm_params.specs.TablesView.{classes_view};
ghost use Rattle.simm_params.specs.Thickness.{AreThickBuckets, credit_terms, priced_terms};
ghost use Rattle.params_file.specs.Thickness.{each_passes, thick_bucket, thick_buckets};
ghost use Rattle.params_file.specs.Thickness.{thick_class, thick_classes, AreThickClasses};

use crate::bucket_class::BucketClass;
use crate::fault::ParamFault;
use crate::thickness::check_kind;
use simm_params::toml_values::Part;
use simm_params::{Buckets, ClassBucket, ClassTables, CreditParams, PricedParams, ThresholdKind};
use std::alloc::Global;

/// Refuses a threshold of the bucket at a place, counted from 1, of a class.
#[tactic(auto, unfolding(crate::specs::Thickness::thick_bucket))]
fn check_bucket(
    alloc: Global,
    class: &str,
    kind: ThresholdKind,
    number: usize,
    bucket: &ClassBucket,
) -> Result<(), ParamFault>
    ensures { Gives (λ u. u) result
        (thick_bucket class.now kind number (terms_view bucket.now.terms)) }
{
    let path = [Part::Key(class), Part::Key("bucket"), Part::Place(number)];
    let terms = &bucket.terms;
    check_kind(alloc, &path, kind, terms.weight, terms.thresholds)
}

fn check_each(
    alloc: Global,
    class: &str,
    kind: ThresholdKind,
    buckets: &[ClassBucket],
) -> Result<(), ParamFault>
    ensures { Gives (λ u. u) result
        (each_passes (thick_bucket class.now kind) 1 (map (λ b. terms_view b.terms) buckets.now)) }
{
    for (index, bucket) in buckets.iter().enumerate() {
        check_bucket(alloc, class, kind, index + 1, bucket)?;
    }
    Ok(())
}

/// Refuses a threshold of a class that is too thin beside its bucket's weight, bucket by bucket.
#[tactic(auto, unfolding(crate::specs::Thickness::thick_buckets))]
pub fn check_buckets(
    alloc: Global,
    class: &str,
    kind: ThresholdKind,
    buckets: &Buckets,
) -> Result<(), ParamFault>
    ensures value { Gives (λ u. u) result
        (thick_buckets class.now kind (map (λ b. b.terms) buckets.now)) }
    ensures thick { OnOk result (AreThickBuckets kind (map (λ b. b.terms) buckets.now)) }
{
    check_each(alloc, class, kind, buckets.as_slice())
}

/// Refuses a threshold of a class of credit.
#[tactic(auto, unfolding(crate::specs::Thickness::thick_class))]
fn check_credit(
    alloc: Global,
    which: BucketClass,
    kind: ThresholdKind,
    class: &CreditParams,
) -> Result<(), ParamFault>
    ensures value { Gives (λ u. u) result
        (thick_class which kind (credit_terms (credit_view class.now))) }
    ensures thick { OnOk result (AreThickBuckets kind (credit_terms (credit_view class.now))) }
{
    check_buckets(alloc, which.key(), kind, &class.buckets)
}

/// Refuses a threshold of equity or of commodities.
#[tactic(auto, unfolding(crate::specs::Thickness::thick_class))]
fn check_priced(
    alloc: Global,
    which: BucketClass,
    kind: ThresholdKind,
    class: &PricedParams,
) -> Result<(), ParamFault>
    ensures value { Gives (λ u. u) result
        (thick_class which kind (priced_terms (priced_view class.now))) }
    ensures thick { OnOk result (AreThickBuckets kind (priced_terms (priced_view class.now))) }
{
    check_buckets(alloc, which.key(), kind, &class.buckets)
}

/// Refuses a threshold that is too thin of the classes that have buckets, class by class.
#[tactic(auto, unfolding(crate::specs::Thickness::thick_classes))]
pub fn check_classes(
    alloc: Global,
    kind: ThresholdKind,
    classes: &ClassTables,
) -> Result<(), ParamFault>
    ensures value { Gives (λ u. u) result (thick_classes kind (classes_view classes.now)) }
    ensures thick { OnOk result (AreThickClasses kind (classes_view classes.now)) }
{
    check_credit(alloc, BucketClass::CreditQ, kind, &classes.credit_q)?;
    check_credit(alloc, BucketClass::CreditNonQ, kind, &classes.credit_nq)?;
    check_priced(alloc, BucketClass::Equity, kind, &classes.equity)?;
    check_priced(alloc, BucketClass::Commodity, kind, &classes.commodity)
}
