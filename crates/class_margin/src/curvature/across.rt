ghost use Rattle.std.specs.Prelude.{◌≡◌, ◌*◌, ◌^◌, IfOk, pos, ◌≤ℤ◌};
ghost use Rattle.class_margin.specs.Parts.{currency_parts, listed_parts};
ghost use Rattle.class_margin.specs.curvature.Combine.{curvature_across, over_currencies};
ghost use Rattle.class_margin.specs.curvature.Combine.{over_listed, over_ratio};
ghost use Rattle.class_margin.specs.curvature.Combine.{AreCurrencyParts, AreListedParts, AreParts};

use crate::curvature::numbered_parts::over_numbered;
use crate::curvature::whole_parts::{over_currencies, over_single};
use crate::listed::{ClassBuckets, ListedClass};
use crate::parts::{currency_parts, listed_parts};
use class_rates::factor_book::Slot;
use class_rates::mh_units::Cents;
use class_rates::simm_params::Params;
use class_rates::simm_rules::BucketMargin;
use std::alloc::{AllocError, Global};

/// The curvature margin, in cents, over the values of the buckets of a class, in order: that of
/// all buckets but the residual one, and beside it that of the residual one; in interest rates
/// divided by the square of the historical volatility ratio. A bucket without sensitivities may be
/// left out. Want of memory is the only error.
pub fn combine(
    alloc: Global,
    params: &Params,
    buckets: ClassBuckets,
    parts: &[(Slot, BucketMargin)],
) -> Result<Cents, AllocError>
    requires { AreParts params.now buckets parts.now }
    ensures value { IfOk result (λ m. m.0 ≡ curvature_across params.now buckets parts.now) }
    ensures low { IfOk result (λ m. pos 0 ≤ℤ m.0) }
    ensures size { IfOk result (λ m. m.0 ≤ℤ pos (14 * 10 ^ 14)) }
{
    match buckets {
        ClassBuckets::Currencies => rates(alloc, params, parts),
        ClassBuckets::Listed(class) => listed(alloc, params, class, parts),
        ClassBuckets::Single => over_single(alloc, params, parts),
    }
}

// That of interest rates, whose buckets are currencies.
fn rates(
    alloc: Global,
    params: &Params,
    parts: &[(Slot, BucketMargin)],
) -> Result<Cents, AllocError>
    requires { AreCurrencyParts (currency_parts parts.now) }
    ensures value { IfOk result (λ m. m.0
        ≡ over_ratio (over_currencies params.now (currency_parts parts.now)) params.now.ir.hvr) }
    ensures low { IfOk result (λ m. pos 0 ≤ℤ m.0) }
    ensures size { IfOk result (λ m. m.0 ≤ℤ pos (14 * 10 ^ 14)) }
{
    let own = currency_parts(alloc, parts)?;
    over_currencies(alloc, params, own.as_slice())
}

// That of a class of which the file lists buckets.
fn listed(
    alloc: Global,
    params: &Params,
    class: ListedClass,
    parts: &[(Slot, BucketMargin)],
) -> Result<Cents, AllocError>
    requires { AreListedParts params.now class (listed_parts parts.now) }
    ensures value { IfOk result (λ m.
        m.0 ≡ over_listed params.now class (listed_parts parts.now)) }
    ensures low { IfOk result (λ m. pos 0 ≤ℤ m.0) }
    ensures size { IfOk result (λ m. m.0 ≤ℤ pos (14 * 10 ^ 14)) }
{
    let own = listed_parts(alloc, parts)?;
    over_numbered(alloc, params, class, own.as_slice())
}
