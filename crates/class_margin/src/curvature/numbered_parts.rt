//! The classes of which the file lists buckets: one part over the numbered buckets, and one of the
//! residual bucket.
ghost use Rattle.std.specs.Prelude.{◌≡◌, ◌+◌, ◌*◌, IfOk, pos, ◌≤ℤ◌};
ghost use Rattle.class_rates.specs.SimmRules.Across.{is_residual, residual as residual_of};
ghost use Rattle.class_margin.specs.Parts.{as_parts};
ghost use Rattle.class_margin.specs.names_delta.Combine.{margins_of};
ghost use Rattle.class_margin.specs.curvature.Numbered.{numbered_part, residual_part};
ghost use Rattle.class_margin.specs.curvature.Numbered.{numbered_bound, residual_bound};
ghost use Rattle.class_margin.specs.curvature.Combine.{margins_size, gross_size, over_listed};
ghost use Rattle.class_margin.specs.curvature.Combine.{AreListedParts, AreSized};

use crate::curvature::part::{margin_over, part_over};
use crate::listed::{ListedClass, number_parts};
use crate::table::{Gamma, GammaTable, Scaling};
use class_rates::mh_units::Cents;
use class_rates::pair_sum::outer_root;
use class_rates::simm_kinds::Bucket;
use class_rates::simm_params::Params;
use class_rates::simm_rules::BucketMargin;
use std::alloc::{AllocError, Global};

/// The margin of such a class, in cents, over the values of its buckets. Want of memory is the
/// only error.
pub fn over_numbered(
    alloc: Global,
    params: &Params,
    class: ListedClass,
    parts: &[(Bucket, BucketMargin)],
) -> Result<Cents, AllocError>
    requires { AreListedParts params.now class parts.now }
    ensures value { IfOk result (λ m. m.0 ≡ over_listed params.now class parts.now) }
    ensures low { IfOk result (λ m. pos 0 ≤ℤ m.0) }
    ensures size { IfOk result (λ m.
        m.0 ≤ℤ pos (25 * (gross_size parts.now + 10 * margins_size parts.now))) }
{
    let numbered = numbered_part(alloc, params, class, parts)?;
    let residual = residual_part(alloc, params, parts)?;
    Ok(Cents(numbered + residual))
}

// The part of the numbered buckets.
fn numbered_part(
    alloc: Global,
    params: &Params,
    class: ListedClass,
    parts: &[(Bucket, BucketMargin)],
) -> Result<i128, AllocError>
    requires { AreListedParts params.now class parts.now }
    ensures value { IfOk result (λ m. m ≡ numbered_part params.now class parts.now) }
    ensures low { IfOk result (λ m. pos 0 ≤ℤ m) }
    ensures size { IfOk result (λ m. m ≤ℤ pos (numbered_bound parts.now)) }
{
    class.facts(params);
    let numbered = number_parts(alloc, params, class, parts)?;
    let gamma = GammaTable {
        gamma: Gamma::Listed(params, class, numbered.places),
        scaling: Scaling::Squared,
    };
    let root = outer_root(numbered.margins.as_slice(), &gamma);
    Ok(part_over(params.lambda_base(), numbered.margins.as_slice(), root))
}

// The part of the residual bucket, whose margin is its own root.
fn residual_part(
    alloc: Global,
    params: &Params,
    parts: &[(Bucket, BucketMargin)],
) -> Result<i128, AllocError>
    requires { AreSized parts.now }
    ensures value { IfOk result (λ m. m ≡ residual_part params.now parts.now) }
    ensures low { IfOk result (λ m. pos 0 ≤ℤ m) }
    ensures size { IfOk result (λ m. m ≤ℤ pos (residual_bound parts.now)) }
{
    let values = residual_values(alloc, parts)?;
    let root = margin_over(values.as_slice());
    Ok(part_over(params.lambda_base(), values.as_slice(), root))
}

// The value of the residual bucket, where it is there.
fn residual_values(
    alloc: Global,
    parts: &[(Bucket, BucketMargin)],
) -> Result<Vec<BucketMargin>, AllocError>
    ensures { IfOk result (λ values. values.items ≡ margins_of (residual_of (as_parts parts.now))) }
{
    let mut values = Vec::new(alloc);
    for part in parts {
        if is_residual(part.0) {
            values.push(part.1)?;
        }
    }
    Ok(values)
}

fn is_residual(bucket: Bucket) -> bool
    ensures { result ≡ is_residual bucket }
{
    matches!(bucket, Bucket::Residual)
}
