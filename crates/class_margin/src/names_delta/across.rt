ghost use Rattle.std.specs.Prelude.{◌≡◌, ◌∷◌, [], ◌<◌, ◌*◌, ◌^◌, IfOk, sum_by, pos, ◌≤ℤ◌};
ghost use Rattle.std.specs.Prelude.{unsigned_abs};
ghost use Rattle.class_margin.specs.Parts.{as_parts};
ghost use Rattle.class_margin.specs.names_delta.Combine.{listed_in, named_margin, residual_k};
ghost use Rattle.class_margin.specs.names_delta.Combine.{AreListed, AreSized};

use crate::listed::{ListedClass, number_parts};
use crate::table::{Gamma, GammaTable, Scaling};
use class_rates::mh_units::Cents;
use class_rates::pair_sum::outer_root;
use class_rates::simm_kinds::Bucket;
use class_rates::simm_params::Params;
use class_rates::simm_rules::BucketMargin;
use std::alloc::{AllocError, Global};

/// The delta or the vega margin of a class of which the file lists buckets, over the values of its
/// buckets, in cents: the numbered buckets' under one root, and the residual one's beside it. The
/// parts are of different buckets that the file lists, in order; a bucket without sensitivities
/// may be left out. Want of memory is the only error.
pub fn combine(
    alloc: Global,
    params: &Params,
    class: ListedClass,
    parts: &[(Bucket, BucketMargin)],
) -> Result<Cents, AllocError>
    requires listed { AreListed (listed_in params.now class) parts.now }
    requires sized { AreSized parts.now }
    ensures value { IfOk result (λ m. m.0 ≡ named_margin params.now class parts.now) }
    ensures low { IfOk result (λ m. pos 0 ≤ℤ m.0) }
    ensures size { IfOk result (λ m.
        m.0 ≤ℤ pos (sum_by (λ part. unsigned_abs (part.1).k) parts.now)) }
{
    class.facts(params);
    let numbered = number_parts(alloc, params, class, parts)?;
    let gamma = GammaTable {
        gamma: Gamma::Listed(params, class, numbered.places),
        scaling: Scaling::Plain,
    };
    let outer = outer_root(numbered.margins.as_slice(), &gamma);
    Ok(Cents(outer + residual(parts)))
}

// The margin of the residual bucket, which diversifies with no other.
fn residual(parts: &[(Bucket, BucketMargin)]) -> i128
    requires { sum_by (λ part. unsigned_abs (part.1).k) parts.now < 84 * 10 ^ 14 }
    ensures { result ≡ residual_k (as_parts parts.now) }
{
    let mut total = 0;
    for part in parts {
        total += residual_margin(part);
    }
    total
}

fn residual_margin(part: &(Bucket, BucketMargin)) -> i128
    ensures { result ≡ residual_k (as_parts (part.now ∷ [])) }
{
    if let Bucket::Residual = part.0 {
        part.1.k
    } else {
        0
    }
}
