//! The margin over the currencies of a product class.
ghost use Rattle.std.specs.Prelude.{◌≡◌, sum_by, IfOk, pos, ◌≤ℤ◌, unsigned_abs};
ghost use Rattle.class_margin.specs.rates_delta.Parts.{AreParts, margin_over};

use crate::parts::values_of;
use crate::ratios::Ratios;
use crate::table::{Gamma, GammaTable, Scaling};
use class_rates::mh_units::Cents;
use class_rates::pair_sum::outer_root;
use class_rates::simm_kinds::Currency;
use class_rates::simm_params::Params;
use class_rates::simm_rules::BucketMargin;
use std::alloc::{AllocError, Global};

/// The delta or the vega margin of interest rates of a product class, in cents: the root over the
/// buckets of its currencies, of which each stands once, in order. No buckets come to 0. Want of
/// memory is the only error.
pub fn combine(
    alloc: Global,
    params: &Params,
    parts: &[(Currency, BucketMargin)],
) -> Result<Cents, AllocError>
    requires { AreParts parts.now }
    ensures value { IfOk result (λ m. m.0 ≡ margin_over params.now parts.now) }
    ensures not_negative { IfOk result (λ m. pos 0 ≤ℤ m.0) }
    ensures size { IfOk result (λ m. m.0 ≤ℤ pos (sum_by (λ b. unsigned_abs (b.1).k) parts.now)) }
{
    let gamma = params.rate_gamma().in_millionths();
    let values = values_of(alloc, parts)?;
    let buckets = values.as_slice();
    let correlation = GammaTable {
        gamma: Gamma::Even(buckets.len(), gamma),
        scaling: Scaling::Concentrated(Ratios { buckets }),
    };
    Ok(Cents(outer_root(buckets, &correlation)))
}
