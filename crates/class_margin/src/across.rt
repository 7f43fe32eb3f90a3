//! The delta and the vega margin of a class over the values of its buckets.
//! (ISDA SIMM methodology, delta margin, vega margin: aggregation across buckets.)
ghost use Rattle.std.specs.Prelude.{◌≡◌, ◌*◌, ◌^◌, IfOk, pos, ◌≤ℤ◌};
ghost use Rattle.class_margin.specs.Across.{margin_across, AreListedParts, AreParts, IsMargin};
ghost use Rattle.class_margin.specs.Parts.{currency_parts, listed_parts, single_k};
ghost use Rattle.class_margin.specs.names_delta.Combine.{named_margin};
ghost use Rattle.class_margin.specs.rates_delta.Parts.{AreParts as AreCurrencyParts, margin_over};

use crate::listed::{ClassBuckets, ListedClass};
use crate::parts::{currency_parts, listed_parts};
use class_rates::factor_book::Slot;
use class_rates::mh_units::Cents;
use class_rates::simm_params::Params;
use class_rates::simm_rules::BucketMargin;
use std::alloc::{AllocError, Global};

/// The delta or the vega margin, in cents, over the values of the buckets of a class, in order; a
/// bucket without sensitivities may be left out. Want of memory is the only error.
pub fn combine(
    alloc: Global,
    params: &Params,
    buckets: ClassBuckets,
    parts: &[(Slot, BucketMargin)],
) -> Result<Cents, AllocError>
    requires { AreParts params.now buckets parts.now }
    ensures value { IfOk result (λ m. m.0 ≡ margin_across params.now buckets parts.now) }
    ensures low { IfOk result (λ m. pos 0 ≤ℤ m.0) }
    ensures size { IfOk result (λ m. m.0 ≤ℤ pos (84 * 10 ^ 14)) }
{
    match buckets {
        ClassBuckets::Currencies => over_currencies(alloc, params, parts),
        ClassBuckets::Listed(class) => over_listed(alloc, params, class, parts),
        ClassBuckets::Single => Ok(over_single(parts)),
    }
}

// That of interest rates, whose buckets are currencies.
fn over_currencies(
    alloc: Global,
    params: &Params,
    parts: &[(Slot, BucketMargin)],
) -> Result<Cents, AllocError>
    requires { AreCurrencyParts (currency_parts parts.now) }
    ensures value { IfOk result (λ m.
        m.0 ≡ margin_over params.now (currency_parts parts.now)) }
    ensures low { IfOk result (λ m. pos 0 ≤ℤ m.0) }
    ensures size { IfOk result (λ m. m.0 ≤ℤ pos (84 * 10 ^ 14)) }
{
    let own = currency_parts(alloc, parts)?;
    crate::rates_delta::combine(alloc, params, own.as_slice())
}

// That of a class of which the file lists buckets.
fn over_listed(
    alloc: Global,
    params: &Params,
    class: ListedClass,
    parts: &[(Slot, BucketMargin)],
) -> Result<Cents, AllocError>
    requires { AreListedParts params.now class parts.now }
    ensures value { IfOk result (λ m.
        m.0 ≡ named_margin params.now class (listed_parts parts.now)) }
    ensures low { IfOk result (λ m. pos 0 ≤ℤ m.0) }
    ensures size { IfOk result (λ m. m.0 ≤ℤ pos (84 * 10 ^ 14)) }
{
    let own = listed_parts(alloc, parts)?;
    crate::names_delta::combine(alloc, params, class, own.as_slice())
}

// That of foreign exchange, whose one bucket is its own root.
fn over_single(parts: &[(Slot, BucketMargin)]) -> Cents
    requires { IsMargin (single_k parts.now) }
    ensures value { result.0 ≡ single_k parts.now }
    ensures low { pos 0 ≤ℤ result.0 }
    ensures size { result.0 ≤ℤ pos (84 * 10 ^ 14) }
{
    Cents(single_margin(parts))
}

fn single_margin(parts: &[(Slot, BucketMargin)]) -> i128
    ensures { result ≡ single_k parts.now }
{
    parts.first().map_or(0, |part| part.1.k)
}
