//! The parts of the margin of a class: the values of its buckets in a measure, among those of all
//! its places.
ghost use Rattle.std.specs.Prelude.{◌≡◌, map, IfOk};
ghost use Rattle.std.specs.List.{AllByRecursion};
ghost use Rattle.negated_book.specs.Negated.{negated_value};
ghost use Rattle.class_margin.specs.Parts.{base_part, base_values, curvature_part, curvature_parts};
ghost use Rattle.class_margin.specs.Parts.{currency_of, currency_part, currency_parts};
ghost use Rattle.class_margin.specs.Parts.{delta_part, delta_parts, vega_part, vega_parts};
ghost use Rattle.class_margin.specs.Parts.{listed_of, listed_part, listed_parts};
ghost use Rattle.class_margin.specs.volatility.Curvature.{negated_buckets, CanBeNegated};

use class_rates::factor_book::{PlaceValue, Slot};
use class_rates::simm_kinds::{Bucket, Currency};
use class_rates::simm_rules::BucketMargin;
use std::alloc::{AllocError, Global};

/// The delta values, each with its slot. Want of memory is the only error.
pub fn delta_parts(
    alloc: Global,
    values: &[PlaceValue],
) -> Result<Vec<(Slot, BucketMargin)>, AllocError>
    ensures { IfOk result (λ parts. parts.items ≡ delta_parts values.now) }
{
    values.iter().filter_map(delta_part).collect(alloc)
}

fn delta_part(value: &PlaceValue) -> Option<(Slot, BucketMargin)>
    ensures { result ≡ delta_part value.now }
{
    match value {
        PlaceValue::Delta(slot, delta) => Some((*slot, *delta)),
        PlaceValue::BaseCorrelation(_) | PlaceValue::Volatility(..) => None,
    }
}

/// The vega values, each with its slot. Want of memory is the only error.
pub fn vega_parts(
    alloc: Global,
    values: &[PlaceValue],
) -> Result<Vec<(Slot, BucketMargin)>, AllocError>
    ensures { IfOk result (λ parts. parts.items ≡ vega_parts values.now) }
{
    values.iter().filter_map(vega_part).collect(alloc)
}

fn vega_part(value: &PlaceValue) -> Option<(Slot, BucketMargin)>
    ensures { result ≡ vega_part value.now }
{
    match value {
        PlaceValue::Volatility(slot, margins) => Some((*slot, margins.vega)),
        PlaceValue::Delta(..) | PlaceValue::BaseCorrelation(_) => None,
    }
}

/// The curvature values, each with its slot. Want of memory is the only error.
pub fn curvature_parts(
    alloc: Global,
    values: &[PlaceValue],
) -> Result<Vec<(Slot, BucketMargin)>, AllocError>
    ensures { IfOk result (λ parts. parts.items ≡ curvature_parts values.now) }
{
    values.iter().filter_map(curvature_part).collect(alloc)
}

fn curvature_part(value: &PlaceValue) -> Option<(Slot, BucketMargin)>
    ensures { result ≡ curvature_part value.now }
{
    match value {
        PlaceValue::Volatility(slot, margins) => Some((*slot, margins.curvature)),
        PlaceValue::Delta(..) | PlaceValue::BaseCorrelation(_) => None,
    }
}

/// The values of base correlation. Want of memory is the only error.
pub fn base_values(alloc: Global, values: &[PlaceValue]) -> Result<Vec<BucketMargin>, AllocError>
    ensures { IfOk result (λ bases. bases.items ≡ base_values values.now) }
{
    values.iter().filter_map(base_part).collect(alloc)
}

fn base_part(value: &PlaceValue) -> Option<BucketMargin>
    ensures { result ≡ base_part value.now }
{
    match value {
        PlaceValue::BaseCorrelation(base) => Some(*base),
        PlaceValue::Delta(..) | PlaceValue::Volatility(..) => None,
    }
}

/// The parts of currencies, each with its currency. Want of memory is the only error.
pub fn currency_parts(
    alloc: Global,
    parts: &[(Slot, BucketMargin)],
) -> Result<Vec<(Currency, BucketMargin)>, AllocError>
    ensures { IfOk result (λ own. own.items ≡ currency_parts parts.now) }
{
    parts.iter().filter_map(currency_part).collect(alloc)
}

fn currency_part(part: &(Slot, BucketMargin)) -> Option<(Currency, BucketMargin)>
    ensures { result ≡ currency_part part.now }
{
    Some((currency_of(&part.0)?, part.1))
}

fn currency_of(slot: &Slot) -> Option<Currency>
    ensures { result ≡ currency_of slot.now }
{
    match slot {
        Slot::Rates(currency) => Some(*currency),
        Slot::Credit(..) | Slot::Priced(..) | Slot::Exchange => None,
    }
}

/// The parts of buckets that files list, each with its bucket. Want of memory is the only error.
pub fn listed_parts(
    alloc: Global,
    parts: &[(Slot, BucketMargin)],
) -> Result<Vec<(Bucket, BucketMargin)>, AllocError>
    ensures { IfOk result (λ own. own.items ≡ listed_parts parts.now) }
{
    parts.iter().filter_map(listed_part).collect(alloc)
}

fn listed_part(part: &(Slot, BucketMargin)) -> Option<(Bucket, BucketMargin)>
    ensures { result ≡ listed_part part.now }
{
    Some((listed_of(&part.0)?, part.1))
}

fn listed_of(slot: &Slot) -> Option<Bucket>
    ensures { result ≡ listed_of slot.now }
{
    match slot {
        Slot::Credit(_, bucket) | Slot::Priced(_, bucket) => Some(*bucket),
        Slot::Rates(_) | Slot::Exchange => None,
    }
}

/// The values of parts, side by side. Want of memory is the only error.
pub fn values_of<A>(
    alloc: Global,
    parts: &[(A, BucketMargin)],
) -> Result<Vec<BucketMargin>, AllocError>
    ensures { IfOk result (λ values. values.items ≡ map (λ b. b.1) parts.now) }
{
    parts.iter().map(|part| part.1).collect(alloc)
}

/// The curvature values of the book with all sensitivities negated, by those of the book itself.
/// Want of memory is the only error.
pub fn negated_parts(
    alloc: Global,
    parts: &[(Slot, BucketMargin)],
) -> Result<Vec<(Slot, BucketMargin)>, AllocError>
    requires { AllByRecursion (λ part. CanBeNegated part.1) parts.now }
    ensures { IfOk result (λ all. all.items ≡ negated_buckets parts.now) }
{
    let mut all = Vec::with_capacity(alloc, parts.len())?;
    for part in parts {
        all.push((part.0, negated_margin(part.1)))?;
    }
    Ok(all)
}

// The same q, k, gross and cr, and the negated sums.
fn negated_margin(value: BucketMargin) -> BucketMargin
    requires { CanBeNegated value }
    ensures { result ≡ negated_value value }
{
    BucketMargin {
        s: -value.s,
        sum: -value.sum,
        ..value
    }
}
