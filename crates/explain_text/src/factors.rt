//! The lines of the factors of a bucket in a measure, by what stands in the bucket. Each class
//! reads its own factors among those that the book lends, and weighs them by the very measure that
//! the bucket's value is made of.
ghost use Rattle.std.specs.Prelude.{◌≡◌, ◌++◌, OnOk};
ghost use Rattle.class_margin.specs.value.Delta.{IsDeltaReady};
ghost use Rattle.class_margin.specs.value.Volatile.{IsVolatileReady};
ghost use Rattle.explain_text.specs.Factors.{curvature_lines, delta_lines, vega_lines};

mod base;
mod credit;
mod exchange;
mod priced;
mod rates;

pub(crate) use base::push_base;
use bucket_cache::factor_book::{PlaceFactors, Slot};
use measured_bucket::mh_units::Text;
use measured_bucket::simm_kinds::ProductClass;
use measured_bucket::simm_params::Params;
use std::alloc::{AllocError, Global};

/// Adds those of delta, of a bucket that can be measured.
pub(crate) fn push_delta(
    text: &mut Text,
    alloc: Global,
    params: &Params,
    product: ProductClass,
    slot: &Slot,
    lent: &PlaceFactors,
) -> Result<(), AllocError>
    requires { IsDeltaReady params.now slot.now lent.now.factors }
    ensures { OnOk result
        (text.new ≡ text.old ++ delta_lines params.now product lent.now.factors slot.now) }
{
    match *slot {
        Slot::Rates(currency) => {
            rates::push_delta(text, alloc, params, product, &currency, lent)
        }
        Slot::Credit(class, bucket) => {
            credit::push_delta(text, alloc, params, product, class, &bucket, lent)
        }
        Slot::Priced(class, bucket) => {
            priced::push_delta(text, alloc, params, product, class, &bucket, lent)
        }
        Slot::Exchange => exchange::push_delta(text, alloc, params, product, lent),
    }
}

/// Adds those of vega.
pub(crate) fn push_vega(
    text: &mut Text,
    alloc: Global,
    params: &Params,
    product: ProductClass,
    slot: &Slot,
    lent: &PlaceFactors,
) -> Result<(), AllocError>
    requires { IsVolatileReady params.now slot.now lent.now.factors }
    ensures { OnOk result
        (text.new ≡ text.old ++ vega_lines params.now product lent.now.factors slot.now) }
{
    match *slot {
        Slot::Rates(currency) => { rates::push_vega(text, alloc, params, product, &currency, lent) }
        Slot::Credit(class, bucket) => {
            credit::push_vega(text, alloc, params, product, class, &bucket, lent)
        }
        Slot::Priced(class, bucket) => {
            priced::push_vega(text, alloc, params, product, class, &bucket, lent)
        }
        Slot::Exchange => exchange::push_vega(text, alloc, params, product, lent),
    }
}

/// Adds those of curvature.
pub(crate) fn push_curvature(
    text: &mut Text,
    alloc: Global,
    params: &Params,
    product: ProductClass,
    slot: &Slot,
    lent: &PlaceFactors,
) -> Result<(), AllocError>
    requires { IsVolatileReady params.now slot.now lent.now.factors }
    ensures { OnOk result (text.new ≡ text.old
        ++ curvature_lines params.now product lent.now.factors slot.now) }
{
    match *slot {
        Slot::Rates(currency) => {
            rates::push_curvature(text, alloc, params, product, &currency, lent)
        }
        Slot::Credit(class, bucket) => {
            credit::push_curvature(text, alloc, params, product, class, &bucket, lent)
        }
        Slot::Priced(class, bucket) => {
            priced::push_curvature(text, alloc, params, product, class, &bucket, lent)
        }
        Slot::Exchange => exchange::push_curvature(text, alloc, params, product, lent),
    }
}
