//! The lines of a place: its nets, and in each measure that it has its factors and its value.
ghost use Rattle.std.specs.Prelude.{◌≡◌, ◌++◌, OnOk};
ghost use Rattle.bucket_cache.specs.FactorBook.declared.place.Stand.TheVariants as stand;
ghost use Rattle.bucket_cache.specs.KeptBuckets.Kept.{cached_in};
ghost use Rattle.breakdown_text.specs.FaultText.Fields.{field};
ghost use Rattle.class_credit.specs.Base.{index_nets, AreIndices};
ghost use Rattle.class_margin.specs.value.Delta.{IsDeltaReady};
ghost use Rattle.class_margin.specs.value.Place.{IsMeasurable, IsReady};
ghost use Rattle.class_margin.specs.value.Volatile.{IsVolatileReady};
ghost use Rattle.explain_text.specs.Factors.{curvature_lines, delta_lines, index_lines, vega_lines};
ghost use Rattle.explain_text.specs.Lines.{bucket_word, sum_fields, root_fields};
ghost use Rattle.explain_text.specs.Lines.{value_fields, bucket_line};
ghost use Rattle.explain_text.specs.Sides.{measured_lines, place_lines, value_lines};
ghost use Rattle.measured_bucket.specs.SimmKinds.declared.kinds.Measure.TheVariants as measure;

use crate::factors::{push_base, push_curvature, push_delta, push_vega};
use crate::measure_fields::push_measure_fields;
use crate::net_lines::push_nets;
use breakdown_text::fault_text::{push_field, push_last_amount, push_number, push_sum};
use bucket_cache::factor_book::{Place, PlaceFactors, Slot, Stand};
use bucket_cache::kept_buckets::KeptBuckets;
use measured_bucket::mh_units::Text;
use measured_bucket::simm_kinds::{BucketId, Measure};
use measured_bucket::simm_params::Params;
use measured_bucket::simm_rules::BucketMargin;
use std::alloc::{AllocError, Global};

/// Adds the lines of a place, whose nets, which can be measured, and values are lent.
pub(crate) fn push_place(
    text: &mut Text,
    alloc: Global,
    params: &Params,
    kept: &KeptBuckets,
    lent: &PlaceFactors,
) -> Result<(), AllocError>
    requires { IsMeasurable params.now lent.now }
    ensures { OnOk result (text.new ≡ text.old
        ++ place_lines params.now (cached_in kept.now) lent.now) }
{
    push_nets(text, lent)?;
    push_measures(text, alloc, params, kept, &lent.place().stand, lent)?;
    Ok(())
}

// Adds its factors and its values in the measures of what stands there.
fn push_measures(
    text: &mut Text,
    alloc: Global,
    params: &Params,
    kept: &KeptBuckets,
    stand: &Stand,
    lent: &PlaceFactors,
) -> Result<(), AllocError>
    requires { IsReady params.now stand.now lent.now.factors }
    ensures { OnOk result (text.new ≡ text.old
        ++ measured_lines params.now (cached_in kept.now) lent.now stand.now) }
{
    match stand {
        Stand::Delta(slot) => push_delta_value(text, alloc, params, kept, slot, lent),
        Stand::BaseCorrelation => push_base_value(text, alloc, params, kept, lent),
        Stand::Volatility(slot) => push_volatility_values(text, alloc, params, kept, slot, lent),
    }
}

// Adds its factors and its value in delta, where that is kept.
fn push_delta_value(
    text: &mut Text,
    alloc: Global,
    params: &Params,
    kept: &KeptBuckets,
    slot: &Slot,
    lent: &PlaceFactors,
) -> Result<(), AllocError>
    requires { IsDeltaReady params.now slot.now lent.now.factors }
    ensures { OnOk result
        (text.new ≡ text.old ++ value_lines (cached_in kept.now) lent.now.place measure.Delta
        (delta_lines params.now lent.now.place.product lent.now.factors slot.now)) }
{
    let place = lent.place();
    match kept.cached(&place, Measure::Delta) {
        Some(value) => {
            push_delta(text, alloc, params, place.product, slot, lent)?;
            push_bucket_line(text, &place, Measure::Delta, &value)
        }
        None => Ok(()),
    }
}

// The same in base correlation.
fn push_base_value(
    text: &mut Text,
    alloc: Global,
    params: &Params,
    kept: &KeptBuckets,
    lent: &PlaceFactors,
) -> Result<(), AllocError>
    requires { AreIndices params.now (index_nets lent.now.factors) }
    ensures { OnOk result
        (text.new ≡ text.old ++ value_lines (cached_in kept.now) lent.now.place measure.BaseCorr
        (index_lines params.now lent.now.place.product (index_nets lent.now.factors))) }
{
    let place = lent.place();
    match kept.cached(&place, Measure::BaseCorr) {
        Some(value) => {
            push_base(text, alloc, params, place.product, lent)?;
            push_bucket_line(text, &place, Measure::BaseCorr, &value)
        }
        None => Ok(()),
    }
}

// Adds its factors and its values in vega and in curvature.
fn push_volatility_values(
    text: &mut Text,
    alloc: Global,
    params: &Params,
    kept: &KeptBuckets,
    slot: &Slot,
    lent: &PlaceFactors,
) -> Result<(), AllocError>
    requires { IsVolatileReady params.now slot.now lent.now.factors }
    ensures { OnOk result (text.new ≡ text.old
        ++ measured_lines params.now (cached_in kept.now) lent.now (stand.Volatility slot.now)) }
{
    push_vega_value(text, alloc, params, kept, slot, lent)?;
    push_curvature_value(text, alloc, params, kept, slot, lent)?;
    Ok(())
}

// The same in vega.
fn push_vega_value(
    text: &mut Text,
    alloc: Global,
    params: &Params,
    kept: &KeptBuckets,
    slot: &Slot,
    lent: &PlaceFactors,
) -> Result<(), AllocError>
    requires { IsVolatileReady params.now slot.now lent.now.factors }
    ensures { OnOk result
        (text.new ≡ text.old ++ value_lines (cached_in kept.now) lent.now.place measure.Vega
        (vega_lines params.now lent.now.place.product lent.now.factors slot.now)) }
{
    let place = lent.place();
    match kept.cached(&place, Measure::Vega) {
        Some(value) => {
            push_vega(text, alloc, params, place.product, slot, lent)?;
            push_bucket_line(text, &place, Measure::Vega, &value)
        }
        None => Ok(()),
    }
}

// The same in curvature.
fn push_curvature_value(
    text: &mut Text,
    alloc: Global,
    params: &Params,
    kept: &KeptBuckets,
    slot: &Slot,
    lent: &PlaceFactors,
) -> Result<(), AllocError>
    requires { IsVolatileReady params.now slot.now lent.now.factors }
    ensures { OnOk result
        (text.new ≡ text.old ++ value_lines (cached_in kept.now) lent.now.place measure.Curvature
        (curvature_lines params.now lent.now.place.product lent.now.factors slot.now)) }
{
    let place = lent.place();
    match kept.cached(&place, Measure::Curvature) {
        Some(value) => {
            push_curvature(text, alloc, params, place.product, slot, lent)?;
            push_bucket_line(text, &place, Measure::Curvature, &value)
        }
        None => Ok(()),
    }
}

// Adds the line of a bucket with this value.
fn push_bucket_line(
    text: &mut Text,
    place: &Place,
    measure: Measure,
    value: &BucketMargin,
) -> Result<(), AllocError>
    ensures { OnOk result (text.new ≡ text.old ++ bucket_line place.now measure value.now) }
{
    push_measure_fields(text, b"BUCKET", measure, place.product, place.stand.class())?;
    push_bucket_word(text, &place.stand.bucket())?;
    push_value(text, value)
}

/// Adds the bucket as a row has it.
pub(crate) fn push_bucket_word(text: &mut Text, bucket: &BucketId) -> Result<(), AllocError>
    ensures { OnOk result (text.new ≡ text.old ++ field (bucket_word bucket.now)) }
{
    match bucket {
        BucketId::Number(number) => push_number(text, number.get()),
        BucketId::Residual => push_field(text, b"Residual"),
        BucketId::Currency(currency) => push_field(text, currency.letters()),
        BucketId::Single => push_field(text, b""),
    }
}

// Adds the figures of a value.
fn push_value(text: &mut Text, value: &BucketMargin) -> Result<(), AllocError>
    ensures { OnOk result (text.new ≡ text.old ++ value_fields value.now) }
{
    push_sums(text, value)?;
    push_roots(text, value)?;
    Ok(())
}

// Adds its concentration factor and sums.
fn push_sums(text: &mut Text, value: &BucketMargin) -> Result<(), AllocError>
    ensures { OnOk result (text.new ≡ text.old ++ sum_fields value.now) }
{
    push_number(text, value.cr.0)?;
    push_sum(text, value.sum)?;
    push_sum(text, value.gross)
}

// Adds Q, K and S.
fn push_roots(text: &mut Text, value: &BucketMargin) -> Result<(), AllocError>
    ensures { OnOk result (text.new ≡ text.old ++ root_fields value.now) }
{
    push_number(text, value.q)?;
    push_sum(text, value.k)?;
    push_last_amount(text, value.s)
}
