//! The lines of the factors of a bucket of equity or of commodities, which the parameter file
//! lists.
ghost use Rattle.std.specs.Prelude.{◌≡◌, ◌++◌, OnOk};
ghost use Rattle.bucket_cache.specs.FactorBook.declared.slot.Slot.TheVariants as slot;
ghost use Rattle.class_margin.specs.value.Delta.{IsDeltaReady};
ghost use Rattle.class_margin.specs.value.Volatile.{IsVolatileReady};
ghost use Rattle.class_priced.specs.Names.{name_nets, volatility_nets};
ghost use Rattle.class_priced.specs.Names.{AreNameVolatilities, AreNames};
ghost use Rattle.explain_text.specs.Factors.{curvature_lines, delta_lines, vega_lines};
ghost use Rattle.explain_text.specs.Factors.{name_curvature_lines, name_lines, name_vega_lines};
ghost use Rattle.explain_text.specs.Names.{price_type, price_volatility_type};
ghost use Rattle.measured_bucket.specs.SimmParams.ListedBuckets.{priced_bucket_view};

use crate::factor_lines::push_factors;
use crate::names::ListedType;
use bucket_cache::factor_book::PlaceFactors;
use class_priced::{
    ListedPriced, PricedCurvature, PricedDelta, PricedVega, delta_names, volatile_names,
};
use measured_bucket::mh_units::Text;
use measured_bucket::simm_kinds::{Bucket, Measure, ProductClass, RiskType};
use measured_bucket::simm_params::Params;
use measured_bucket::simm_rules::PricedClass;
use measured_bucket::{TenorScale, explain};
use std::alloc::{AllocError, Global};

/// Adds those of delta.
pub(crate) fn push_delta(
    text: &mut Text,
    alloc: Global,
    params: &Params,
    product: ProductClass,
    class: PricedClass,
    bucket: &Bucket,
    lent: &PlaceFactors,
) -> Result<(), AllocError>
    requires { IsDeltaReady params.now (slot.Priced class bucket.now) lent.now.factors }
    ensures { OnOk result (text.new ≡ text.old
        ++ delta_lines params.now product lent.now.factors (slot.Priced class bucket.now)) }
{
    match ListedPriced::of(params, class, *bucket) {
        Some(listed) => delta_of(text, alloc, product, class, bucket, listed, lent),
        None => Ok(()),
    }
}

// Adds those of the delta of a bucket with these terms.
fn delta_of(
    text: &mut Text,
    alloc: Global,
    product: ProductClass,
    class: PricedClass,
    bucket: &Bucket,
    listed: ListedPriced,
    lent: &PlaceFactors,
) -> Result<(), AllocError>
    requires { AreNames listed.bucket.terms.weight.0 (name_nets lent.now.factors) }
    ensures { let its = name_nets lent.now.factors in let b = priced_bucket_view listed.bucket in
        OnOk result (text.new ≡ text.old
        ++ name_lines product (price_type class) bucket.now its b) }
{
    let within = ListedType {
        kind: price_type(class),
        bucket: *bucket,
    };
    let names = delta_names(alloc, lent)?;
    let measured = PricedDelta {
        listed,
        names: names.as_slice(),
    };
    let factors = explain(alloc, &measured)?;
    push_factors(text, Measure::Delta, product, &within, factors.as_slice())
}

/// Adds those of vega.
pub(crate) fn push_vega(
    text: &mut Text,
    alloc: Global,
    params: &Params,
    product: ProductClass,
    class: PricedClass,
    bucket: &Bucket,
    lent: &PlaceFactors,
) -> Result<(), AllocError>
    requires { IsVolatileReady params.now (slot.Priced class bucket.now) lent.now.factors }
    ensures { OnOk result (text.new ≡ text.old
        ++ vega_lines params.now product lent.now.factors (slot.Priced class bucket.now)) }
{
    match ListedPriced::of(params, class, *bucket) {
        Some(listed) => vega_of(text, alloc, product, class, bucket, listed, lent),
        None => Ok(()),
    }
}

// Adds those of the vega of a bucket with these terms.
fn vega_of(
    text: &mut Text,
    alloc: Global,
    product: ProductClass,
    class: PricedClass,
    bucket: &Bucket,
    listed: ListedPriced,
    lent: &PlaceFactors,
) -> Result<(), AllocError>
    requires { AreNameVolatilities listed.bucket.sigma.0 (volatility_nets lent.now.factors) }
    ensures { let its = volatility_nets lent.now.factors in
        let b = priced_bucket_view listed.bucket in OnOk result (text.new ≡ text.old
        ++ name_vega_lines product (price_volatility_type class) bucket.now listed.hvr.0 its b) }
{
    let within = ListedType {
        kind: volatility_type(class),
        bucket: *bucket,
    };
    let names = volatile_names(alloc, lent, TenorScale::Even)?;
    let measured = PricedVega {
        listed,
        names: names.as_slice(),
    };
    let factors = explain(alloc, &measured)?;
    push_factors(text, Measure::Vega, product, &within, factors.as_slice())
}

/// Adds those of curvature.
pub(crate) fn push_curvature(
    text: &mut Text,
    alloc: Global,
    params: &Params,
    product: ProductClass,
    class: PricedClass,
    bucket: &Bucket,
    lent: &PlaceFactors,
) -> Result<(), AllocError>
    requires { IsVolatileReady params.now (slot.Priced class bucket.now) lent.now.factors }
    ensures { OnOk result (text.new ≡ text.old
        ++ curvature_lines params.now product lent.now.factors (slot.Priced class bucket.now)) }
{
    match ListedPriced::of(params, class, *bucket) {
        Some(listed) => curvature_of(text, alloc, product, class, bucket, listed, lent),
        None => Ok(()),
    }
}

// Adds those of the curvature of a bucket with these terms.
fn curvature_of(
    text: &mut Text,
    alloc: Global,
    product: ProductClass,
    class: PricedClass,
    bucket: &Bucket,
    listed: ListedPriced,
    lent: &PlaceFactors,
) -> Result<(), AllocError>
    requires { AreNameVolatilities listed.bucket.sigma.0 (volatility_nets lent.now.factors) }
    ensures { let its = volatility_nets lent.now.factors in
        let b = priced_bucket_view listed.bucket in OnOk result (text.new ≡ text.old
        ++ name_curvature_lines product (price_volatility_type class) bucket.now its b) }
{
    let within = ListedType {
        kind: volatility_type(class),
        bucket: *bucket,
    };
    let names = volatile_names(alloc, lent, TenorScale::Curved)?;
    let measured = PricedCurvature {
        listed,
        names: names.as_slice(),
    };
    let factors = explain(alloc, &measured)?;
    push_factors(
        text,
        Measure::Curvature,
        product,
        &within,
        factors.as_slice(),
    )
}

// The type of the names of a class.
fn price_type(class: PricedClass) -> RiskType
    ensures { result ≡ price_type class }
{
    match class {
        PricedClass::Equities => RiskType::Equity,
        PricedClass::Commodities => RiskType::Commodity,
    }
}

// The type of their volatilities.
fn volatility_type(class: PricedClass) -> RiskType
    ensures { result ≡ price_volatility_type class }
{
    match class {
        PricedClass::Equities => RiskType::EquityVol,
        PricedClass::Commodities => RiskType::CommodityVol,
    }
}
