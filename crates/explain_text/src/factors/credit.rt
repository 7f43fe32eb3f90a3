//! The lines of the factors of a bucket of credit, which the parameter file lists.
ghost use Rattle.std.specs.Prelude.{◌≡◌, ◌++◌, OnOk, pos};
ghost use Rattle.class_credit.specs.Points.{point_nets, ArePoints};
ghost use Rattle.bucket_cache.specs.FactorBook.declared.slot.Slot.TheVariants as slot;
ghost use Rattle.class_margin.specs.value.Delta.{IsDeltaReady};
ghost use Rattle.class_margin.specs.value.Volatile.{IsVolatileReady};
ghost use Rattle.explain_text.specs.Factors.{curvature_lines, delta_lines, vega_lines};
ghost use Rattle.explain_text.specs.Factors.{point_curvature_lines, point_lines, point_vega_lines};
ghost use Rattle.explain_text.specs.Names.{point_type, point_volatility_type};
ghost use Rattle.measured_bucket.specs.SimmParams.ListedBuckets.{credit_bucket_view};

use crate::factor_lines::push_factors;
use crate::names::ListedType;
use bucket_cache::factor_book::PlaceFactors;
use class_credit::{CreditCurvature, CreditDelta, CreditVega, ListedCredit, points_among};
use measured_bucket::explain;
use measured_bucket::mh_units::Text;
use measured_bucket::simm_kinds::{Bucket, Measure, ProductClass, RiskType};
use measured_bucket::simm_params::Params;
use measured_bucket::simm_rules::CreditClass;
use std::alloc::{AllocError, Global};

/// Adds those of delta.
pub(crate) fn push_delta(
    text: &mut Text,
    alloc: Global,
    params: &Params,
    product: ProductClass,
    class: CreditClass,
    bucket: &Bucket,
    lent: &PlaceFactors,
) -> Result<(), AllocError>
    requires { IsDeltaReady params.now (slot.Credit class bucket.now) lent.now.factors }
    ensures { OnOk result (text.new ≡ text.old
        ++ delta_lines params.now product lent.now.factors (slot.Credit class bucket.now)) }
{
    match ListedCredit::of(params, class, *bucket) {
        Some(listed) => delta_of(text, alloc, product, class, bucket, listed, lent),
        None => Ok(()),
    }
}

// Adds those of the delta of a bucket with these terms.
fn delta_of(
    text: &mut Text,
    alloc: Global,
    product: ProductClass,
    class: CreditClass,
    bucket: &Bucket,
    listed: ListedCredit,
    lent: &PlaceFactors,
) -> Result<(), AllocError>
    requires { ArePoints listed.bucket.terms.weight.0 (point_nets lent.now.factors) }
    ensures { let its = point_nets lent.now.factors in let b = credit_bucket_view listed.bucket in
        OnOk result (text.new ≡ text.old
        ++ point_lines product (point_type class) bucket.now its b) }
{
    let within = ListedType {
        kind: point_type(class),
        bucket: *bucket,
    };
    let points = points_among(alloc, lent)?;
    let measured = CreditDelta {
        listed,
        points: points.as_slice(),
    };
    let factors = explain(alloc, &measured)?;
    push_factors(text, Measure::Delta, product, &within, factors.as_slice())
}

/// Adds those of vega.
pub(crate) fn push_vega(
    text: &mut Text,
    alloc: Global,
    params: &Params,
    product: ProductClass,
    class: CreditClass,
    bucket: &Bucket,
    lent: &PlaceFactors,
) -> Result<(), AllocError>
    requires { IsVolatileReady params.now (slot.Credit class bucket.now) lent.now.factors }
    ensures { OnOk result (text.new ≡ text.old
        ++ vega_lines params.now product lent.now.factors (slot.Credit class bucket.now)) }
{
    match ListedCredit::of(params, class, *bucket) {
        Some(listed) => vega_of(text, alloc, product, class, bucket, listed, lent),
        None => Ok(()),
    }
}

// Adds those of the vega of a bucket with these terms.
fn vega_of(
    text: &mut Text,
    alloc: Global,
    product: ProductClass,
    class: CreditClass,
    bucket: &Bucket,
    listed: ListedCredit,
    lent: &PlaceFactors,
) -> Result<(), AllocError>
    requires { ArePoints (pos 10000) (point_nets lent.now.factors) }
    ensures { let its = point_nets lent.now.factors in let b = credit_bucket_view listed.bucket in
        OnOk result (text.new ≡ text.old
        ++ point_vega_lines product (point_volatility_type class) bucket.now its b) }
{
    let within = ListedType {
        kind: volatility_type(class),
        bucket: *bucket,
    };
    let points = points_among(alloc, lent)?;
    let measured = CreditVega {
        listed,
        points: points.as_slice(),
    };
    let factors = explain(alloc, &measured)?;
    push_factors(text, Measure::Vega, product, &within, factors.as_slice())
}

/// Adds those of curvature.
pub(crate) fn push_curvature(
    text: &mut Text,
    alloc: Global,
    params: &Params,
    product: ProductClass,
    class: CreditClass,
    bucket: &Bucket,
    lent: &PlaceFactors,
) -> Result<(), AllocError>
    requires { IsVolatileReady params.now (slot.Credit class bucket.now) lent.now.factors }
    ensures { OnOk result (text.new ≡ text.old
        ++ curvature_lines params.now product lent.now.factors (slot.Credit class bucket.now)) }
{
    match ListedCredit::of(params, class, *bucket) {
        Some(listed) => curvature_of(text, alloc, product, class, bucket, listed, lent),
        None => Ok(()),
    }
}

// Adds those of the curvature of a bucket with these terms.
fn curvature_of(
    text: &mut Text,
    alloc: Global,
    product: ProductClass,
    class: CreditClass,
    bucket: &Bucket,
    listed: ListedCredit,
    lent: &PlaceFactors,
) -> Result<(), AllocError>
    requires { ArePoints (pos 10000) (point_nets lent.now.factors) }
    ensures { let its = point_nets lent.now.factors in let b = credit_bucket_view listed.bucket in
        OnOk result (text.new ≡ text.old
        ++ point_curvature_lines product (point_volatility_type class) bucket.now its b) }
{
    let within = ListedType {
        kind: volatility_type(class),
        bucket: *bucket,
    };
    let points = points_among(alloc, lent)?;
    let measured = CreditCurvature {
        listed,
        points: points.as_slice(),
    };
    let factors = explain(alloc, &measured)?;
    push_factors(
        text,
        Measure::Curvature,
        product,
        &within,
        factors.as_slice(),
    )
}

// The type of the points of a class.
fn point_type(class: CreditClass) -> RiskType
    ensures { result ≡ point_type class }
{
    match class {
        CreditClass::Qualifying => RiskType::CreditQ,
        CreditClass::NonQualifying => RiskType::CreditNonQ,
    }
}

// The type of their volatilities.
fn volatility_type(class: CreditClass) -> RiskType
    ensures { result ≡ point_volatility_type class }
{
    match class {
        CreditClass::Qualifying => RiskType::CreditVol,
        CreditClass::NonQualifying => RiskType::CreditVolNonQ,
    }
}
