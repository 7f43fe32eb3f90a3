//! The margins of the measures of a class of which all values of places are kept.
ghost use Rattle.std.specs.Prelude.{◌++◌, List, IfOk, OnOk};
ghost use Rattle.kept_buckets.specs.FactorBook.Places.{by_side, Lent};
ghost use Rattle.class_margin.specs.BookRange.Bounded.{IsMarginable};
ghost use Rattle.class_margin.specs.value.Values.{AreClassValues, AreValued};
ghost use Rattle.book_margin.specs.Measures.{AreMeasures};
ghost use Rattle.book_margin.specs.Right.{AreRight, IsSideKept, IsWhole};

use crate::measures::{MeasureMargins, measures_from};
use class_combine::simm_params::Params;
use kept_buckets::KeptBuckets;
use kept_buckets::factor_book::{BookSide, Factors, PlaceValue};
use kept_buckets::simm_kinds::{ProductClass, RiskClass};
use std::alloc::{AllocError, Global};
use std::slice;

/// The margins of the measures of a risk class in a product class of a book, over the values that
/// are kept of its places: each of them is kept, as after the margin of the book was worked out.
/// Want of memory is the only error.
pub fn measure_margins(
    alloc: Global,
    params: &Params,
    factors: &Factors,
    kept: &KeptBuckets,
    product: ProductClass,
    class: RiskClass,
) -> Result<MeasureMargins, AllocError>
    requires book { IsMarginable params.now factors.now }
    requires right { AreRight params.now factors.now kept.now }
    requires whole { IsWhole factors.now kept.now product class }
    ensures { IfOk result (AreMeasures params.now factors.now product class) }
{
    let values = kept_values(alloc, params, factors, kept, product, class)?;
    measures_from(alloc, params, product, class, values.as_slice())
}

// The values of its places. Want of memory is the only error.
fn kept_values(
    alloc: Global,
    params: &Params,
    factors: &Factors,
    kept: &KeptBuckets,
    product: ProductClass,
    class: RiskClass,
) -> Result<Vec<PlaceValue>, AllocError>
    requires right { AreRight params.now factors.now kept.now }
    requires whole { IsWhole factors.now kept.now product class }
    ensures { IfOk result (λ values.
        AreClassValues params.now product class factors.now values.items) }
{
    let mut values = Vec::new(alloc);
    push_kept_side(
        params,
        factors,
        kept,
        product,
        class,
        BookSide::Delta,
        &mut values,
    )?;
    push_kept_side(
        params,
        factors,
        kept,
        product,
        class,
        BookSide::Volatility,
        &mut values,
    )?;
    Ok(values)
}

// Those of a side, behind others.
fn push_kept_side(
    params: &Params,
    factors: &Factors,
    kept: &KeptBuckets,
    product: ProductClass,
    class: RiskClass,
    side: BookSide,
    values: &mut Vec<PlaceValue>,
) -> Result<(), AllocError>
    requires right { AreRight params.now factors.now kept.now }
    requires kept { IsSideKept factors.now kept.now product class side }
    ensures { (before : List Lent) → AreValued params.now before values.old.items
        → OnOk result (AreValued params.now
        (before ++ by_side product class side factors.now) values.new.items) }
{
    let _params = params;
    for (_, lent) in factors.side(product, class, side) {
        let value = kept.get(&lent.place()).unwrap();
        values.extend_from_slice(slice::from_ref(value))?;
    }
    Ok(())
}
