//! The values of the places of a class that have a factor: what is kept of them, or else worked
//! out and kept.
ghost use Rattle.std.specs.Prelude.{◌+◌, ◌≤◌, ◌++◌, List, IfOk, OnOk};
ghost use Rattle.kept_buckets.specs.FactorBook.Places.{by_side, Lent};
ghost use Rattle.class_margin.specs.BookRange.Bounded.{IsMarginable};
ghost use Rattle.class_margin.specs.value.Values.{AreClassValues, AreValued};
ghost use Rattle.book_margin.specs.Right.{AreRight, IsSideKept, IsWhole, Renews};
ghost use Rattle.book_margin.specs.Steps.{steps_due};

use crate::value::value_of;
use class_combine::simm_params::Params;
use class_margin::pair_sum::Steps;
use kept_buckets::KeptBuckets;
use kept_buckets::factor_book::{BookSide, Factors, PlaceValue};
use kept_buckets::simm_kinds::{ProductClass, RiskClass};
use std::alloc::{AllocError, Global};
use std::slice;
use std::sync::ledger::Ledger;

/// Those of delta and of base correlation, and after them those of volatilities; each in the order
/// of buckets. Want of memory is the only error.
pub fn class_values<L: Ledger>(
    alloc: Global,
    params: &Params,
    factors: &Factors,
    kept: &mut KeptBuckets,
    product: ProductClass,
    class: RiskClass,
    steps: &mut Steps<L>,
) -> Result<Vec<PlaceValue>, AllocError>
    requires book { IsMarginable params.now factors.now }
    requires right { AreRight params.now factors.now kept.old }
    ensures values { IfOk result (λ values.
        AreClassValues params.now product class factors.now values.items) }
    ensures renewed { Renews params.now factors.now kept.old kept.new }
    ensures whole { OnOk result (IsWhole factors.now kept.new product class) }
    ensures steps { OnOk result (steps.new + steps_due params.now kept.new factors.now
        ≤ steps.old + steps_due params.now kept.old factors.now) }
{
    let mut values = Vec::new(alloc);
    push_side(
        alloc,
        params,
        factors,
        kept,
        product,
        class,
        BookSide::Delta,
        &mut values,
        steps,
    )?;
    push_side(
        alloc,
        params,
        factors,
        kept,
        product,
        class,
        BookSide::Volatility,
        &mut values,
        steps,
    )?;
    Ok(values)
}

// Those of a side, behind others.
fn push_side<L: Ledger>(
    alloc: Global,
    params: &Params,
    factors: &Factors,
    kept: &mut KeptBuckets,
    product: ProductClass,
    class: RiskClass,
    side: BookSide,
    values: &mut Vec<PlaceValue>,
    steps: &mut Steps<L>,
) -> Result<(), AllocError>
    requires book { IsMarginable params.now factors.now }
    requires right { AreRight params.now factors.now kept.old }
    ensures values { (before : List Lent) → AreValued params.now before values.old.items
        → OnOk result (AreValued params.now
        (before ++ by_side product class side factors.now) values.new.items) }
    ensures renewed { Renews params.now factors.now kept.old kept.new }
    ensures kept { OnOk result (IsSideKept factors.now kept.new product class side) }
    ensures steps { OnOk result (steps.new + steps_due params.now kept.new factors.now
        ≤ steps.old + steps_due params.now kept.old factors.now) }
{
    for (_, lent) in factors.side(product, class, side) {
        let value = value_of(alloc, params, factors, kept, lent, steps)?;
        values.extend_from_slice(slice::from_ref(&value))?;
    }
    Ok(())
}
