//! The margin of one risk class in a product class.
ghost use Rattle.std.specs.Prelude.{◌+◌, ◌≤◌, List, IsSome, IsOk, IfOk, OnOk};
ghost use Rattle.kept_buckets.specs.SimmKinds.declared.key.FactorKey.{FactorKey};
ghost use Rattle.kept_buckets.specs.FactorBook.declared.holding.Holding.{Holding};
ghost use Rattle.class_margin.specs.BookRange.Bounded.{IsMarginable};
ghost use Rattle.kept_buckets.specs.Kept.{margin_at};
ghost use Rattle.class_margin.specs.value.Values.{AreBookValues, AreClassValues};
ghost use Rattle.book_margin.specs.Right.{AreRight, AreMargins, IsWhole, Renews};
ghost use Rattle.book_margin.specs.Steps.{steps_due};

use crate::measures::{measures_from, posted};
use crate::values::class_values;
use class_combine::simm_params::Params;
use class_margin::pair_sum::Steps;
use kept_buckets::factor_book::{Factors, PlaceValue};
use kept_buckets::simm_kinds::{ProductClass, RiskClass};
use kept_buckets::{BothMargins, KeptBuckets};
use std::alloc::{AllocError, Global};
use std::sync::ledger::Ledger;

/// Sees that the margin of a risk class in a product class is kept: where it is not, it is worked
/// out, with the values of its places that are not kept. Want of memory is the only error; where
/// the margin is kept, nothing is done.
pub fn renew_class<L: Ledger>(
    alloc: Global,
    params: &Params,
    factors: &Factors,
    kept: &mut KeptBuckets,
    product: ProductClass,
    class: RiskClass,
    steps: &mut Steps<L>,
) -> Result<(), AllocError>
    requires book { IsMarginable params.now factors.now }
    requires right { AreRight params.now factors.now kept.old }
    ensures renewed { Renews params.now factors.now kept.old kept.new }
    ensures kept { OnOk result (IsSome (margin_at kept.new product class)) }
    ensures steps { OnOk result (steps.new + steps_due params.now kept.new factors.now
        ≤ steps.old + steps_due params.now kept.old factors.now) }
    ensures at_once { IsSome (margin_at kept.old product class) → IsOk result }
{
    match kept.margin(product, class) {
        Some(_) => Ok(()),
        None => {
            let margin = renewed_margin(alloc, params, factors, kept, product, class, steps)?;
            kept.keep_margin(product, class, margin);
            Ok(())
        }
    }
}

// The margins of a class, on both sides, by the values of its places, each of which is kept
// afterwards: delta, vega and curvature, and in credit that qualifies base correlation. Want of
// memory is the only error.
fn renewed_margin<L: Ledger>(
    alloc: Global,
    params: &Params,
    factors: &Factors,
    kept: &mut KeptBuckets,
    product: ProductClass,
    class: RiskClass,
    steps: &mut Steps<L>,
) -> Result<BothMargins, AllocError>
    requires book { IsMarginable params.now factors.now }
    requires right { AreRight params.now factors.now kept.old }
    ensures margin { IfOk result (AreMargins params.now factors.now product class) }
    ensures renewed { Renews params.now factors.now kept.old kept.new }
    ensures whole { OnOk result (IsWhole factors.now kept.new product class) }
    ensures steps { OnOk result (steps.new + steps_due params.now kept.new factors.now
        ≤ steps.old + steps_due params.now kept.old factors.now) }
{
    let values = class_values(alloc, params, factors, kept, product, class, steps)?;
    class_from(alloc, params, product, class, values.as_slice())
}

// The margins of a class, on both sides, over the values of its places, as `measures_from` takes
// them. Want of memory is the only error.
fn class_from(
    alloc: Global,
    params: &Params,
    product: ProductClass,
    class: RiskClass,
    values: &[PlaceValue],
) -> Result<BothMargins, AllocError>
    requires { AreBookValues params.now product class values.now }
    ensures { (factors : List (FactorKey × Holding)) → IsMarginable params.now factors
        → AreClassValues params.now product class factors values.now
        → IfOk result (AreMargins params.now factors product class) }
{
    let collected = measures_from(alloc, params, product, class, values)?;
    let posted = posted(alloc, params, product, class, collected, values)?;
    Ok(BothMargins {
        collect: collected.sum(),
        post: posted.sum(),
    })
}
