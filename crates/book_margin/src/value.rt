//! The value of one place: what is kept of it, or else worked out and kept.
ghost use Rattle.std.specs.Prelude.{◌≡◌, ◌≢◌, ◌+◌, ◌≤◌, [], None, IsSome, IfOk, OnOk};
ghost use Rattle.kept_buckets.specs.FactorBook.Places.{lent_at};
ghost use Rattle.class_margin.specs.BookRange.Bounded.{IsMarginable};
ghost use Rattle.class_margin.specs.value.Values.{IsValued};
ghost use Rattle.kept_buckets.specs.Kept.{value_at};
ghost use Rattle.book_margin.specs.Right.{AreRight, Renews};
ghost use Rattle.book_margin.specs.Steps.{steps_due};

use class_combine::simm_params::Params;
use class_margin::pair_sum::Steps;
use class_margin::{place_value, places_can_be_measured};
use kept_buckets::factor_book::{Factors, PlaceFactors, PlaceValue};
use kept_buckets::{KeptBuckets, kept_values_save_steps};
use std::alloc::{AllocError, Global};
use std::sync::ledger::Ledger;

/// The value of a place of the book that has a factor. Want of memory is the only error.
pub fn value_of<L: Ledger>(
    alloc: Global,
    params: &Params,
    factors: &Factors,
    kept: &mut KeptBuckets,
    lent: &PlaceFactors,
    steps: &mut Steps<L>,
) -> Result<PlaceValue, AllocError>
    requires book { IsMarginable params.now factors.now }
    requires right { AreRight params.now factors.now kept.old }
    requires its { lent.now ≡ lent_at factors.now lent.now.place }
    requires some { lent.now.factors ≢ [] }
    ensures value { IfOk result (IsValued params.now lent.now) }
    ensures renewed { Renews params.now factors.now kept.old kept.new }
    ensures kept { OnOk result (IsSome (value_at kept.new lent.now.place)) }
    ensures steps { OnOk result (steps.new + steps_due params.now kept.new factors.now
        ≤ steps.old + steps_due params.now kept.old factors.now) }
{
    match kept.get(&lent.place()) {
        Some(value) => Ok(*value),
        None => renewed_value(alloc, params, factors, kept, lent, steps),
    }
}

// That of a place of which none is kept.
fn renewed_value<L: Ledger>(
    alloc: Global,
    params: &Params,
    factors: &Factors,
    kept: &mut KeptBuckets,
    lent: &PlaceFactors,
    steps: &mut Steps<L>,
) -> Result<PlaceValue, AllocError>
    requires book { IsMarginable params.now factors.now }
    requires right { AreRight params.now factors.now kept.old }
    requires its { lent.now ≡ lent_at factors.now lent.now.place }
    requires some { lent.now.factors ≢ [] }
    requires none { value_at kept.old lent.now.place ≡ None }
    ensures value { IfOk result (IsValued params.now lent.now) }
    ensures renewed { Renews params.now factors.now kept.old kept.new }
    ensures kept { OnOk result (IsSome (value_at kept.new lent.now.place)) }
    ensures steps { OnOk result (steps.new + steps_due params.now kept.new factors.now
        ≤ steps.old + steps_due params.now kept.old factors.now) }
{
    places_can_be_measured(params);
    kept_values_save_steps();
    let value = place_value(alloc, params, lent, steps)?;
    kept.keep(&lent.place(), &value)?;
    Ok(value)
}
