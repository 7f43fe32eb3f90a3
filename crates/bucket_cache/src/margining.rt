//! The margins of a book from its sums and what is kept of its buckets.
ghost use Rattle.std.specs.Prelude.{◌≡◌, ◌+◌, ◌≤◌, List, IfOk, OnOk};
ghost use Rattle.book_margin.specs.SimmKinds.declared.margin_side.MarginSide.{MarginSide as Side};
ghost use Rattle.book_margin.specs.SimmKinds.declared.row.CrifRow.{CrifRow as Row};
ghost use Rattle.book_margin.specs.SimmRules.Simm.{simm};
ghost use Rattle.book_margin.specs.ClassCombine.Whole.{IsTotal};
ghost use Rattle.book_margin.specs.NegatedBook.Sides.{side_rows};
ghost use Rattle.book_margin.specs.Sides.{breakdown_on};
ghost use Rattle.book_margin.specs.Right.{AreRight, IsFresh, Renews};
ghost use Rattle.book_margin.specs.Steps.{steps_due};
ghost use Rattle.bucket_cache.specs.Held.{IsMarginBook};

use crate::sums::Sums;
use book_margin::book_range::range_bounds;
use book_margin::kept_buckets::KeptBuckets;
use book_margin::pair_sum::Steps;
use book_margin::simm_kinds::CrifRow;
use book_margin::simm_params::Params;
use book_margin::{BothBreakdowns, margin_over_kept};
use std::alloc::{AllocError, Global};
use std::sync::ledger::Ledger;

/// The margins of a book in range on both sides, by the sums of its rows and its parameters, the
/// rows of the trade without a name. What of its buckets and classes is not kept is worked out,
/// and kept. Each total is from 0 to below 10^21 cents.
///
/// # Errors
///
/// For want of memory alone. What is kept then is right.
pub fn margin_of<L: Ledger>(
    alloc: Global,
    params: &Params,
    sums: &Sums,
    parameters: &[CrifRow],
    kept: &mut KeptBuckets,
    steps: &mut Steps<L>,
) -> Result<BothBreakdowns, AllocError>
    requires book { (held : List Row) × IsMarginBook params.now sums.now parameters.now held }
    requires right { AreRight params.now sums.now.factors kept.old }
    ensures value { (held : List Row) (side : Side)
        → IsMarginBook params.now sums.now parameters.now held
        → IfOk result (λ b. breakdown_on b side ≡ simm params.now (side_rows side held)) }
    ensures total { (side : Side) → IfOk result (λ b. IsTotal (breakdown_on b side).total.0) }
    ensures renewed { Renews params.now sums.now.factors kept.old kept.new }
    ensures fresh { OnOk result (IsFresh sums.now.factors kept.new) }
    ensures steps { OnOk result (steps.new + steps_due params.now kept.new sums.now.factors
        ≤ steps.old + steps_due params.now kept.old sums.now.factors) }
{
    range_bounds(params);
    margin_over_kept(
        alloc,
        params,
        &sums.factors,
        &sums.add_ons,
        parameters,
        kept,
        steps,
    )
}
