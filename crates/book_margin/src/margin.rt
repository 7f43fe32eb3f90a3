//! The margin of a whole book, over what is kept of it or by itself.
ghost use Rattle.std.specs.Prelude.{◌≡◌, ◌+◌, ◌<◌, ◌≤◌, List, IsOk, IfOk, OnOk};
ghost use Rattle.kept_buckets.specs.SimmKinds.declared.margin_side.MarginSide.{MarginSide as Side};
ghost use Rattle.kept_buckets.specs.SimmKinds.declared.row.CrifRow.{CrifRow as Row};
ghost use Rattle.kept_buckets.specs.SimmRules.Simm.{simm};
ghost use Rattle.kept_buckets.specs.FactorBook.Factors.{factors_of};
ghost use Rattle.class_combine.specs.Sums.{AreOfBook, StandFor};
ghost use Rattle.class_combine.specs.Whole.{IsTotal, HasProductMargins};
ghost use Rattle.class_margin.specs.NegatedBook.Sides.{side_rows};
ghost use Rattle.class_margin.specs.BookRange.Bounded.{IsMarginable};
ghost use Rattle.book_margin.specs.Sides.{breakdown_on};
ghost use Rattle.book_margin.specs.Right.{AreRight, AreMarginsKept, IsFresh, Renews};
ghost use Rattle.book_margin.specs.Steps.{steps_due};

use crate::both_breakdowns::BothBreakdowns;
use crate::laws::nothing_is_right;
use crate::renewal::{kept_products, renew};
use class_combine::simm_params::Params;
use class_combine::{AddOnSums, add_ons, breakdown, product_margins};
use class_margin::negated_book::{add_ons_stay, factors_are_negated};
use class_margin::pair_sum::Steps;
use class_margin::products_are_netted;
use kept_buckets::KeptBuckets;
use kept_buckets::factor_book::Factors;
use kept_buckets::simm_kinds::{CrifRow, MarginSide};
use kept_buckets::simm_rules::Breakdown;
use std::alloc::{AllocError, Global};
use std::marker::Brand;
use std::sync::ledger::{Blank, Ledger};

/// The margin of a book, and what it was worked out from.
#[derive(Drop)]
pub struct KeptMargin {
    /// The value of each place that has a factor, and the margin of each risk class.
    pub kept: KeptBuckets,
    /// The margin with all of its parts.
    pub margin: Breakdown,
}

/// The margin of a book in range, by the factors that its rows net to, the sums of its add-ons and
/// its parameters, the rows of the trade without a name: the product classes, each of its risk
/// classes, and the additional margins. Each amount is in cents. What it was worked out from is
/// kept beside it. Want of memory is the only error.
pub fn margin_in_range(
    alloc: Global,
    params: &Params,
    factors: &Factors,
    sums: &AddOnSums,
    parameters: &[CrifRow],
) -> Result<KeptMargin, AllocError>
    requires book { IsMarginable params.now factors.now }
    requires add_ons { AreOfBook sums.now parameters.now }
    ensures value { (held : List Row) → factors.now ≡ factors_of held
        → StandFor sums.now parameters.now held
        → IfOk result (λ m. m.margin ≡ simm params.now held) }
    ensures total { IfOk result (λ m. IsTotal m.margin.total.0) }
    ensures margins { IfOk result (λ m. HasProductMargins m.margin) }
    ensures right { IfOk result (λ m. AreRight params.now factors.now m.kept) }
    ensures fresh { IfOk result (λ m. IsFresh factors.now m.kept) }
{
    margin_counted::<Brand>(alloc, params, factors, sums, parameters, Blank::new(1))
}

// The same, its steps counted in a ledger of their own.
fn margin_counted<L: Ledger>(
    alloc: Global,
    params: &Params,
    factors: &Factors,
    sums: &AddOnSums,
    parameters: &[CrifRow],
    blank: Blank,
) -> Result<KeptMargin, AllocError>
    requires name { blank.name ≡ L.name }
    requires parts { blank.parts ≡ L.parts }
    requires some { 0 < blank.parts }
    requires book { IsMarginable params.now factors.now }
    requires add_ons { AreOfBook sums.now parameters.now }
    ensures value { (held : List Row) → factors.now ≡ factors_of held
        → StandFor sums.now parameters.now held
        → IfOk result (λ m. m.margin ≡ simm params.now held) }
    ensures total { IfOk result (λ m. IsTotal m.margin.total.0) }
    ensures margins { IfOk result (λ m. HasProductMargins m.margin) }
    ensures right { IfOk result (λ m. AreRight params.now factors.now m.kept) }
    ensures fresh { IfOk result (λ m. IsFresh factors.now m.kept) }
{
    nothing_is_right();
    let mut kept = KeptBuckets::new(alloc);
    let mut steps = Steps::<L>::new(blank);
    let margins = margin_over_kept(
        alloc, params, factors, sums, parameters, &mut kept, &mut steps,
    )?;
    Ok(KeptMargin {
        kept,
        margin: margins.collect,
    })
}

/// The margins on both sides, the posted one as that of the negated book, over what is kept of the
/// book, which is right: what is not kept is worked out and kept. The steps are at most those of
/// the values that are not kept, for both sides together. For want of memory, the only error, what
/// is kept is right still. Where the margin of each class is kept, no memory is taken and no step.
pub fn margin_over_kept<L: Ledger>(
    alloc: Global,
    params: &Params,
    factors: &Factors,
    sums: &AddOnSums,
    parameters: &[CrifRow],
    kept: &mut KeptBuckets,
    steps: &mut Steps<L>,
) -> Result<BothBreakdowns, AllocError>
    requires book { IsMarginable params.now factors.now }
    requires add_ons { AreOfBook sums.now parameters.now }
    requires right { AreRight params.now factors.now kept.old }
    ensures value { (held : List Row) (side : Side) → factors.now ≡ factors_of held
        → StandFor sums.now parameters.now held
        → IfOk result (λ b. breakdown_on b side ≡ simm params.now (side_rows side held)) }
    ensures total { (side : Side) → IfOk result (λ b. IsTotal (breakdown_on b side).total.0) }
    ensures margins { (side : Side) → IfOk result (λ b. HasProductMargins (breakdown_on b side)) }

    ensures renewed { Renews params.now factors.now kept.old kept.new }
    ensures fresh { OnOk result (IsFresh factors.now kept.new) }
    ensures steps { OnOk result (steps.new + steps_due params.now kept.new factors.now
        ≤ steps.old + steps_due params.now kept.old factors.now) }
    ensures at_once { AreMarginsKept kept.old → IsOk result }
{
    renew(alloc, params, factors, kept, steps)?;
    Ok(BothBreakdowns {
        collect: margin_on(params, factors, sums, parameters, kept, MarginSide::Collect),
        post: margin_on(params, factors, sums, parameters, kept, MarginSide::Post),
    })
}

// That of a side, where the margin of each class is kept.
fn margin_on(
    params: &Params,
    factors: &Factors,
    sums: &AddOnSums,
    parameters: &[CrifRow],
    kept: &KeptBuckets,
    side: MarginSide,
) -> Breakdown
    requires add_ons { AreOfBook sums.now parameters.now }
    requires right { AreRight params.now factors.now kept.now }
    requires kept { AreMarginsKept kept.now }
    ensures value { (held : List Row) → factors.now ≡ factors_of held
        → StandFor sums.now parameters.now held → result ≡ simm params.now (side_rows side held) }
    ensures total { IsTotal result.total.0 }
    ensures margins { HasProductMargins result }
{
    products_are_netted();
    factors_are_negated();
    add_ons_stay();
    let classes = kept_products(kept, side);
    let margins = product_margins(params, &classes);
    let added = add_ons(sums, parameters, &margins);
    breakdown(&classes, &margins, &added)
}
