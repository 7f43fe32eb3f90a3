//! The margin of a set's trades.
ghost use Rattle.std.specs.Prelude.{◌≡◌, ◌^◌, ◌<◌, IfOk, IsOk, OnOk, true, pos, ◌≤ℤ◌, ◌<ℤ◌};
ghost use Rattle.collateral_ledger.specs.SimmKinds.Batch.{rows_of};
ghost use Rattle.bucket_cache.specs.SimmRules.Simm.{simm};
ghost use Rattle.bucket_cache.specs.BookMargin.NegatedBook.Sides.{side_rows};
ghost use Rattle.set_core.specs.Live.{IsWorkedOut, StaysKept, traded};

use bucket_cache::LiveMargin;
use bucket_cache::pair_sum::Steps;
use bucket_cache::simm_rules::Breakdown;
use collateral_ledger::simm_kinds::MarginSide;
use std::alloc::{AllocError, Global};
use std::marker::Brand;
use std::sync::ledger::{Blank, Ledger};

/// The margin of the current trades on a side, with all of its parts: its total is from 0 to below
/// 10^21 cents. It is known then, on the other side too, and all values of buckets are kept. What
/// was kept is kept, for want of memory, the only error, too; the trades stand. A margin that is
/// known takes no memory.
pub(crate) fn ask_margin(
    alloc: Global,
    live: &mut LiveMargin,
    side: MarginSide,
) -> Result<Breakdown, AllocError>
    ensures value { IfOk result (λ b.
        b ≡ simm live.old.params (side_rows side (rows_of live.old.book))) }
    ensures total_from { IfOk result (λ b. pos 0 ≤ℤ b.total.0) }
    ensures total_below { IfOk result (λ b. b.total.0 <ℤ pos (10 ^ 21)) }
    ensures trades { traded live.new ≡ traded live.old }
    ensures all { OnOk result (IsWorkedOut live.new) }
    ensures stays { StaysKept live.old live.new }
    ensures at_once { live.old.is_fresh ≡ true → IsOk result }
{
    ask_counted::<Brand>(alloc, live, side, Blank::new(1))
}

// The same, its steps counted in a ledger of their own.
fn ask_counted<L: Ledger>(
    alloc: Global,
    live: &mut LiveMargin,
    side: MarginSide,
    blank: Blank,
) -> Result<Breakdown, AllocError>
    requires name { blank.name ≡ L.name }
    requires parts { blank.parts ≡ L.parts }
    requires some { 0 < blank.parts }
    ensures value { IfOk result (λ b.
        b ≡ simm live.old.params (side_rows side (rows_of live.old.book))) }
    ensures total_from { IfOk result (λ b. pos 0 ≤ℤ b.total.0) }
    ensures total_below { IfOk result (λ b. b.total.0 <ℤ pos (10 ^ 21)) }
    ensures trades { traded live.new ≡ traded live.old }
    ensures all { OnOk result (IsWorkedOut live.new) }
    ensures stays { StaysKept live.old live.new }
    ensures at_once { live.old.is_fresh ≡ true → IsOk result }
{
    let mut steps = Steps::<L>::new(blank);
    live.margin(alloc, side, &mut steps)
}
