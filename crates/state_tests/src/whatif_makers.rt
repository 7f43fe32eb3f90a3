//! Live margins and what is asked of them, as values that tests compare.
ghost use Rattle.std.specs.Prelude.{◌≡◌, ◌<◌};

use crate::expected_book::Trade;
use crate::random_requests::batch_of;
use crif_reader::mh_units::Cents;
use crif_reader::simm_kinds::{Batch, MarginSide, Name, ProductClass, RiskClass};
use params_file::simm_params::Params;
use params_file::simm_rules::Breakdown;
use set_core::bucket_cache::LiveMargin;
use set_core::pair_sum::Steps;
use std::alloc::Global;
use std::marker::Brand;
use std::process::Abort;
use std::sync::ledger::{Blank, Ledger};
use whatif::{WhatIf, WhatIfFault, leave_one, what_if};

/// A new live margin of these trades, whose margin is not known where there are any.
pub fn live_of(rt: &(impl Abort + AllocGlobal), params: &Params, trades: &[Trade]) -> LiveMargin {
    let params = params.share().ok().expect(rt, "memory");
    let live = LiveMargin::new(rt.alloc(), params);
    let mut live = live.ok().expect(rt, "memory");
    if !trades.is_empty() {
        let batch = batch_of(rt, trades);
        let taken = live.submit(rt.alloc(), &batch);
        assert!(rt; taken.is_ok(), "the trades are taken in");
    }
    live
}

fn counted<L: Ledger>(
    alloc: Global,
    live: &mut LiveMargin,
    side: MarginSide,
    blank: Blank,
) -> Option<Breakdown>
    requires name { blank.name ≡ L.name }
    requires parts { blank.parts ≡ L.parts }
    requires some { 0 < blank.parts }
{
    let mut steps = Steps::<L>::new(blank);
    live.margin(alloc, side, &mut steps).ok()
}

/// The margin of its book on a side.
pub fn margin_of(
    rt: &(impl Abort + AllocGlobal),
    live: &mut LiveMargin,
    side: MarginSide,
) -> Breakdown {
    counted::<Brand>(rt.alloc(), live, side, Blank::new(1)).expect(rt, "memory")
}

fn margins_counted<L: Ledger>(
    alloc: Global,
    live: &LiveMargin,
    leave: &[Name],
    candidate: Option<&Batch>,
    blank: Blank,
) -> Result<WhatIf, WhatIfFault>
    requires name { blank.name ≡ L.name }
    requires parts { blank.parts ≡ L.parts }
    requires some { 0 < blank.parts }
{
    let mut steps = Steps::<L>::new(blank);
    what_if(alloc, live, leave, candidate, &mut steps)
}

/// The margins of a what-if.
pub fn margins(
    rt: &impl AllocGlobal,
    live: &LiveMargin,
    leave: &[Name],
    candidate: Option<&Batch>,
) -> Result<WhatIf, WhatIfFault> {
    margins_counted::<Brand>(rt.alloc(), live, leave, candidate, Blank::new(1))
}

fn totals_counted<L: Ledger>(
    alloc: Global,
    live: &LiveMargin,
    names: &[Name],
    blank: Blank,
) -> Result<Vec<Cents>, WhatIfFault>
    requires name { blank.name ≡ L.name }
    requires parts { blank.parts ≡ L.parts }
    requires some { 0 < blank.parts }
{
    let mut steps = Steps::<L>::new(blank);
    leave_one(alloc, live, names, &mut steps)
}

/// The totals without each of these trades.
pub fn totals(
    rt: &impl AllocGlobal,
    live: &LiveMargin,
    names: &[Name],
) -> Result<Vec<Cents>, WhatIfFault> {
    totals_counted::<Brand>(rt.alloc(), live, names, Blank::new(1))
}

fn have_the_same_products(first: &Breakdown, second: &Breakdown) -> bool {
    for product in ProductClass::ALL {
        let (first, second) = (first.product(product), second.product(product));
        if first.margin.0 != second.margin.0 {
            return false;
        }
        for class in RiskClass::ALL {
            if first.class(class).0 != second.class(class).0 {
                return false;
            }
        }
    }
    true
}

/// Whether two margins have the same parts.
pub fn are_same(first: &Breakdown, second: &Breakdown) -> bool {
    have_the_same_products(first, second)
        && first.fixed.0 == second.fixed.0
        && first.notional.0 == second.notional.0
        && first.multiplier.0 == second.multiplier.0
        && first.total.0 == second.total.0
}
