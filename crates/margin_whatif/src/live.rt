//! A live margin of a batch.
ghost use Rattle.std.specs.Prelude.{◌≡◌, ◌<◌, []};
ghost use Rattle.whatif.specs.BucketCache.Live.{put_trades};
ghost use Rattle.margin_whatif.specs.WhatIf.{LiveEnds};

use margin_calc::batch_fault;
use margin_calc::command_files::Fault;
use std::alloc::{AllocError, Global};
use std::marker::Brand;
use std::sync::ledger::{Blank, Ledger};
use whatif::bucket_cache::LiveMargin;
use whatif::bucket_cache::pair_sum::Steps;
use whatif::bucket_cache::simm_params::Params;
use whatif::bucket_cache::simm_rules::simm_kinds::{Batch, MarginSide};

/// A live margin of this batch, whose margin is known.
pub(crate) fn live_of_batch<'a>(
    alloc: Global,
    params: Params,
    batch: &Batch,
) -> Result<LiveMargin, Fault<'a>>
    ensures { LiveEnds params batch.now result }
{
    let Ok(mut live) = LiveMargin::new(alloc, params) else {
        return Err(Fault::Memory);
    };
    batch_alone(batch);
    if let Err(fault) = live.submit(alloc, batch) {
        return Err(batch_fault(alloc, fault));
    }
    match ask_once::<Brand>(alloc, &mut live, Blank::new(1)) {
        Ok(()) => Ok(live),
        Err(_) => Err(Fault::Memory),
    }
}

// Put into a book without trades a batch is the book: its trades have different names.
fn batch_alone(batch: &Batch)
    ensures { put_trades batch.now [] ≡ batch.now }
{
    let _trades = batch.trades();
}

// Asks the margin, whose steps are counted in a ledger of their own. Want of memory is the
// only error.
fn ask_once<L: Ledger>(alloc: Global, live: &mut LiveMargin, blank: Blank) -> Result<(), AllocError>
    requires name { blank.name ≡ L.name }
    requires parts { blank.parts ≡ L.parts }
    requires some { 0 < blank.parts }
    ensures params { live.new.params ≡ live.old.params }
    ensures book { live.new.book ≡ live.old.book }
{
    let mut steps = Steps::<L>::new(blank);
    live.margin(alloc, MarginSide::Collect, &mut steps)?;
    Ok(())
}
