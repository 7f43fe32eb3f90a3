//! A what-if of a live margin, and its lines.
ghost use Rattle.std.specs.Prelude.{◌≡◌, ◌<◌};
ghost use Rattle.margin_whatif.specs.WhatIf.{AskedEnds};

use crate::lines::{margins_text, push_totals};
use std::alloc::Global;
use std::marker::Brand;
use std::sync::ledger::{Blank, Ledger};
use whatif::bucket_cache::LiveMargin;
use whatif::bucket_cache::pair_sum::Steps;
use whatif::bucket_cache::simm_rules::mh_units::Text;
use whatif::bucket_cache::simm_rules::simm_kinds::{Batch, Name};
use whatif::{WhatIfFault, leave_one, what_if};

/// The lines of both margins and of the totals without each trade, or why there are none.
pub(crate) fn what_if_text(
    alloc: Global,
    live: &LiveMargin,
    names: &[Name],
    candidate: &Batch,
) -> Result<Text, WhatIfFault>
    ensures { AskedEnds live.now.params live.now.book names.now candidate.now result }
{
    text_counted::<Brand>(alloc, live, names, candidate, Blank::new(1))
}

// The same, its steps counted in a ledger of their own.
fn text_counted<L: Ledger>(
    alloc: Global,
    live: &LiveMargin,
    names: &[Name],
    candidate: &Batch,
    blank: Blank,
) -> Result<Text, WhatIfFault>
    requires name { blank.name ≡ L.name }
    requires parts { blank.parts ≡ L.parts }
    requires some { 0 < blank.parts }
    ensures { AskedEnds live.now.params live.now.book names.now candidate.now result }
{
    let mut steps = Steps::<L>::new(blank);
    let margins = what_if(alloc, live, names, Some(candidate), &mut steps)?;
    let totals = leave_one(alloc, live, names, &mut steps)?;
    let mut text = margins_text(alloc, &margins)?;
    push_totals(&mut text, names, totals.as_slice())?;
    Ok(text)
}
