ghost use Rattle.std.specs.Prelude.{◌≡◌, ◌+◌, ◌≤◌, ◌⊎◌, map, sum_by, None, Some, Err, IfOk, OnOk};
ghost use Rattle.bucket_cache.specs.Live.{first_unknown};
ghost use Rattle.bucket_cache.specs.Without.{total_without, steps_without};
ghost use Rattle.whatif.specs.declared.fault.WhatIfFault.{WhatIfFault as Fault};
ghost use Rattle.whatif.specs.Faults.{if_known};

use crate::fault::WhatIfFault;
use bucket_cache::LiveMargin;
use bucket_cache::pair_sum::Steps;
use bucket_cache::simm_rules::mh_units::Cents;
use bucket_cache::simm_rules::simm_kinds::Name;
use std::alloc::Global;
use std::sync::ledger::Ledger;

/// For each name, in order, the total of the margin of a live margin's book without that trade
/// alone, in cents. It costs one copy of what the rows of the book come to, and for each name its
/// rows and the buckets that are worked out: those in which one of them lies, and those of which
/// nothing is kept.
///
/// # Errors
///
/// `UnknownTrade` exactly where a name is not current, with the place of the first such name, and
/// `Memory` for want of memory.
pub fn leave_one<L: Ledger>(
    alloc: Global,
    live: &LiveMargin,
    names: &[Name],
    steps: &mut Steps<L>,
) -> Result<Vec<Cents>, WhatIfFault>
    ensures totals { IfOk result (λ totals.
        totals.items ≡ map (total_without live.now.params live.now.book) names.now) }
    ensures steps { OnOk result (steps.new ≤ steps.old
        + sum_by (steps_without live.now.params live.now.kept live.now.book) names.now) }
    ensures none { OnOk result (first_unknown names.now live.now.book ≡ None) }
    ensures fault { (fault : Fault) → result ≡ Err fault → (fault ≡ WhatIfFault.Memory)
        ⊎ (if_known (first_unknown names.now live.now.book) None ≡ Some fault) }
{
    Ok(live.totals_without(alloc, names, steps)?)
}
