ghost use Rattle.std.specs.Prelude.{◌≡◌, ◌+◌, ◌≤◌, ◌⊎◌, None, Some, Err, IfOk, OnOk};
ghost use Rattle.std.specs.Option.{option_copied};
ghost use Rattle.bucket_cache.specs.SimmRules.SimmKinds.Batch.{rows_of};
ghost use Rattle.bucket_cache.specs.SimmRules.Simm.{simm};
ghost use Rattle.bucket_cache.specs.KeptBuckets.Touched.{Forgets};
ghost use Rattle.whatif.specs.declared.fault.WhatIfFault.{WhatIfFault as Fault};
ghost use Rattle.whatif.specs.Asked.{with_candidate, candidate_rows, book_after, steps_asked};
ghost use Rattle.whatif.specs.Faults.{candidate_fault, first_fault};

use crate::fault::WhatIfFault;
use bucket_cache::kept_buckets::touches_add_up;
use bucket_cache::pair_sum::Steps;
use bucket_cache::simm_rules::Breakdown;
use bucket_cache::simm_rules::simm_kinds::{Batch, MarginSide, Name};
use bucket_cache::{LiveMargin, touched_values_cost};
use std::alloc::Global;
use std::sync::ledger::Ledger;

/// The margins of a what-if, each with all of its parts.
#[derive(Clone, Copy)]
pub struct WhatIf {
    /// That of the book.
    pub before: Breakdown,
    /// That of the book without the trades that leave it and with the candidate.
    pub after: Breakdown,
}

/// The collected margin of a live margin's book, and that of the book after: without the trades
/// of these names, and then with the candidate, where there is one, taken in as a batch is. A
/// name that stands twice counts once, and a trade of the candidate replaces one of its name.
/// No row is copied. Beside one copy of the live margin it costs the rows that come or go, and
/// the buckets that are worked out: for the first margin those of which nothing is kept, for
/// the second also those in which one of these rows lies.
///
/// # Errors
///
/// `UnknownTrade` exactly where a name is not current, with the place of the first such name;
/// then `BucketUnknown` exactly where a row of the candidate is not admitted, with the place of
/// the first such row; then `Range` exactly where the book after is out of range, with the first
/// quantity that is above its limit; and `Memory` for want of memory.
pub fn what_if<L: Ledger>(
    alloc: Global,
    live: &LiveMargin,
    leave: &[Name],
    candidate: Option<&Batch>,
    steps: &mut Steps<L>,
) -> Result<WhatIf, WhatIfFault>
    ensures before { IfOk result (λ margins.
        margins.before ≡ simm live.now.params (rows_of live.now.book)) }
    ensures after { IfOk result (λ margins. margins.after ≡ simm live.now.params
        (rows_of (book_after leave.now (option_copied candidate.entry) live.now.book))) }
    ensures steps { OnOk result (steps.new
        ≤ steps.old + steps_asked live.now.params leave.now (option_copied candidate.entry)
        live.now.kept live.now.book) }
    ensures none { OnOk result (first_fault live.now.params leave.now
        (option_copied candidate.entry) live.now.book ≡ None) }
    ensures fault { (fault : Fault) → result ≡ Err fault → (fault ≡ WhatIfFault.Memory)
        ⊎ (first_fault live.now.params leave.now (option_copied candidate.entry) live.now.book
        ≡ Some fault) }
{
    touches_add_up();
    touched_values_cost();
    let mut copy = live.copy(alloc)?;
    let before = copy.margin(alloc, MarginSide::Collect, steps)?;
    copy.withdraw(alloc, leave)?;
    take_in(alloc, &mut copy, candidate)?;
    let after = copy.margin(alloc, MarginSide::Collect, steps)?;
    Ok(WhatIf { before, after })
}

// Takes the candidate in, where there is one.
fn take_in(
    alloc: Global,
    live: &mut LiveMargin,
    candidate: Option<&Batch>,
) -> Result<(), WhatIfFault>
    ensures params { OnOk result (live.new.params ≡ live.old.params) }
    ensures book { OnOk result
        (live.new.book ≡ with_candidate (option_copied candidate.entry) live.old.book) }
    ensures kept { OnOk result (Forgets (candidate_rows (option_copied candidate.entry)
        live.old.book) live.old.kept live.new.kept) }
    ensures none { OnOk result
        (candidate_fault live.old.params (option_copied candidate.entry) live.old.book ≡ None) }
    ensures fault { (fault : Fault) → result ≡ Err fault → (fault ≡ WhatIfFault.Memory)
        ⊎ (candidate_fault live.old.params (option_copied candidate.entry) live.old.book
        ≡ Some fault) }
{
    match candidate {
        Some(batch) => Ok(live.submit(alloc, batch)?),
        None => Ok(()),
    }
}
