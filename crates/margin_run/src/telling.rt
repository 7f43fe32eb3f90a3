//! The desks are told the calls of a run.
ghost use Rattle.std.specs.Prelude.{◌≡◌, ◌<◌, ◌≤◌, ◌^◌, ◌++◌, List, length, IfOk, OnOk, OnErr};
ghost use Rattle.std.specs.Vec.{vec_len};
ghost use Rattle.call_desk.specs.Publish.{Outcome, Publishes};
ghost use Rattle.margin_run.specs.Notices.{notices_by, set_notices, notices};

use call_desk::{Desk, Notice, Published, publish};
use csa_terms::simm_kinds::{MarginSide, Name};
use feed_gate::set_core::{Entry, Event, Reply, SetState};
use std::alloc::{AllocError, Global};

/// Adds the notice of an entry in the set of this name, where it made a call of what the set
/// collects. A call of what it posts is the other side's demand.
fn push_notice(
    alloc: Global,
    notices: &mut Vec<Notice>,
    set: &Name,
    entry: &Entry,
) -> Result<(), AllocError>
    ensures { OnOk result (notices.new.items
        ≡ notices.old.items ++ notices_by set.now entry.now.event entry.now.reply) }
{
    let Event::OnSide { side, .. } = &entry.event else {
        return Ok(());
    };
    if let (MarginSide::Collect, Reply::Called(note)) = (*side, &entry.reply) {
        let notice = Notice {
            set: set.copy(alloc)?,
            number: note.number,
            flow: note.flow,
            amount: note.amount,
            due: note.due,
        };
        notices.push(notice)?;
    }
    Ok(())
}

/// Adds the notices of a set, of which there are at most as many as its journal has entries.
fn push_notices(alloc: Global, notices: &mut Vec<Notice>, set: &SetState) -> Result<(), AllocError>
    ensures added { OnOk result (notices.new.items ≡ notices.old.items ++ set_notices set.now) }
    ensures few { length (set_notices set.now) ≤ 65535 }
{
    set.facts();
    for index in 0..set.entries() {
        if let Some(entry) = set.entry(index + 1) {
            push_notice(alloc, notices, set.name(), entry)?;
        }
    }
    Ok(())
}

/// The notices of the sets, set after set.
fn notices_of(alloc: Global, sets: &[SetState]) -> Result<Vec<Notice>, AllocError>
    requires { length sets.now ≤ 16 }
    ensures notices { IfOk result (λ made. made.items ≡ notices sets.now) }
    ensures few { IfOk result (λ made. vec_len made < 2 ^ 32) }
{
    let mut notices = Vec::new(alloc);
    for set in sets {
        push_notices(alloc, &mut notices, set)?;
    }
    Ok(notices)
}

/// Tells each desk the notices of the sets, as `publish` does.
///
/// # Errors
///
/// For want of memory alone; then no desk was told anything, and none was retired.
pub(crate) fn tell_desks(
    alloc: Global,
    desks: &mut Vec<Box<dyn Desk>>,
    retired: &mut Vec<Box<dyn Desk>>,
    sets: &[SetState],
) -> Result<Published, AllocError>
    requires few_desks { vec_len desks.old < 2 ^ 32 }
    requires few_sets { length sets.now ≤ 16 }
    ensures told { IfOk result (λ published.
        (outcomes : List (Outcome _)) × Publishes (λ desk. seen desk) (notices sets.now)
        desks.old.items desks.new.items retired.old.items retired.new.items published outcomes) }
    ensures desks_stand { OnErr result (desks.new.items ≡ desks.old.items) }
    ensures retired_stand { OnErr result (retired.new.items ≡ retired.old.items) }
{
    let notices = notices_of(alloc, sets)?;
    publish(desks, retired, &notices)
}
