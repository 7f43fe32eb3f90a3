ghost use Rattle.std.specs.Prelude.{◌≡◌, ◌+◌, ◌<◌, ◌≤◌, ◌^◌, List, [], length, IfOk, OnErr};
ghost use Rattle.std.specs.Vec.{vec_len, vec_capacity};
ghost use Rattle.call_desk.specs.Desk.{Tells, TellsAll};
ghost use Rattle.call_desk.specs.Publish.{Outcome, Publishes, with_run};

use crate::desk::Desk;
use crate::fault::DeskFault;
use crate::notice::Notice;
use std::alloc::AllocError;
use std::mem;

/// What came of the notices.
#[derive(Clone, Copy, PartialEq, Eq)]
pub struct Published {
    /// How many notices were taken, over all desks.
    pub told: u64,
    /// How many desks were retired for a fault.
    pub failed: u32,
    /// How many desks were retired for want of memory.
    pub memory: u32,
}

/// How many notices a desk was told, and the fault that ended them.
#[derive(Clone, Copy)]
struct Told {
    notices: u32,
    fault: Option<DeskFault>,
}

impl Published {
    /// What came of one desk more.
    fn with(self, run: Told) -> Published
        requires told { self.told + run.notices < 2 ^ 64 }
        requires failed { self.failed + 1 < 2 ^ 32 }
        requires memory { self.memory + 1 < 2 ^ 32 }
        ensures { result ≡ with_run self run.notices run.fault }
    {
        let told = self.told + u64::from(run.notices);
        match run.fault {
            None => Published { told, ..self },
            Some(DeskFault::Failed) => Published {
                told,
                failed: self.failed + 1,
                ..self
            },
            Some(DeskFault::Memory) => Published {
                told,
                memory: self.memory + 1,
                ..self
            },
        }
    }
}

/// Tells a desk one notice.
fn tell_one(desk: &mut Box<dyn Desk>, notice: &Notice) -> Result<(), DeskFault>
    ensures { Tells (seen desk.old) (seen desk.new) notice.now result }
{
    desk.tell(notice)
}

/// Tells a desk the notices in order, up to its first fault.
fn tell_all(desk: &mut Box<dyn Desk>, notices: &[Notice]) -> Told
    requires { length notices.now < 2 ^ 32 }
    ensures { TellsAll (seen desk.old) (seen desk.new) notices.now result.notices result.fault }
{
    let mut told = 0;
    for notice in notices {
        if let Err(fault) = tell_one(desk, notice) {
            return Told {
                notices: told,
                fault: Some(fault),
            };
        }
        told += 1;
    }
    Told {
        notices: told,
        fault: None,
    }
}

/// Tells each desk the notices in order, up to its first fault: a desk without a fault goes to the
/// end of `staying`, the others to the end of `retired`. It takes no memory.
fn tell_each(
    desks: Vec<Box<dyn Desk>>,
    staying: &mut Vec<Box<dyn Desk>>,
    retired: &mut Vec<Box<dyn Desk>>,
    notices: &[Notice],
) -> Published
    requires few_desks { vec_len desks < 2 ^ 32 }
    requires few_notices { length notices.now < 2 ^ 32 }
    requires none { staying.old.items ≡ [] }
    requires room { vec_len desks ≤ vec_capacity staying.old }
    requires retired_room { vec_len retired.old + vec_len desks ≤ vec_capacity retired.old }
    ensures { (outcomes : List (Outcome _)) × Publishes (λ desk. seen desk) notices.now desks.items
        staying.new.items retired.old.items retired.new.items result outcomes }
{
    let mut published = Published {
        told: 0,
        failed: 0,
        memory: 0,
    };
    for mut desk in desks {
        let run = tell_all(&mut desk, notices);
        published = published.with(run);
        match run.fault {
            None => staying.push(desk).unwrap(),
            Some(_) => retired.push(desk).unwrap(),
        }
    }
    published
}

/// Tells each desk the notices in order. A desk that answers a fault is told nothing more and is
/// moved to the end of `retired`; the others keep their order. The caller drops what is retired.
/// Room for all desks is taken first, once among the retired and once for those that stay.
///
/// # Errors
///
/// Want of memory is answered before any desk is told; then nothing has changed.
pub fn publish(
    desks: &mut Vec<Box<dyn Desk>>,
    retired: &mut Vec<Box<dyn Desk>>,
    notices: &[Notice],
) -> Result<Published, AllocError>
    requires few_desks { vec_len desks.old < 2 ^ 32 }
    requires few_notices { length notices.now < 2 ^ 32 }
    ensures ok { IfOk result (λ published.
        (outcomes : List (Outcome _)) × Publishes (λ desk. seen desk) notices.now desks.old.items
        desks.new.items retired.old.items retired.new.items published outcomes) }
    ensures desks_stand { OnErr result (desks.new.items ≡ desks.old.items) }
    ensures retired_stand { OnErr result (retired.new.items ≡ retired.old.items) }
{
    let staying = Vec::with_capacity(*desks.allocator(), desks.len())?;
    retired.reserve(desks.len())?;
    let told = mem::replace(desks, staying);
    Ok(tell_each(told, desks, retired, notices))
}
