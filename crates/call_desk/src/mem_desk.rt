ghost use Rattle.std.specs.Prelude.{◌≡◌, [], ◌∷◌, ◌++◌, Some};
ghost use Rattle.std.specs.Prelude.{false, length, option_map, OnOk, OnErr};
ghost use Rattle.call_desk.specs.Desk.{Tells};
ghost use Rattle.call_desk.specs.Memory.{uncalled, memory_seen, is_failing};
ghost use Rattle.call_desk.specs.Memory.{has_failed, is_wanting, after_tell};

use crate::desk::Desk;
use crate::fault::DeskFault;
use crate::notice::Notice;
use std::alloc::AllocError;
use std::marker::Model;

/// A desk over memory, for tests: it keeps the notices that it was told, and fails or finds no
/// memory at the calls that it was told to.
#[derive(Drop)]
pub struct MemDesk {
    told: Vec<Notice>,
    failing: Vec<u64>,
    wanting: Vec<u64>,
    calls: u64,
    faults: u64,
    wants: u64,
}

impl Model for MemDesk {
    ghost use Rattle.call_desk.specs.Memory.{MemoryDesk};

    ghost Value = { MemoryDesk };

    ghost view = { λ d. record {
      told = d.told.items;
      failing = d.failing.items;
      wanting = d.wanting.items;
      calls = d.calls;
      faults = d.faults;
      wants = d.wants;
    } };
}

impl MemDesk {
    /// A desk that was told nothing. `failing` holds the numbers of the calls that are to
    /// fail, `wanting` of those that are to find no memory; the first call is number 1. It
    /// takes no memory.
    pub fn new(failing: Vec<u64>, wanting: Vec<u64>) -> MemDesk
        ensures { result ≡ uncalled failing.items wanting.items }
    {
        let alloc = *failing.allocator();
        MemDesk {
            told: Vec::new(alloc),
            failing,
            wanting,
            calls: 0,
            faults: 0,
            wants: 0,
        }
    }
}

/// Adds a copy of a notice. For want of memory nothing changes.
fn keep(told: &mut Vec<Notice>, notice: &Notice) -> Result<(), AllocError>
    ensures ok { OnOk result (told.new.items ≡ told.old.items ++ notice.now ∷ []) }
    ensures err { OnErr result (told.new.items ≡ told.old.items) }
{
    let copy = notice.copy(*told.allocator())?;
    told.push(copy)?;
    Ok(())
}

impl Desk for MemDesk {
    ghost use Rattle.call_desk.specs.Memory.{memory_seen};

    ghost seen = { memory_seen };

    /// It fails exactly at the calls that are to fail. Of the others those that are to find no
    /// memory find none.
    fn tell(&mut self, notice: &Notice) -> Result<(), DeskFault>
        ensures tells { Tells (memory_seen self.old) (memory_seen self.new) notice.now result }
        ensures fails { has_failed result ≡ is_failing self.old }
        ensures wants { OnOk result (is_wanting self.old ≡ false) }
        ensures after { self.new ≡ after_tell result notice.now self.old }
    {
        self.calls = self.calls.saturating_add(1);
        if self.failing.contains(&self.calls) {
            self.faults = self.faults.saturating_add(1);
            return Err(DeskFault::Failed);
        }
        if self.wanting.contains(&self.calls) || keep(&mut self.told, notice).is_err() {
            self.wants = self.wants.saturating_add(1);
            return Err(DeskFault::Memory);
        }
        Ok(())
    }

    fn tellings(&self) -> u64
        ensures { result ≡ length self.now.told }
    {
        self.told.len() as u64
    }

    fn told_list(&self) -> Option<&[Notice]>
        ensures { option_map (λ list. list.now) result ≡ Some self.now.told }
    {
        Some(self.told.as_slice())
    }
}
