ghost use Rattle.std.specs.Prelude.{◌≡◌, IsTrue, if◌then◌else◌};
ghost use Rattle.mh_io.specs.Faults.{IsCount, Rises};
ghost use Rattle.mh_io.specs.Memory.{uncalled, is_due, with_call, with_fault};

use std::marker::Model;

/// The calls of an object over memory: those that are to fail, and a count of calls and of faults.
#[derive(Drop)]
pub(crate) struct Calls {
    failing: Vec<u64>,
    made: u64,
    faults: u64,
}

impl Model for Calls {
    ghost use Rattle.mh_io.specs.Faults.{IsCount};
    ghost use Rattle.mh_io.specs.Memory.{Counted};

    ghost Value = { Counted };

    ghost view = { λ c. record { failing = c.failing.items; made = c.made; faults = c.faults } };

    ghost invariant = { λ c. IsCount c.faults };
}

impl Calls {
    /// No call was made yet. `failing` holds the numbers of those that are to fail; the first call
    /// is number 1.
    pub(crate) fn new(failing: Vec<u64>) -> Self
        ensures { result ≡ uncalled failing.items }
    {
        Calls {
            failing,
            made: 0,
            faults: 0,
        }
    }

    /// Counts a call, and answers whether it is to fail, which is a fault.
    pub(crate) fn next_fails(&mut self) -> bool
        ensures counted { IsCount self.new.faults }
        ensures due { result ≡ is_due self.old }
        ensures after { self.new
            ≡ (if result then with_fault (with_call self.old) else with_call self.old) }
        ensures rises { IsTrue result → Rises self.old.faults self.new.faults }
    {
        self.made = self.made.saturating_add(1);
        let fails = self.failing.contains(&self.made);
        if fails {
            self.count_fault();
        }
        fails
    }

    /// Counts a fault.
    pub(crate) fn count_fault(&mut self)
        ensures counted { IsCount self.new.faults }
        ensures after { self.new ≡ with_fault self.old }
        ensures rises { Rises self.old.faults self.new.faults }
    {
        self.faults = self.faults.saturating_add(1);
    }

    /// The faults that were counted.
    pub(crate) fn faults(&self) -> u64
        ensures { result ≡ self.now.faults }
    {
        self.faults
    }
}
