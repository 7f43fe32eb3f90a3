ghost use Rattle.std.specs.Prelude.{◌≡◌, ◌∷◌, ◌++◌, ◌+◌, ◌*◌, ◌<◌, ◌≤◌, ◌^◌, []};
ghost use Rattle.std.specs.Prelude.{length, map, IfOk, OnOk, OnErr, unsigned_abs};
ghost use Rattle.std.specs.Bool.{OnTrue, OnFalse};
ghost use Rattle.collateral_ledger.specs.Holdings.{AreCalls, IsCallAmount};
ghost use Rattle.collateral_ledger.specs.Booked.{total, settled};
ghost use Rattle.collateral_ledger.specs.Changes.{has_call, without_call};

use crate::open_call::OpenCall;
use csa_terms::Flow;
use std::alloc::{AllocError, Global};
use std::collections::BTreeMap;
use std::marker::Model;

/// The calls that are outstanding, each found by its number, how many were ever added, and what is
/// booked for the outstanding ones together.
#[derive(Drop)]
pub struct Calls {
    outstanding: BTreeMap<u32, OpenCall>,
    added: u32,
    settled: i128,
}

impl Model for Calls {
    ghost use Rattle.std.specs.Prelude.{map};
    ghost use Rattle.collateral_ledger.specs.Kept.{Called, AreAdded, call_at};

    ghost Value = { Called };

    ghost view = { λ c. record { calls = map call_at c.outstanding.entries; added = c.added } };

    ghost invariant = { λ c. AreAdded c.added c.settled c.outstanding.entries };
}

impl Calls {
    /// No call. It takes no memory.
    pub fn new(alloc: Global) -> Calls
        ensures { result ≡ record { calls = []; added = 0 } }
    {
        Calls {
            outstanding: BTreeMap::new(alloc),
            added: 0,
            settled: 0,
        }
    }

    /// Adds a call and answers its number: how many were ever added, with this one. For want of
    /// memory nothing changes.
    pub fn add(&mut self, flow: Flow, amount: i64) -> Result<u32, AllocError>
        requires few { self.old.added < 4294967295 }
        requires amount { IsCallAmount amount }
        ensures number { IfOk result (λ number. number ≡ self.old.added + 1) }
        ensures ok { OnOk result (self.new ≡ record {
          calls = self.old.calls ++ record {
            number = self.old.added + 1;
            flow = flow;
            amount = amount;
          } ∷ [];
          added = self.old.added + 1;
        }) }
        ensures err { OnErr result (self.new ≡ self.old) }
    {
        let number = self.added + 1;
        let call = OpenCall::new(flow, amount);
        let settled = call.settled();
        self.outstanding.insert(number, call)?;
        self.added = number;
        self.settled += settled;
        Ok(number)
    }

    /// Takes out the call of this number, and tells whether it was outstanding. It takes no memory.
    pub fn close(&mut self, number: u32) -> bool
        ensures found { result ≡ has_call number self.old.calls }
        ensures closed { OnTrue result
            (self.new ≡ record self.old { calls = without_call number self.old.calls }) }
        ensures unchanged { OnFalse result (self.new ≡ self.old) }
    {
        // The numbers ascend, so they are different.
        let _count = self.outstanding.len();
        let Some(call) = self.outstanding.remove(&number) else {
            return false;
        };
        self.settled -= call.settled();
        true
    }

    /// What is booked for the outstanding calls.
    pub fn settled(&self) -> i128
        ensures value { result ≡ total (map settled self.now.calls) }
        ensures size { unsigned_abs result ≤ 10 ^ 18 * length self.now.calls }
        ensures few { length self.now.calls ≤ self.now.added }
        ensures fits { unsigned_abs result ≤ 2 ^ 126 }
    {
        // There are no more calls than were added.
        let _added = self.added;
        self.settled
    }

    /// What each ledger's calls keep. It does nothing.
    pub fn facts(&self)
        ensures { AreCalls self.now.added self.now.calls }
    {
        // The numbers ascend, so they are different.
        let _count = self.outstanding.len();
    }
}
