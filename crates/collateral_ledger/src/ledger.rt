ghost use Rattle.std.specs.Prelude.{◌≡◌, ◌∷◌, ◌++◌, ◌+◌, ◌*◌, ◌<◌, ◌≤◌, ◌^◌, [], length};
ghost use Rattle.std.specs.Prelude.{None, Some, IfOk, OnOk, OnErr, MatchResult, unsigned_abs};
ghost use Rattle.collateral_ledger.specs.Holdings.{IsCallAmount, IsLedger};
ghost use Rattle.collateral_ledger.specs.Booked.{booked_of, rate_of};
ghost use Rattle.collateral_ledger.specs.Changes.{without_call, without_lot, with_value};
ghost use Rattle.collateral_ledger.specs.Refusals.{IsCause, close_refusal, is_lot_value};
ghost use Rattle.collateral_ledger.specs.Refusals.{mark_refusal, put_refusal, take_refusal};

use crate::LedgerFault;
use crate::calls::Calls;
use crate::lots::Lots;
use crate::rates::rate_for;
use csa_terms::mh_units::Rate4;
use csa_terms::simm_kinds::Name;
use csa_terms::{Flow, LotCurrency, SetTerms};
use std::alloc::{AllocError, Global};
use std::marker::Model;

/// How many lots there are at most.
const MOST_LOTS: u32 = 4096;

/// The greatest value of a lot, in cents.
const GREATEST_VALUE: i64 = 1_000_000_000_000_000;

/// The collateral ledger of a netting set: the lots that are held under its terms, in the order in
/// which they were put, and the calls that are outstanding, in the order of their numbers. There
/// are 0 to 4,096 lots of different names, each with a value of 0 to 10^15 cents and the rate of
/// what counts of it, which was looked up when it was put. Contracts see the plain record.
///
/// To put, mark or take a lot costs O(log n) steps for n lots, and to add or close a call O(log n)
/// for n calls. What is booked for them is kept, so that to ask for it costs the same however many
/// there are.
#[derive(Drop)]
pub struct Ledger {
    terms: SetTerms,
    lots: Lots,
    calls: Calls,
}

impl Model for Ledger {
    ghost use Rattle.collateral_ledger.specs.Holdings.{Holdings};

    ghost Value = { Holdings };

    ghost view = { λ l.
        record { terms = l.terms; lots = l.lots; calls = l.calls.calls; added = l.calls.added } };
}

impl Ledger {
    /// A ledger with no lots and no calls. It takes no memory.
    pub fn new(alloc: Global, terms: SetTerms) -> Ledger
        ensures { result ≡ record { terms = terms; lots = []; calls = []; added = 0 } }
    {
        Ledger {
            terms,
            lots: Lots::new(alloc),
            calls: Calls::new(alloc),
        }
    }

    /// What each ledger keeps. It does nothing.
    pub fn facts(&self)
        ensures { IsLedger self.now }
    {
        self.lots.facts();
        self.calls.facts();
    }

    /// Lends the terms. It takes no memory.
    pub fn terms(&self) -> &SetTerms
        ensures { result.now ≡ self.now.terms }
    {
        &self.terms
    }

    /// Puts a lot of a class, with its value in cents, in the agreement's currency or another.
    ///
    /// It is refused, in this order, as LotKnown where a lot of this name is there, ClassUnknown
    /// where the terms have no haircut for the class, LotRange where the value is below 0 or above
    /// 10^15, and LotsFull where 4,096 lots are there. Memory comes last, and also where 2^64 - 1
    /// lots were ever put. After each of these the ledger is unchanged.
    pub fn put_lot(
        &mut self,
        alloc: Global,
        lot: &Name,
        class: &Name,
        value: i64,
        currency: LotCurrency,
    ) -> Result<(), LedgerFault>
        ensures answer { let refusal = put_refusal self.old lot.now class.now value in
            MatchResult result (λ _. refusal ≡ None) (IsCause refusal) }
        ensures ok { OnOk result (self.new ≡ record self.old {
          lots = self.old.lots ++ record {
            name = lot.now;
            value = value;
            rate = rate_of self.old.terms class.now currency;
          } ∷ [];
        }) }
        ensures err { OnErr result (self.new ≡ self.old) }
    {
        let rate = self.rate_to_put(lot, class, value, currency)?;
        self.lots.push(lot.copy(alloc)?, value, rate)?;
        Ok(())
    }

    /// Takes a lot out. It is refused as LotUnknown where no lot of this name is there, and then
    /// the ledger is unchanged. It takes no memory.
    pub fn take_lot(&mut self, lot: &Name) -> Result<(), LedgerFault>
        ensures answer { let refusal = take_refusal self.old lot.now in
            MatchResult result (λ _. refusal ≡ None) (λ fault. refusal ≡ Some fault) }
        ensures ok { OnOk result
            (self.new ≡ record self.old { lots = without_lot lot.now self.old.lots }) }
        ensures err { OnErr result (self.new ≡ self.old) }
    {
        if self.lots.remove(lot) {
            Ok(())
        } else {
            Err(LedgerFault::LotUnknown)
        }
    }

    /// Gives a lot another value, in cents. It is refused as LotUnknown where no lot of this name
    /// is there, and then as LotRange where the value is below 0 or above 10^15. After these the
    /// ledger is unchanged. It takes no memory.
    pub fn mark_lot(&mut self, lot: &Name, value: i64) -> Result<(), LedgerFault>
        ensures answer { let refusal = mark_refusal self.old lot.now value in
            MatchResult result (λ _. refusal ≡ None) (λ fault. refusal ≡ Some fault) }
        ensures ok { OnOk result
            (self.new ≡ record self.old { lots = with_value lot.now value self.old.lots }) }
        ensures err { OnErr result (self.new ≡ self.old) }
    {
        if !self.lots.has(lot) {
            return Err(LedgerFault::LotUnknown);
        }
        if !is_lot_value(value) {
            return Err(LedgerFault::LotRange(value));
        }
        self.lots.set_value(lot, value);
        Ok(())
    }

    /// Adds a call of 1 to 10^18 cents, and answers its number: how many calls were ever added,
    /// with this one, which are 4,294,967,295 at most. For want of memory nothing changes.
    pub fn add_call(&mut self, flow: Flow, amount: i64) -> Result<u32, AllocError>
        requires few { self.old.added < 4294967295 }
        requires amount { IsCallAmount amount }
        ensures number { IfOk result (λ number. number ≡ self.old.added + 1) }
        ensures ok { OnOk result (self.new ≡ record self.old {
          calls = self.old.calls ++ record {
            number = self.old.added + 1;
            flow = flow;
            amount = amount;
          } ∷ [];
          added = self.old.added + 1;
        }) }
        ensures err { OnErr result (self.new ≡ self.old) }
    {
        self.calls.add(flow, amount)
    }

    /// Closes a call, as it was settled. It is refused as CallUnknown where no outstanding call
    /// has the number, and then the ledger is unchanged. It takes no memory.
    pub fn close_call(&mut self, number: u32) -> Result<(), LedgerFault>
        ensures answer { let refusal = close_refusal self.old number in
            MatchResult result (λ _. refusal ≡ None) (λ fault. refusal ≡ Some fault) }
        ensures ok { OnOk result
            (self.new ≡ record self.old { calls = without_call number self.old.calls }) }
        ensures err { OnErr result (self.new ≡ self.old) }
    {
        if self.calls.close(number) {
            Ok(())
        } else {
            Err(LedgerFault::CallUnknown)
        }
    }

    /// What is booked, in cents: what the lots count for, with the outstanding deliveries, less
    /// the outstanding returns; so it may be below 0. Its size is at most 4,096 times the greatest
    /// value of a lot, and 10^18 for each outstanding call, of which there are no more than were
    /// ever added. It is kept, and not added up anew. It takes no memory.
    pub fn booked(&self) -> i128
        ensures value { result ≡ booked_of self.now }
        ensures size { unsigned_abs result ≤ 4096 * 10 ^ 15 + 10 ^ 18 * length self.now.calls }
        ensures few { length self.now.calls ≤ self.now.added }
    {
        self.lots.counted() + self.calls.settled()
    }

    /// Tests a lot that is to be put, and answers what counts of each dollar of it.
    fn rate_to_put(
        &self,
        lot: &Name,
        class: &Name,
        value: i64,
        currency: LotCurrency,
    ) -> Result<Rate4, LedgerFault>
        ensures answer { let refusal = put_refusal self.now lot.now class.now value in
            MatchResult result (λ _. refusal ≡ None) (λ fault. refusal ≡ Some fault) }
        ensures rate { IfOk result (λ rate. rate.0 ≡ rate_of self.now.terms class.now currency) }
        ensures size { IfOk result (λ rate. unsigned_abs rate.0 ≤ 10000) }
    {
        if self.lots.has(lot) {
            return Err(LedgerFault::LotKnown);
        }
        let Some(rate) = rate_for(&self.terms, class, currency) else {
            return Err(LedgerFault::ClassUnknown);
        };
        if !is_lot_value(value) {
            return Err(LedgerFault::LotRange(value));
        }
        if self.lots.len() >= MOST_LOTS as usize {
            return Err(LedgerFault::LotsFull(MOST_LOTS));
        }
        Ok(rate)
    }
}

fn is_lot_value(value: i64) -> bool
    ensures { result ≡ is_lot_value value }
{
    (0..=GREATEST_VALUE).contains(&value)
}
