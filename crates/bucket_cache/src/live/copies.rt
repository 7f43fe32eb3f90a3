//! A live margin once more, and its margin without each of some trades.
ghost use Rattle.std.specs.Prelude.{◌≡◌, ◌+◌, ◌≤◌, ℕ, map, sum_by, None, Some, Err, IfOk, OnOk};
ghost use Rattle.bucket_cache.specs.Live.{first_unknown};
ghost use Rattle.bucket_cache.specs.Without.{total_without, steps_without};

use super::LiveMargin;
use crate::changing::first_unknown;
use crate::copying::copy_trades;
use crate::fault::WithdrawFault;
use crate::leaving::total_without;
use book_margin::pair_sum::Steps;
use book_margin::simm_kinds::Name;
use book_margin::simm_rules::mh_units::Cents;
use std::alloc::{AllocError, Global};
use std::sync::ledger::Ledger;

impl LiveMargin {
    /// An equal live margin: with these tables and trades, of which the same is kept, and whose
    /// margin is known where it is of these. No row is copied: they stand once for both. It costs
    /// the trades, the keys of the book and what is kept of its buckets.
    ///
    /// # Errors
    ///
    /// For want of memory alone.
    pub fn copy(&self, alloc: Global) -> Result<LiveMargin, AllocError>
        ensures { IfOk result (λ copy. copy ≡ self.now) }
    {
        let params = self.params.share()?;
        let trades = copy_trades(alloc, &self.trades)?;
        let sums = self.sums.copy(alloc)?;
        let kept = self.kept.copy()?;
        Ok(LiveMargin {
            params,
            trades,
            sums,
            kept,
            last: self.last,
        })
    }

    /// For each name the total of the margin without that trade alone, in cents and in the names'
    /// order. It costs one copy of what the rows of the book come to, and for each name its rows,
    /// what is kept of buckets, and the buckets that are worked out: those in which a row of the
    /// trade lies, and those of which nothing is kept.
    ///
    /// # Errors
    ///
    /// `UnknownTrade` exactly where a name is not current, with the place of the first such name,
    /// and `Memory` for want of memory.
    pub fn totals_without<L: Ledger>(
        &self,
        alloc: Global,
        names: &[Name],
        steps: &mut Steps<L>,
    ) -> Result<Vec<Cents>, WithdrawFault>
        ensures known { OnOk result (first_unknown names.now self.now.book ≡ None) }
        ensures totals { IfOk result (λ totals.
            totals.items ≡ map (total_without self.now.params self.now.book) names.now) }
        ensures steps { OnOk result (steps.new ≤ steps.old
            + sum_by (steps_without self.now.params self.now.kept self.now.book) names.now) }
        ensures unknown { (place : ℕ) → result ≡ Err (WithdrawFault.UnknownTrade place) →
            first_unknown names.now self.now.book ≡ Some place }
    {
        if let Some(place) = first_unknown(&self.trades, names) {
            return Err(WithdrawFault::UnknownTrade { place });
        }
        Ok(self.each_without(alloc, names, steps)?)
    }

    // So of names that are current, or not. Want of memory is the only error.
    fn each_without<L: Ledger>(
        &self,
        alloc: Global,
        names: &[Name],
        steps: &mut Steps<L>,
    ) -> Result<Vec<Cents>, AllocError>
        ensures totals { IfOk result (λ totals.
            totals.items ≡ map (total_without self.now.params self.now.book) names.now) }
        ensures steps { OnOk result (steps.new ≤ steps.old
            + sum_by (steps_without self.now.params self.now.kept self.now.book) names.now) }
    {
        let mut sums = self.sums.copy(alloc)?;
        let mut totals = Vec::with_capacity(alloc, names.len())?;
        for name in names {
            let total = total_without(
                alloc,
                &self.params,
                &self.trades,
                &mut sums,
                &self.kept,
                name,
                steps,
            )?;
            totals.push(total)?;
        }
        Ok(totals)
    }
}
