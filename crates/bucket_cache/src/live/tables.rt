//! The tables of a live margin, and other ones in their place.
ghost use Rattle.std.specs.Prelude.{◌≡◌, ℕ, [], None, Some, Err, OnOk, OnErr, false};
ghost use Rattle.book_margin.specs.SimmKinds.Batch.{rows_of};
ghost use Rattle.book_margin.specs.SimmRules.declared.values.RangeFault.{RangeFault as Fault};
ghost use Rattle.book_margin.specs.SimmRules.Range.{range};
ghost use Rattle.bucket_cache.specs.Live.{first_unadmitted};

use super::LiveMargin;
use crate::fault::BookFault;
use crate::replacing::{first_unadmitted_now, sizes_now};
use book_margin::book_range::range_fault;
use book_margin::kept_buckets::KeptBuckets;
use book_margin::nothing_is_right;
use book_margin::simm_params::Params;
use std::alloc::Global;

impl LiveMargin {
    /// Puts other tables in the place of those that the margin is worked out by. The book stands,
    /// no value of a bucket is kept, and the margin is not known. It costs one walk over the rows
    /// of the book and one over its keys, and copies neither rows nor tables.
    ///
    /// # Errors
    ///
    /// `BucketUnknown` exactly where these tables don't admit a row of the book, with the place of
    /// the first such row; then `Range` exactly where the book would be out of range by them, with
    /// the first quantity that is above its limit; and `Memory` for want of memory. Nothing
    /// changes then.
    pub fn replace_tables(&mut self, alloc: Global, params: &Params) -> Result<(), BookFault>
        // the tables are those of the book from now on
        ensures admitted { OnOk result (first_unadmitted params.now self.old.book ≡ None) }
        ensures in_range { OnOk result (range params.now (rows_of self.old.book) ≡ None) }
        ensures params { OnOk result (self.new.params ≡ params.now) }
        ensures book { OnOk result (self.new.book ≡ self.old.book) }
        ensures none { OnOk result (self.new.kept.values ≡ []) }
        ensures stale { OnOk result (self.new.is_fresh ≡ false) }

        // or they are refused
        ensures unadmitted { (trade row : ℕ) → result ≡ Err (BookFault.BucketUnknown trade row) →
            first_unadmitted params.now self.old.book ≡ Some (record { trade = trade; row = row }) }
        ensures range { (fault : Fault) → result ≡ Err (BookFault.Range fault) →
            range params.now (rows_of self.old.book) ≡ Some fault }
        ensures range_of_admitted { (fault : Fault) → result ≡ Err (BookFault.Range fault) →
            first_unadmitted params.now self.old.book ≡ None }
        ensures unchanged { OnErr result (self.new ≡ self.old) }
    {
        if let Some(at) = first_unadmitted_now(params, &self.trades) {
            return Err(BookFault::BucketUnknown {
                trade: at.trade,
                row: at.row,
            });
        }
        if let Some(fault) = range_fault(params, &self.sums.factors, self.sums.rows) {
            return Err(BookFault::Range(fault));
        }
        let params = params.share()?;
        nothing_is_right();
        self.sums.sizes = sizes_now(&params, &self.trades);
        self.kept = KeptBuckets::new(alloc);
        self.params = params;
        self.last = None;
        Ok(())
    }

    /// Lends the tables that the margin is worked out by. It takes no memory.
    pub fn tables(&self) -> &Params
        ensures { result.now ≡ self.now.params }
    {
        &self.params
    }
}
