mod copies;
mod tables;

ghost use Rattle.std.specs.Prelude.{◌≡◌, ◌+◌, ◌^◌, ◌<◌, ◌≤◌, [], length};
ghost use Rattle.std.specs.Prelude.{None, Some, Err, IsOk, IfOk, IfSome, OnOk, OnErr, ℕ};
ghost use Rattle.std.specs.Prelude.{pos, ◌≤ℤ◌, ◌<ℤ◌, true, false, is_some};
ghost use Rattle.std.specs.Option.{option_and_then, option_copied};
ghost use Rattle.book_margin.specs.SimmKinds.Batch.{rows_of};
ghost use Rattle.book_margin.specs.SimmRules.declared.values.RangeFault.{RangeFault as Fault};
ghost use Rattle.book_margin.specs.SimmRules.Range.{range};
ghost use Rattle.book_margin.specs.SimmRules.Simm.{simm};
ghost use Rattle.book_margin.specs.FactorBook.declared.place.Place.{Place as Where};
ghost use Rattle.book_margin.specs.FactorBook.Factors.{factors_of};
ghost use Rattle.book_margin.specs.KeptBuckets.Touched.{Forgets, SameElsewhere};
ghost use Rattle.book_margin.specs.FactorBook.Place.{place_named};
ghost use Rattle.book_margin.specs.KeptBuckets.Kept.{cached_in, AreOfPlaces};
ghost use Rattle.book_margin.specs.KeptBuckets.Dirty.{dirty_in};
ghost use Rattle.book_margin.specs.NegatedBook.Sides.{side_rows};
ghost use Rattle.book_margin.specs.Right.{value_in, Renews};
ghost use Rattle.book_margin.specs.Steps.{steps_due};
ghost use Rattle.bucket_cache.specs.Cached.{IsCached};
ghost use Rattle.bucket_cache.specs.Live.{put_trades, without, named, rows_moved};
ghost use Rattle.bucket_cache.specs.Live.{first_unadmitted, first_unknown, name_at, rows_named};

use crate::admitting::first_unadmitted;
use crate::changing::{distinct_names, first_unknown, keep_others, put_all};
use crate::fault::{BookFault, WithdrawFault};
use crate::held_rows::{HeldRows, hold_trades};
use crate::lending::rows_in;
use crate::margining::margin_of;
use crate::moving::{take_in, take_out};
use crate::sums::Sums;
use book_margin::book_range::{fewer_are_in_range, range_bounds};
use book_margin::factor_book::Place;
use book_margin::kept_buckets::KeptBuckets;
use book_margin::pair_sum::Steps;
use book_margin::simm_kinds::{
    Batch, BucketId, CrifRow, MarginSide, Measure, Name, ProductClass, RiskClass,
};
use book_margin::simm_params::Params;
use book_margin::simm_rules::{Breakdown, BucketMargin};
use book_margin::{BothBreakdowns, kept_values_are_from_scratch, nothing_is_right};
use indexmap::IndexMap;
use std::alloc::{AllocError, Global};
use std::marker::{Brand, Model};
use std::sync::ledger::{Blank, Ledger};

/// The current trades of a netting set in the order in which they came, their rows admitted and
/// their book in range, with the parameters of their margin; what their rows come to; and what is
/// kept of the margins of their buckets and classes. Contracts see the parameters, the book, what
/// is kept, and whether the margin of the book is known.
#[derive(Drop)]
pub struct LiveMargin {
    params: Params,
    trades: IndexMap<Name, HeldRows>,
    sums: Sums,
    kept: KeptBuckets,
    // the margins of the book, where nothing has changed since they were worked out
    last: Option<BothBreakdowns>,
}

impl Model for LiveMargin {
    ghost use Rattle.std.specs.Prelude.{is_some};
    ghost use Rattle.bucket_cache.specs.Live.{Live};
    ghost use Rattle.bucket_cache.specs.Entries.{trades_of};
    ghost use Rattle.bucket_cache.specs.Held.{IsHeld};

    ghost Value = { Live };

    ghost view = { λ l. record {
      params = l.params;
      book = trades_of l.trades.entries;
      kept = l.kept;
      is_fresh = is_some l.last;
    } };

    ghost invariant = { λ l. IsHeld l.params (trades_of l.trades.entries) l.sums l.kept l.last };
}

impl LiveMargin {
    /// A live margin without trades. No value of a bucket is kept, and its margin is known. Want
    /// of memory is the only error.
    pub fn new(alloc: Global, params: Params) -> Result<LiveMargin, AllocError>
        ensures params { IfOk result (λ live. live.params ≡ params) }
        ensures book { IfOk result (λ live. live.book ≡ []) }
        ensures none { IfOk result (λ live. live.kept.values ≡ []) }
        ensures fresh { IfOk result (λ live. live.is_fresh ≡ true) }
    {
        let mut live = LiveMargin::without_margin(alloc, params);
        live.know_margin::<Brand>(alloc, Blank::new(1))?;
        live.facts();
        Ok(live)
    }

    /// Takes a batch in: each trade has just these rows afterwards. A known trade keeps its place,
    /// and the new ones go last in the batch's order. No row is copied: they stand once for the
    /// book and for all that hold the batch. What is kept of a bucket is forgotten where a row
    /// lies in it that the batch adds or replaces, and all else is kept. It costs the rows of the
    /// batch and of the trades that it replaces, each the logarithm of the number of keys; no
    /// other row is looked at.
    ///
    /// # Errors
    ///
    /// `BucketUnknown` exactly where a row is not admitted, with the place of the first such row;
    /// then `Range` exactly where the book afterwards would be out of range, with the first
    /// quantity that is above its limit; and `Memory` for want of memory. Nothing changes then.
    pub fn submit(&mut self, alloc: Global, batch: &Batch) -> Result<(), BookFault>
        ensures admitted { OnOk result (first_unadmitted self.old.params batch.now ≡ None) }
        ensures in_range { OnOk result
            (range self.old.params (rows_of (put_trades batch.now self.old.book)) ≡ None) }
        ensures params { OnOk result (self.new.params ≡ self.old.params) }
        ensures book { OnOk result (self.new.book ≡ put_trades batch.now self.old.book) }
        ensures kept { OnOk result
            (Forgets (rows_moved batch.now self.old.book) self.old.kept self.new.kept) }
        ensures elsewhere { OnOk result (SameElsewhere (rows_moved batch.now self.old.book)
            (factors_of (rows_of self.old.book)) (factors_of (rows_of self.new.book))) }
        ensures stale { OnOk result (self.new.is_fresh ≡ false) }
        ensures unadmitted { (trade row : ℕ) → result ≡ Err (BookFault.BucketUnknown trade row) →
            first_unadmitted self.old.params batch.now
            ≡ Some (record { trade = trade; row = row }) }
        ensures range { (fault : Fault) → result ≡ Err (BookFault.Range fault) →
            range self.old.params (rows_of (put_trades batch.now self.old.book)) ≡ Some fault }
        ensures range_of_admitted { (fault : Fault) → result ≡ Err (BookFault.Range fault) →
            first_unadmitted self.old.params batch.now ≡ None }
        ensures unchanged { OnErr result (self.new ≡ self.old) }
    {
        let trades = batch.trades();
        if let Some(at) = first_unadmitted(&self.params, trades) {
            return Err(BookFault::BucketUnknown {
                trade: at.trade,
                row: at.row,
            });
        }
        let held = hold_trades(alloc, batch)?;
        self.trades.reserve(held.len())?;
        let fault = take_in(
            alloc,
            &self.params,
            &self.trades,
            &mut self.sums,
            &mut self.kept,
            trades,
        )?;
        if let Some(fault) = fault {
            return Err(BookFault::Range(fault));
        }
        put_all(&mut self.trades, held);
        self.last = None;
        Ok(())
    }

    /// Takes trades out. A name that stands twice counts once. What is kept of a bucket is
    /// forgotten where a row of these trades lies in it, and all else is kept.
    ///
    /// # Errors
    ///
    /// `UnknownTrade` exactly where a name is not current, with the place of the first such name,
    /// and `Memory` for want of memory. Nothing changes then.
    pub fn withdraw(&mut self, alloc: Global, names: &[Name]) -> Result<(), WithdrawFault>
        ensures known { OnOk result (first_unknown names.now self.old.book ≡ None) }
        ensures params { OnOk result (self.new.params ≡ self.old.params) }
        ensures book { OnOk result (self.new.book ≡ without names.now self.old.book) }
        ensures kept { OnOk result
            (Forgets (rows_of (named names.now self.old.book)) self.old.kept self.new.kept) }
        ensures elsewhere { OnOk result (SameElsewhere (rows_of (named names.now self.old.book))
            (factors_of (rows_of self.old.book)) (factors_of (rows_of self.new.book))) }
        ensures stale { OnOk result (self.new.is_fresh ≡ false) }
        ensures unknown { (place : ℕ) → result ≡ Err (WithdrawFault.UnknownTrade place) →
            first_unknown names.now self.old.book ≡ Some place }
        ensures unchanged { OnErr result (self.new ≡ self.old) }
    {
        if let Some(place) = first_unknown(&self.trades, names) {
            return Err(WithdrawFault::UnknownTrade { place });
        }
        let named = distinct_names(alloc, names)?;
        take_out(
            alloc,
            &self.params,
            &self.trades,
            &mut self.sums,
            &mut self.kept,
            named.as_slice(),
        )?;
        fewer_are_in_range(&self.params);
        keep_others(&mut self.trades, &named);
        self.last = None;
        Ok(())
    }

    /// The margin of the current trades on a side, with all of its parts: what is posted is the
    /// margin of the negated book. Its total is at least 0 and below 10^21 cents. What of their
    /// buckets and classes is not kept is worked out, for both sides, and all is kept afterwards.
    /// Where the margin is known it is answered without memory and without a step.
    ///
    /// # Errors
    ///
    /// For want of memory alone. The book stands then, and what is kept is right.
    pub fn margin<L: Ledger>(
        &mut self,
        alloc: Global,
        side: MarginSide,
        steps: &mut Steps<L>,
    ) -> Result<Breakdown, AllocError>
        ensures value { IfOk result (λ b.
            b ≡ simm self.old.params (side_rows side (rows_of self.old.book))) }
        ensures total_from { IfOk result (λ b. pos 0 ≤ℤ b.total.0) }
        ensures total_below { IfOk result (λ b. b.total.0 <ℤ pos (10 ^ 21)) }
        ensures params { self.new.params ≡ self.old.params }
        ensures book { self.new.book ≡ self.old.book }
        ensures renewed { Renews self.old.params
            (factors_of (rows_of self.old.book)) self.old.kept self.new.kept }
        ensures all { OnOk result ((place : Where) → IsCached place self.new) }
        ensures fresh { OnOk result (self.new.is_fresh ≡ true) }
        ensures still_stale { OnErr result (self.new.is_fresh ≡ self.old.is_fresh) }
        ensures steps { let p = self.old.params in
            let factors = factors_of (rows_of self.old.book) in
            OnOk result (steps.new + steps_due p self.new.kept factors
            ≤ steps.old + steps_due p self.old.kept factors) }
        ensures at_once { self.old.is_fresh ≡ true → IsOk result }
        ensures as_it_was { self.old.is_fresh ≡ true → self.new ≡ self.old }
        ensures no_step { self.old.is_fresh ≡ true → steps.new ≡ steps.old }
    {
        if let Some(margins) = self.last {
            return Ok(margins.on(side));
        }
        let nameless = Name::empty(alloc);
        let parameters = rows_in(&self.trades, &nameless);
        let margins = margin_of(
            alloc,
            &self.params,
            &self.sums,
            parameters,
            &mut self.kept,
            steps,
        )?;
        self.last = Some(margins);
        Ok(margins.on(side))
    }

    /// What is kept of a bucket in a measure: its value by the written rule over the book, or
    /// `None`; always `None` in a measure that the bucket has not. It takes no memory, like all
    /// that follow.
    pub fn cached(
        &self,
        product: ProductClass,
        class: RiskClass,
        measure: Measure,
        bucket: BucketId,
    ) -> Option<BucketMargin>
        ensures kept { result ≡ option_and_then (λ place. cached_in self.now.kept place measure)
            (place_named product class measure bucket) }
        ensures right { IfSome result (λ value. Some value ≡ option_and_then
            (λ place. value_in self.now.params (factors_of (rows_of self.now.book)) place measure)
            (place_named product class measure bucket)) }
    {
        kept_values_are_from_scratch();
        match Place::read(product, class, measure, bucket) {
            Some(place) => self.kept.cached(&place, measure),
            None => None,
        }
    }

    /// How many values of buckets that have a row are not kept, measure by measure.
    pub fn dirty_count(&self) -> u32
        ensures { result ≡ dirty_in self.now.kept (factors_of (rows_of self.now.book)) }
    {
        range_bounds(&self.params);
        self.kept.dirty_count(&self.sums.factors)
    }

    /// Whether the margin of the book is known: no batch, no withdrawal and no replacement of
    /// tables was accepted since it was last answered, or since the live margin was made.
    pub fn is_fresh(&self) -> bool
        ensures { result ≡ self.now.is_fresh }
    {
        self.last.is_some()
    }

    /// How many trades are current.
    pub fn trade_count(&self) -> u32
        ensures { result ≡ length self.now.book }
    {
        self.trades.len() as u32
    }

    /// The name of the trade at a place, from 1, in the order of the book; `None` where there
    /// is none.
    pub fn trade_at(&self, place: u32) -> Option<&Name>
        ensures { option_copied result ≡ name_at self.now.book place }
    {
        let index = place.checked_sub(1)?;
        let (name, _rows) = self.trades.get_index(index as usize)?;
        Some(name)
    }

    /// The rows of a trade; `None` where it is not current.
    pub fn rows_of(&self, name: &Name) -> Option<&[CrifRow]>
        ensures { option_copied result ≡ rows_named self.now.book name.now }
    {
        let rows = self.trades.get(name)?;
        Some(rows.as_slice())
    }

    // Works the margin out, whose steps are counted in a ledger of their own. Want of memory is
    // the only error.
    fn know_margin<L: Ledger>(&mut self, alloc: Global, blank: Blank) -> Result<(), AllocError>
        requires name { blank.name ≡ L.name }
        requires parts { blank.parts ≡ L.parts }
        requires some { 0 < blank.parts }
        ensures params { self.new.params ≡ self.old.params }
        ensures book { self.new.book ≡ self.old.book }
        ensures renewed { Renews self.old.params
            (factors_of (rows_of self.old.book)) self.old.kept self.new.kept }
        ensures fresh { OnOk result (self.new.is_fresh ≡ true) }
    {
        let mut steps = Steps::<L>::new(blank);
        self.margin(alloc, MarginSide::Collect, &mut steps)?;
        Ok(())
    }

    // Does nothing: what is always so of what is kept.
    fn facts(&self)
        ensures { AreOfPlaces self.now.kept.values }
    {
        self.kept.facts();
    }

    // A live margin without trades, of which nothing is kept. It takes no memory.
    fn without_margin(alloc: Global, params: Params) -> LiveMargin
        ensures params { result.params ≡ params }
        ensures book { result.book ≡ [] }
    {
        nothing_is_right();
        let trades = IndexMap::new(alloc);
        let sums = Sums::new(alloc);
        let kept = KeptBuckets::new(alloc);
        LiveMargin {
            params,
            trades,
            sums,
            kept,
            last: None,
        }
    }
}
