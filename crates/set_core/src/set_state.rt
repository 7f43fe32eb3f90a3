ghost use Rattle.std.specs.Prelude.{◌≡◌, ◌<◌, true, false, length, max};
ghost use Rattle.std.specs.Prelude.{None, Some, IfOk, IfErr, OnOk, OnErr};
ghost use Rattle.std.specs.Option.{option_copied};
ghost use Rattle.bucket_cache.specs.FactorBook.declared.place.Place.{Place};
ghost use Rattle.bucket_cache.specs.Cached.{IsCached};
ghost use Rattle.collateral_ledger.specs.CsaTerms.Terms.{IsOneSet};
ghost use Rattle.set_core.specs.Book.{book};
ghost use Rattle.set_core.specs.Sides.{terms_on};
ghost use Rattle.set_core.specs.Tables.{tables};
ghost use Rattle.set_core.specs.Cached.{is_margin_known, is_value_known};
ghost use Rattle.held_cell.specs.Halts.{Explains};
ghost use Rattle.set_core.specs.Room.{journal_rows, event_rows, is_full_for, IsFull};
ghost use Rattle.set_core.specs.Reserved.{is_reserved, is_want};
ghost use Rattle.set_core.specs.Set.{IsSet, IsAnswered, Leaves, start, entry_at};

use crate::answering::answer_twice;
use crate::ledgers::Ledgers;
use crate::put_by::PutBy;
use crate::{Entry, Event, Halt, Reply};
use bucket_cache::LiveMargin;
use bucket_cache::simm_params::Params;
use collateral_ledger::csa_terms::{BothTerms, SetTerms};
use collateral_ledger::simm_kinds::{MarginSide, Name};
use std::alloc::{AllocError, Global};
use std::marker::Model;

/// A netting set: what it works on, its current trades, the lots and outstanding calls of both
/// sides of the margin, and the journal of its calls. Contracts see the tables that it opened
/// with, the terms of both sides, the journal, for how many entries more room was put by, and of
/// what is kept of its margin whether it is known and the values of buckets; all else is the
/// written rule over the journal. It keeps the allocator that it was made with.
#[derive(Drop)]
pub struct SetState {
    alloc: Global,
    // those that it opened with
    params: Params,
    live: LiveMargin,
    ledgers: Ledgers,
    journal: Vec<Entry>,
    rows: u32,
    // for how many entries room was put by, and that for the parts of their margins
    spare: u32,
    put_by: PutBy,
}

impl Model for SetState {
    ghost use Rattle.set_core.specs.Set.{Set, IsSet};
    ghost use Rattle.set_core.specs.Kept.{IsKept};
    ghost use Rattle.set_core.specs.Cached.{AreCached};
    ghost use Rattle.set_core.specs.Ledger.{terms_of};
    ghost use Rattle.set_core.specs.Live.{traded};
    ghost use Rattle.std.specs.Prelude.{vec_len, vec_capacity};
    ghost use Rattle.set_core.specs.Reserved.{HasRoom};

    ghost Value = { Set };

    ghost view = { λ s. record {
      params = s.params;
      terms = terms_of s.ledgers;
      journal = s.journal.items;
      is_fresh = s.live.is_fresh;
      kept = s.live.kept.values;
      spare = s.spare;
    } };

    ghost invariant = { λ s. IsKept s.params (traded s.live) s.ledgers s.rows s.journal.items
        × AreCached s.live s.journal.items
        × HasRoom s.spare s.put_by (vec_len s.journal) (vec_capacity s.journal) };
}

/// How many entries a journal has at most.
const MOST_ENTRIES: usize = 65_535;

/// How many rows the submits of a journal have at most, refused ones too; tables count as 10,000.
const MOST_ROWS: usize = 500_000;

impl SetState {
    /// A set without trades, with an empty journal. No value of a bucket is kept, and its margin
    /// is known.
    ///
    /// # Errors
    ///
    /// For want of memory alone.
    pub fn new(alloc: Global, params: Params, terms: BothTerms) -> Result<SetState, AllocError>
        ensures { IfOk result (λ set. set ≡ start params terms) }
    {
        terms.facts();
        let opened = params.share()?;
        let live = LiveMargin::new(alloc, opened)?;
        Ok(SetState {
            alloc,
            params,
            live,
            ledgers: Ledgers::new(alloc, terms),
            journal: Vec::new(alloc),
            rows: 0,
            spare: 0,
            put_by: PutBy::new(alloc),
        })
    }

    /// Answers an event by the written rule over the journal so far, and adds it to the journal
    /// with its reply. An event that is refused changes nothing else. Of the values of buckets
    /// that are kept an accepted batch or withdrawal forgets just those of the buckets in which a
    /// row lies that it adds, replaces or removes, and tables that are accepted forget all; after
    /// a question that is answered the value of each bucket is kept in which a row lies.
    ///
    /// # Errors
    ///
    /// `Full` exactly where the journal has 65,535 entries, or its rows and the event's are more
    /// than 500,000; it shows the journal's entries and, as its weight, its rows. This is tested
    /// first, and takes no memory. `Memory` for want of memory where the journal had room. Then
    /// the set stands, and the event comes back; of its margin more may be kept than before, after
    /// `Memory` alone.
    pub fn apply(&mut self, caller: u32, event: Event) -> Result<Reply, Halt<Event>>
        ensures answered { IfOk result (IsAnswered self.old self.new caller event) }
        ensures halt { IfErr result (Explains journal_rows IsFull self.old.journal event) }
        ensures unchanged { IfErr result (Leaves self.old self.new) }
        ensures reserved { 0 < self.old.spare → is_reserved self.old.journal event ≡ true
            → IfErr result (λ halt. is_want halt ≡ false) }
    {
        event.facts();
        let rows = event.row_count();
        if self.is_full(rows) {
            return Err(Halt::Full {
                entries: self.entries(),
                weight: self.rows,
                event,
            });
        }
        if self.journal.reserve(1).is_err() {
            return Err(Halt::Memory { event });
        }
        let answers = answer_twice(
            self.alloc,
            &mut self.live,
            &mut self.ledgers,
            &mut self.put_by,
            &event,
        );
        let Ok((reply, kept)) = answers else {
            return Err(Halt::Memory { event });
        };
        self.rows += rows as u32;
        self.spare = self.spare.saturating_sub(1);
        self.journal.push_reserved(Entry {
            caller,
            event,
            reply: kept,
        });
        Ok(reply)
    }

    /// Puts room by for this many entries at least. While there is any, of which each event that
    /// is answered takes one entry's, no event is answered want of memory that takes or marks a
    /// lot, closes a call, or asks the margin where no accepted event changed trades or tables
    /// since it was last answered, or since the set was made.
    ///
    /// # Errors
    ///
    /// For want of memory alone. Then the set stands.
    pub fn reserve_entries(&mut self, count: u32) -> Result<(), AllocError>
        ensures room { OnOk result
            (self.new ≡ record self.old { spare = max self.old.spare count }) }
        ensures unchanged { OnErr result (self.new ≡ self.old) }
    {
        self.journal.reserve(count as usize)?;
        self.put_by.grow(self.alloc, 2 * count as usize)?;
        self.spare = self.spare.max(count);
        Ok(())
    }

    /// What each set keeps: its journal is legal, and within its limits, and the terms of both
    /// sides are of one set. It does nothing.
    pub fn facts(&self)
        ensures set { IsSet self.now.params self.now.terms self.now.journal }
        ensures terms { IsOneSet self.now.terms.collect self.now.terms.post }
    {
        let _rows = self.rows;
    }

    /// How many entries the journal has. It takes no memory, like all that follow.
    pub fn entries(&self) -> u32
        ensures { result ≡ length self.now.journal }
    {
        self.journal.len() as u32
    }

    /// How many rows the submits of the journal have, refused ones too, with 10,000 for each time
    /// that tables were brought.
    pub fn rows(&self) -> u32
        ensures { result ≡ journal_rows self.now.journal }
    {
        self.rows
    }

    /// For how many entries more room was put by.
    pub fn spare(&self) -> u32
        ensures { result ≡ self.now.spare }
    {
        self.spare
    }

    /// The entry at a place of the journal, from 1; `None` where there is none.
    pub fn entry(&self, place: u32) -> Option<&Entry>
        ensures { option_copied result ≡ entry_at self.now.journal place }
    {
        let index = place.checked_sub(1)?;
        self.journal.get(index as usize)
    }

    /// Lends the live margin, whose tables and book are those of the journal, with just what the
    /// set keeps of it. What was worked out at the last question that was answered is kept, but
    /// the values of the buckets in which a row lies that an accepted event moved since, and all
    /// where tables were accepted since; a refused event leaves them. The margin is known where no
    /// accepted event changed trades or tables since.
    pub fn live(&self) -> &LiveMargin
        ensures params { result.now.params ≡ tables self.now.params self.now.journal }
        ensures book { result.now.book ≡ book self.now.journal }
        ensures is_fresh { result.now.is_fresh ≡ self.now.is_fresh }
        ensures values { result.now.kept.values ≡ self.now.kept }
        ensures fresh { is_margin_known self.now.journal ≡ true → result.now.is_fresh ≡ true }
        ensures kept { (place : Place) → is_value_known place self.now.journal ≡ true
            → IsCached place result.now }
    {
        &self.live
    }

    /// Lends the set's name; it isn't empty.
    pub fn name(&self) -> &Name
        ensures { result.now ≡ self.now.terms.collect.name }
    {
        self.terms(MarginSide::Collect).name()
    }

    /// Lends the terms by which a side's collateral is called for.
    pub fn terms(&self, side: MarginSide) -> &SetTerms
        ensures { result.now ≡ terms_on side self.now.terms }
    {
        self.ledgers.on(side).terms()
    }

    /// Whether the journal has no room for an event of so many rows.
    fn is_full(&self, rows: usize) -> bool
        ensures { result ≡ is_full_for self.now.journal rows }
    {
        self.journal.len() >= MOST_ENTRIES || rows > MOST_ROWS - self.rows as usize
    }
}
