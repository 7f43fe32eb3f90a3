//! A netting set as a machine that its callers share: it works on the tables that it opened with
//! and the terms of both sides, and its journal weighs its rows.
ghost use Rattle.std.proofs.Common.{lit≤};
ghost use Rattle.held_cell.proofs.Empty.{no_entry};
ghost use Rattle.set_core.specs.Room.{journal_rows, IsFull};
ghost use Rattle.set_core.specs.Set.{IsSet, base_of};

use crate::{Event, Reply, SetState};
use bucket_cache::simm_params::Params;
use collateral_ledger::csa_terms::BothTerms;
use held_cell::{Halt, Machine};

impl Machine for SetState {
    type Event = Event;

    type Reply = Reply;

    type Base = (Params, BothTerms);

    ghost base = { base_of };

    ghost journal = { λ set. set.journal };

    ghost weight = { journal_rows };

    ghost is_full = { IsFull };

    ghost is_legal = { λ base log. IsSet base.0 base.1 log };

    fn entries(&self) -> u32 {
        SetState::entries(self)
    }

    fn step(&mut self, caller: u32, event: Event) -> Result<Reply, Halt<Event>> {
        let answer = self.apply(caller, event);
        self.facts();
        answer
    }

    ghost starts = { λ base. record {
      few = lit≤ tt;
      light = lit≤ tt;
      legal = λ before after e h. absurd (no_entry before after e h);
    } };
}
