//! Netting sets that are replayed one after another, by the written rule.
ghost use Rattle.std.specs.Prelude.{◌≡◌, length, if◌then◌else◌};
ghost use Rattle.feed_events.specs.Blocks.{is_memory};
ghost use Rattle.audit_file.specs.Rules.{begun};
ghost use Rattle.audit_file.specs.declared.replay.Unruled.TheVariants as unruled;
ghost use Rattle.audit_file.specs.Replays.{rule_of, AnswersIn, AnswersEvent};

use crate::begun::Begun;
use crate::replay::{Replay, Unruled};
use crate::reply_line::told_text;
use feed_events::crif_reader::CrifFault;
use feed_events::set_core::params_file::{ParamFault, ParamTextFault};
use feed_events::set_core::simm_params::Params;
use feed_events::set_core::{Event, Halt, SetState};
use feed_events::{BlockFault, event_of};
use feed_reader::Message;
use feed_reader::csa_terms::Terms;
use mh_io::mh_units::Text;
use std::alloc::{AllocError, Global};
use std::marker::Model;

/// The netting set that is replayed now, with the parameters and the terms of all sets. Contracts
/// see these, and the set's journal.
#[derive(Drop)]
pub struct SetReplay<'a> {
    params: &'a Params,
    terms: &'a Terms,
    begun: Option<Begun>,
}

impl<'a> Model for SetReplay<'a> {
    ghost use Rattle.audit_file.specs.Rules.{Replayed};
    ghost use Rattle.audit_file.specs.Replays.{log_in, IsBegun};

    ghost Value = { Replayed };

    ghost view = { λ r. record {
      base = record { params = r.params.now; terms = r.terms.now };
      log = log_in (record { params = r.params.now; terms = r.terms.now }) r.begun;
    } };

    ghost invariant = { λ r. IsBegun (record { params = r.params.now; terms = r.terms.now })
        r.begun };
}

/// Why a message has no reply whose block gives no event.
fn unruled(fault: BlockFault) -> Unruled
    ensures { result ≡ (if is_memory fault then unruled.Memory else unruled.NotEvent) }
{
    match fault {
        BlockFault::Batch(CrifFault::Memory)
        | BlockFault::Tables(ParamTextFault::Param(ParamFault::Memory)) => Unruled::Memory,
        BlockFault::Batch(_) | BlockFault::Tables(_) => Unruled::NotEvent,
    }
}

/// Answers an event by a set, and gives the text of the reply.
fn answer_in(alloc: Global, set: &mut SetState, caller: u32, event: Event) -> Result<Text, Unruled>
    ensures answers { AnswersIn set.old set.new caller event result }
    ensures params { set.new.params ≡ set.old.params }
    ensures terms { set.new.terms ≡ set.old.terms }
{
    match set.apply(caller, event) {
        Ok(reply) => Ok(told_text(alloc, &reply)?),
        Err(Halt::Full { .. }) => Err(Unruled::Full),
        Err(Halt::Memory { .. }) => Err(Unruled::Memory),
    }
}

impl<'a> SetReplay<'a> {
    /// Before the first set. It takes no memory.
    pub fn new(params: &'a Params, terms: &'a Terms) -> SetReplay<'a>
        ensures base { result.base ≡ record { params = params.now; terms = terms.now } }
        ensures log { result.log ≡ begun (length terms.now) }
    {
        SetReplay {
            params,
            terms,
            begun: None,
        }
    }

    /// Answers an event by the set that was begun last, where one was.
    fn answer(&mut self, alloc: Global, caller: u32, event: Event) -> Result<Text, Unruled>
        ensures rules { AnswersEvent self.old self.new caller event result }
        ensures base { self.new.base ≡ self.old.base }
    {
        let Some(mut begun) = self.begun.take() else {
            return Err(Unruled::NotEvent);
        };
        let told = answer_in(alloc, &mut begun.set, caller, event);
        self.begun = Some(begun);
        told
    }
}

impl<'a> Replay for SetReplay<'a> {
    ghost base = { λ r. r.base };

    ghost log = { λ r. r.log };

    ghost rule = { rule_of };

    fn begin(&mut self, alloc: Global, set: u32) -> Result<(), AllocError> {
        let terms = self.terms.sets()[set as usize].copy(alloc)?;
        let set_state = SetState::new(alloc, self.params.share()?, terms)?;
        self.begun = Some(Begun {
            place: set,
            set: set_state,
        });
        Ok(())
    }

    fn apply(&mut self, alloc: Global, caller: u32, message: Message) -> Result<Text, Unruled> {
        match event_of(alloc, message) {
            Ok(event) => self.answer(alloc, caller, event),
            Err(fault) => Err(unruled(fault)),
        }
    }
}
