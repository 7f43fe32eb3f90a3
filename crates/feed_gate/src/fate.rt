//! What a message comes to, before any set is called.
ghost use Rattle.std.specs.Prelude.{◌≡◌, ◌≤◌, false, length, IfOk, OnOk};
ghost use Rattle.feed_events.specs.SetCore.ParamsFile.Faults.{is_memory as is_param_memory};
ghost use Rattle.feed_events.specs.FeedReader.Feed.{Sent};
ghost use Rattle.feed_events.specs.Blocks.{is_batch_memory, is_memory};
ghost use Rattle.feed_gate.specs.declared.fate.Fate.TheVariants as fate;
ghost use Rattle.feed_gate.specs.declared.report.RefusedMessage.TheVariants as refused;
ghost use Rattle.feed_gate.specs.Fates.{place_of, fate_of, refused_block};

use crate::RefusedMessage;
use feed_events::crif_reader::CrifFault;
use feed_events::crif_reader::simm_kinds::Name;
use feed_events::feed_reader::Fed;
use feed_events::set_core::Event;
use feed_events::set_core::params_file::{ParamFault, ParamTextFault};
use feed_events::{BlockFault, event_of, set_of};
use std::alloc::{AllocError, Global};

/// A call on the set at a place, from 0, of the message that begins in a line.
pub(crate) struct Call {
    pub line: u32,
    pub place: u32,
    pub event: Event,
}

/// What a message comes to by its text alone.
pub(crate) enum Fate {
    Calls(Call),
    /// It makes no call.
    Refused(RefusedMessage),
}

/// What a message comes to. Its set is looked for before its block is read. The only error is want
/// of memory.
pub(crate) fn fate_of(alloc: Global, names: &[Name], fed: Fed) -> Result<Fate, AllocError>
    requires { length names.now ≤ 16 }
    ensures { IfOk result (λ fate. fate ≡ fate_of names.now (Sent fed)) }
{
    let line = fed.line;
    let Some(place) = find_set(names, set_of(&fed.message)) else {
        return Ok(Fate::Refused(RefusedMessage::UnknownSet { line }));
    };
    match event_of(alloc, fed.message) {
        Ok(event) => Ok(Fate::Calls(Call {
            line,
            place: place as u32,
            event,
        })),
        Err(fault) => refuse_block(line, fault),
    }
}

fn find_set(names: &[Name], name: &Name) -> Option<usize>
    ensures { result ≡ place_of name.now names.now }
{
    names.iter().position(|known| name.cmp(known).is_eq())
}

/// Refuses a block for the first fault of its grammar. Want of memory is none of these.
fn refuse_block(line: u32, fault: BlockFault) -> Result<Fate, AllocError>
    ensures refused { IfOk result (λ answer. answer ≡ fate.Refused (refused_block line fault)) }
    ensures read { OnOk result (is_memory fault ≡ false) }
{
    match fault {
        BlockFault::Batch(fault) => refuse_batch(line, fault),
        BlockFault::Tables(ParamTextFault::Long { bytes }) => {
            Ok(Fate::Refused(RefusedMessage::LongTables { line, bytes }))
        }
        BlockFault::Tables(ParamTextFault::Param(fault)) => refuse_tables(line, fault),
    }
}

/// Refuses a block of CRIF records.
fn refuse_batch(line: u32, fault: CrifFault) -> Result<Fate, AllocError>
    ensures refused { IfOk result (λ answer. answer ≡ fate.Refused (refused.BadBatch line fault)) }
    ensures read { OnOk result (is_batch_memory fault ≡ false) }
{
    match fault {
        CrifFault::Memory => Err(AllocError),
        _ => Ok(Fate::Refused(RefusedMessage::BadBatch { line, fault })),
    }
}

/// Refuses a block of tables.
fn refuse_tables(line: u32, fault: ParamFault) -> Result<Fate, AllocError>
    ensures refused { IfOk result (λ answer. answer ≡ fate.Refused (refused.BadTables line fault)) }
    ensures read { OnOk result (is_param_memory fault ≡ false) }
{
    match fault {
        ParamFault::Memory => Err(AllocError),
        fault => Ok(Fate::Refused(RefusedMessage::BadTables { line, fault })),
    }
}
