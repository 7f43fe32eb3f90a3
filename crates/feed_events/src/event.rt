ghost use Rattle.std.specs.Prelude.{◌≡◌};
ghost use Rattle.feed_events.specs.Blocks.{Gives};
ghost use Rattle.feed_events.specs.Events.{set_of, event_of};

use crate::block::{BlockFault, submit_of, tables_of};
use crif_reader::simm_kinds::Name;
use feed_reader::Message;
use set_core::Event;
use std::alloc::Global;

/// Lends the name of the set that a message names. It takes no memory.
pub fn set_of(message: &Message) -> &Name
    ensures { result.now ≡ set_of message.now }
{
    match message {
        Message::Crif { set, .. }
        | Message::Tables { set, .. }
        | Message::Withdraw { set, .. }
        | Message::OnSide { set, .. } => set,
    }
}

/// The event of a message.
///
/// # Errors
///
/// Those of a block alone: `Batch` exactly where its records are no batch, and `Tables` exactly
/// where its tables are none, each with the first fault of its grammar, or for want of memory,
/// which says nothing of the block.
pub fn event_of(alloc: Global, message: Message) -> Result<Event, BlockFault>
    ensures { Gives result (event_of message) }
{
    match message {
        Message::Crif { block, .. } => submit_of(alloc, &block),
        Message::Tables { block, .. } => tables_of(alloc, block),
        Message::Withdraw { names, .. } => Ok(Event::Withdraw(names)),
        Message::OnSide { side, event, .. } => Ok(Event::OnSide { side, event }),
    }
}
