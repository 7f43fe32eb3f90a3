//! The event that the block of a message is, as a file of its own.
ghost use Rattle.std.specs.Prelude.{◌≡◌};
ghost use Rattle.feed_events.specs.Blocks.{Gives};
ghost use Rattle.feed_events.specs.Events.{submit_of, tables_of};

use crif_reader::{CrifFault, read_batch};
use feed_reader::mh_units::Bytes;
use set_core::Event;
use set_core::params_file::{ParamText, ParamTextFault};
use std::alloc::Global;

/// Why a block gives no event, or want of memory.
#[derive(Drop)]
pub enum BlockFault {
    /// It is no batch.
    Batch(CrifFault),
    /// It is no tables.
    Tables(ParamTextFault),
}

impl From<CrifFault> for BlockFault {
    ghost use Rattle.feed_events.specs.declared.block.BlockFault.TheVariants.{Batch};

    ghost from_gives = { λ crif fault. fault ≡ Batch crif };

    fn from(fault: CrifFault) -> BlockFault {
        BlockFault::Batch(fault)
    }
}

impl From<ParamTextFault> for BlockFault {
    ghost use Rattle.feed_events.specs.declared.block.BlockFault.TheVariants.{Tables};

    ghost from_gives = { λ text fault. fault ≡ Tables text };

    fn from(fault: ParamTextFault) -> BlockFault {
        BlockFault::Tables(fault)
    }
}

/// The submit of a block of CRIF records.
pub(crate) fn submit_of(alloc: Global, block: &Bytes) -> Result<Event, BlockFault>
    ensures { Gives result (submit_of block.now) }
{
    let read = read_batch(alloc, block.as_slice())?;
    Ok(Event::Submit(read.batch))
}

/// The tables of a block, which holds them from then on.
pub(crate) fn tables_of(alloc: Global, block: Bytes) -> Result<Event, BlockFault>
    ensures { Gives result (tables_of block) }
{
    let text = ParamText::read(alloc, block)?;
    Ok(Event::Tables(text))
}
