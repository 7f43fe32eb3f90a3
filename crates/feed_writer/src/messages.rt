//! The messages that speak of trades and tables.
ghost use Rattle.std.specs.Prelude.{◌≡◌, ◌++◌, flat_map, OnOk};
ghost use Rattle.feed_reader.specs.declared.message.Message.TheVariants as message;
ghost use Rattle.crif_writer.specs.Text.{batch_text};
ghost use Rattle.feed_writer.specs.Conditions.{IsBlock};
ghost use Rattle.feed_writer.specs.Messages.{next_field, block_text, message_text};

use crate::fields::{push_next, push_start};
use crate::lines::push_lines;
use crif_writer::simm_kinds::{Batch, Name};
use crif_writer::write_batch;
use feed_reader::mh_units::Text;
use std::alloc::{AllocError, Global};

/// Adds a block of a set: the line of the word that opens it, its lines, and the line that ends it.
fn push_block(text: &mut Text, word: &[u8], set: &Name, block: &[u8]) -> Result<(), AllocError>
    ensures { OnOk result (text.new ≡ text.old ++ block_text word.now set.now block.now) }
{
    push_start(text, word, set)?;
    text.push(b'\n')?;
    push_lines(text, block)?;
    text.extend(b"END\n")
}

/// Adds the block of a CRIF file for a set: `CRIF` and the set, the lines of the file, and `END`.
///
/// # Errors
///
/// For want of memory alone; a front of the message may have been added then.
pub fn push_crif(text: &mut Text, set: &Name, block: &[u8]) -> Result<(), AllocError>
    ensures { OnOk result (text.new ≡ text.old ++ message_text (message.Crif set.now block.now)) }
{
    push_block(text, b"CRIF", set, block)
}

/// Adds a batch as the block of a set.
///
/// # Errors
///
/// For want of memory alone; a front of the message may have been added then.
pub fn push_submit(
    alloc: Global,
    text: &mut Text,
    set: &Name,
    batch: &Batch,
) -> Result<(), AllocError>
    ensures text { OnOk result
        (text.new ≡ text.old ++ message_text (message.Crif set.now (batch_text batch.now))) }
    ensures block { OnOk result (IsBlock (batch_text batch.now)) }
{
    let _trades = batch.trades();
    let block = write_batch(alloc, batch)?;
    push_crif(text, set, block.as_slice())
}

/// Adds the block of a parameter file for a set: `TABLES` and the set, the lines of the file,
/// and `END`.
///
/// # Errors
///
/// For want of memory alone; a front of the message may have been added then.
pub fn push_tables(text: &mut Text, set: &Name, block: &[u8]) -> Result<(), AllocError>
    ensures { OnOk result (text.new ≡ text.old ++ message_text (message.Tables set.now block.now)) }
{
    push_block(text, b"TABLES", set, block)
}

/// Adds each name as a field behind another.
fn push_names(text: &mut Text, names: &[Name]) -> Result<(), AllocError>
    ensures { OnOk result (text.new ≡ text.old ++ flat_map next_field names.now) }
{
    for name in names {
        push_next(text, name.bytes())?;
    }
    Ok(())
}

/// Adds the line that withdraws trades from a set: `WITHDRAW`, the set, and each name.
///
/// # Errors
///
/// For want of memory alone; a front of the line may have been added then.
pub fn push_withdrawal(text: &mut Text, set: &Name, names: &[Name]) -> Result<(), AllocError>
    ensures { OnOk result
        (text.new ≡ text.old ++ message_text (message.Withdraw set.now names.now)) }
{
    push_start(text, b"WITHDRAW", set)?;
    push_names(text, names)?;
    text.push(b'\n')
}
