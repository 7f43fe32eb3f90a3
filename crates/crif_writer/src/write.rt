ghost use Rattle.std.specs.Prelude.{◌≡◌, ℕ, List, ◌∷◌, [], IfOk, OnOk, Ok};
ghost use Rattle.std.specs.List.{AllByRecursion};
ghost use Rattle.crif_reader.specs.Grammar.{crif_of};
ghost use Rattle.crif_writer.specs.Text.{header_fields, trade_records, batch_text};
ghost use Rattle.crif_writer.specs.Text.{HasWritten, WritesMore, HasTradeParts};

use crate::fields::Fields;
use crate::row::fill;
use crif_reader::Column;
use crif_reader::mh_units::Text;
use crif_reader::simm_kinds::{Batch, TradeRows};
use csv::{Error, Writer, WriterBuilder};
use std::alloc::{AllocError, Global};

/// The columns of the header, in their order. The margin model is left out.
const COLUMNS: [Column; 10] = [
    Column::TradeId,
    Column::ProductClass,
    Column::RiskType,
    Column::Qualifier,
    Column::Bucket,
    Column::Label1,
    Column::Label2,
    Column::Amount,
    Column::AmountCurrency,
    Column::AmountUsd,
];

/// Writes a batch as the text of a CRIF file: a header and a record for each row, the trades and
/// their rows in their order. Fields are separated by tabs and each record ends with LF. Amounts
/// are in USD with two digits behind the point, rates have four, and a field that the risk type
/// does not have is empty. What it writes reads back as just this batch, with nothing passed over.
///
/// The only error is want of memory.
pub fn write_batch(alloc: Global, batch: &Batch) -> Result<Text, AllocError>
    ensures text { IfOk result (λ text. text ≡ batch_text batch.now) }
    ensures parts { OnOk result (AllByRecursion HasTradeParts batch.now) }
    ensures reads_back { IfOk result (λ text.
        crif_of text ≡ Ok (record { trades = batch.now; passed_over = 0 })) }
{
    let mut writer = open(alloc);
    let mut fields = Fields::new(alloc);
    write_header(&mut writer, &mut fields)?;
    for trade in batch.trades() {
        write_trade(&mut writer, &mut fields, trade)?;
    }
    close(writer)
}

/// A writer that has written nothing.
fn open(alloc: Global) -> Writer<Vec<u8>>
    ensures { HasWritten result [] }
{
    WriterBuilder::new()
        .delimiter(b'\t')
        .from_writer(Vec::new(alloc))
}

/// The text that was written. The only error is want of memory.
fn close(writer: Writer<Vec<u8>>) -> Result<Text, AllocError>
    ensures { (text : List ℕ) → HasWritten writer text → IfOk result (λ written. written ≡ text) }
{
    match writer.into_inner() {
        Ok(bytes) => Ok(Text::from_vec(bytes)),
        Err(_) => Err(AllocError),
    }
}

fn write_header(writer: &mut Writer<Vec<u8>>, fields: &mut Fields) -> Result<(), AllocError>
    ensures { OnOk result (WritesMore writer.old writer.new (header_fields ∷ [])) }
{
    fields.clear();
    for column in &COLUMNS {
        fields.push(column.name().as_bytes())?;
    }
    write_fields(writer, fields)
}

fn write_trade(
    writer: &mut Writer<Vec<u8>>,
    fields: &mut Fields,
    trade: &TradeRows,
) -> Result<(), AllocError>
    ensures text { OnOk result (WritesMore writer.old writer.new (trade_records trade.now)) }
    ensures parts { OnOk result (HasTradeParts trade.now) }
{
    let _name = trade.trade.bytes();
    for row in trade.rows.as_slice() {
        fill(fields, &trade.trade, row)?;
        write_fields(writer, fields)?;
    }
    Ok(())
}

/// Writes a record. The only error is want of memory.
fn write_fields(writer: &mut Writer<Vec<u8>>, fields: &Fields) -> Result<(), AllocError>
    ensures { OnOk result (WritesMore writer.old writer.new (fields.now ∷ [])) }
{
    writer.write_byte_record(fields.record()).map_err(no_memory)
}

/// Why writing fails: over bytes in memory, and with as many fields in each record, for want of
/// memory alone.
fn no_memory(_error: Error) -> AllocError {
    AllocError
}
