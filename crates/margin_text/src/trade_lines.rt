//! The lines of trades and their rows.
ghost use Rattle.std.specs.Prelude.{◌≡◌, ◌++◌, OnOk};
ghost use Rattle.std.specs.List.{flat_map};
ghost use Rattle.margin_text.specs.Rows.{row_line, row_start, trade_lines};

use breakdown_text::{push_factor, push_factor_parts};
use fault_text::{push_field, push_last_amount, push_last_number};
use mh_units::Text;
use simm_kinds::{CrifRow, ProductClass, RiskType, TradeRows};
use std::alloc::AllocError;

/// Adds the line of a row.
fn push_row(text: &mut Text, row: &CrifRow) -> Result<(), AllocError>
    ensures { OnOk result (text.new ≡ text.old ++ row_line row.now) }
{
    match row {
        CrifRow::Sensitivity { key, amount } => {
            push_start(text, key.product, key.kind())?;
            push_factor(text, &key.factor)?;
            push_last_amount(text, amount.0)
        }
        CrifRow::Notional { qualifier, amount } => {
            push_start(text, ProductClass::RatesFX, RiskType::Notional)?;
            push_factor_parts(text, qualifier.bytes(), b"", "", "", b"")?;
            push_last_amount(text, amount.0)
        }
        CrifRow::FixedAmount(amount) => {
            push_start(text, ProductClass::RatesFX, RiskType::AddOnFixedAmount)?;
            push_factor_parts(text, b"", b"", "", "", b"")?;
            push_last_amount(text, amount.0)
        }
        CrifRow::NotionalFactor { qualifier, factor } => {
            push_start(text, ProductClass::RatesFX, RiskType::AddOnNotionalFactor)?;
            push_factor_parts(text, qualifier.bytes(), b"", "", "", b"")?;
            push_last_number(text, factor.0)
        }
        CrifRow::Multiplier { product, factor } => {
            push_start(text, *product, RiskType::ProductClassMultiplier)?;
            push_factor_parts(text, b"", b"", "", "", b"")?;
            push_last_number(text, factor.0)
        }
    }
}

/// Adds the first fields of a row's line.
fn push_start(text: &mut Text, product: ProductClass, kind: RiskType) -> Result<(), AllocError>
    ensures { OnOk result (text.new ≡ text.old ++ row_start product kind) }
{
    push_field(text, b"ROW")?;
    push_field(text, product.word().as_bytes())?;
    push_field(text, kind.word().as_bytes())
}

/// Adds the lines of rows.
fn push_rows(text: &mut Text, rows: &[CrifRow]) -> Result<(), AllocError>
    ensures { OnOk result (text.new ≡ text.old ++ flat_map row_line rows.now) }
{
    for row in rows {
        push_row(text, row)?;
    }
    Ok(())
}

/// Adds the line of a trade, and its rows under it.
fn push_trade(text: &mut Text, trade: &TradeRows) -> Result<(), AllocError>
    ensures { OnOk result (text.new ≡ text.old ++ trade_lines trade.now) }
{
    push_field(text, b"TRADE")?;
    push_field(text, trade.trade.bytes())?;
    push_last_number(text, trade.rows.len())?;
    push_rows(text, trade.rows.as_slice())
}

/// Adds the lines of trades.
pub(crate) fn push_trades(text: &mut Text, trades: &[TradeRows]) -> Result<(), AllocError>
    ensures { OnOk result (text.new ≡ text.old ++ flat_map trade_lines trades.now) }
{
    for trade in trades {
        push_trade(text, trade)?;
    }
    Ok(())
}
