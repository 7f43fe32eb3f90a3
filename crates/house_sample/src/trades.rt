//! The batches of a feed.
ghost use Rattle.std.specs.Prelude.{◌≡◌, ◌<◌, ◌++◌, IfOk, OnOk};
ghost use Rattle.simm_params.specs.SimmKinds.declared.kinds.ProductClass.TheVariants as product;
ghost use Rattle.simm_params.specs.SimmKinds.declared.row.CrifRow.TheVariants as row;
ghost use Rattle.house_sample.specs.Trades.{currency, amount, row_from, exchange_rate};
ghost use Rattle.house_sample.specs.Trades.{curve_point, behind_row, rows_from};
ghost use Rattle.house_sample.specs.Trades.{behind_batch, trade_name, batch_from};

use crate::draws::Draws;
use itoa::Buffer;
use simm_params::mh_units::{Cents, Text};
use simm_params::simm_kinds::{
    Batch, CrifRow, Currency, Factor, FactorKey, Listed, Name, ProductClass, SubCurve, Tenor,
    TradeRows,
};
use std::alloc::{AllocError, Global};

/// The currency of a draw.
fn currency(draw: u32) -> Currency
    ensures { result ≡ currency draw }
{
    let letters: &[u8] = match draw % 4 {
        0 => b"EUR",
        1 => b"GBP",
        2 => b"JPY",
        _ => b"BRL",
    };
    Currency::new(letters).unwrap()
}

/// The amount of a draw: at most 10,000.00 in size.
fn amount(draw: u32) -> Cents
    ensures { result.0 ≡ amount draw }
{
    Cents(i128::from(draw % 2_000_001) - 1_000_000)
}

/// A sensitivity of the product class of rates and foreign exchange.
fn sensitivity(factor: Factor, amount: Cents) -> CrifRow
    ensures { result
        ≡ row.Sensitivity (record { product = product.RatesFX; factor = factor }) amount }
{
    let key = FactorKey {
        product: ProductClass::RatesFX,
        factor,
    };
    CrifRow::Sensitivity { key, amount }
}

/// Draws a row of an exchange rate.
#[tactic(auto, unfolding(crate::specs::Trades::row_from, crate::specs::Trades::behind_row))]
fn draw_exchange(draws: &mut Draws) -> CrifRow
    ensures row { result ≡ row_from exchange_rate draws.old.state }
    ensures state { draws.new.state ≡ behind_row draws.old.state }
{
    let currency = currency(draws.next());
    sensitivity(Factor::Fx { currency }, amount(draws.next()))
}

/// Draws a row of a point of a curve.
#[tactic(auto, unfolding(crate::specs::Trades::row_from, crate::specs::Trades::behind_row))]
fn draw_curve(draws: &mut Draws) -> CrifRow
    ensures row { result ≡ row_from curve_point draws.old.state }
    ensures state { draws.new.state ≡ behind_row draws.old.state }
{
    let factor = Factor::IrCurve {
        currency: currency(draws.next()),
        tenor: Tenor::Y10,
        sub: SubCurve::Ois,
    };
    sensitivity(factor, amount(draws.next()))
}

/// Draws the four rows of a batch.
#[tactic(auto, unfolding(crate::specs::Trades::rows_from, crate::specs::Trades::behind_batch))]
fn draw_rows(alloc: Global, draws: &mut Draws) -> Result<Listed<CrifRow>, AllocError>
    ensures rows { IfOk result (λ rows. rows ≡ rows_from draws.old.state) }
    ensures state { IfOk result (λ rows. draws.new.state ≡ behind_batch draws.old.state) }
{
    let mut rows = Listed::with_capacity(alloc, 4)?;
    rows.push(draw_exchange(draws))?;
    rows.push(draw_curve(draws))?;
    rows.push(draw_exchange(draws))?;
    rows.push(draw_curve(draws))?;
    Ok(rows)
}

/// Adds the name of a batch's trade.
fn push_name(text: &mut Text, feed: u32, batch: u32) -> Result<(), AllocError>
    ensures { OnOk result (text.new ≡ text.old ++ trade_name feed batch) }
{
    text.push(b'F')?;
    text.extend(Buffer::new().format(feed).as_bytes())?;
    text.push(b'-')?;
    text.extend(Buffer::new().format(batch).as_bytes())
}

/// The name of a batch's trade.
#[tactic(auto, using(crate::proofs::Rows::name_is))]
fn trade_name(alloc: Global, feed: u32, batch: u32) -> Result<Name, AllocError>
    requires { (feed < 32) × (batch < 50) }
    ensures { IfOk result (λ name. name ≡ trade_name feed batch) }
{
    let mut name = Text::new(alloc);
    push_name(&mut name, feed, batch)?;
    Name::of_bytes(alloc, name.as_slice())
}

/// Draws the next batch of a feed, which has this number.
#[tactic(auto, using(crate::proofs::Rows::batch_is))]
pub(crate) fn draw_batch(
    alloc: Global,
    draws: &mut Draws,
    feed: u32,
    batch: u32,
) -> Result<Batch, AllocError>
    requires { (feed < 32) × (batch < 50) }
    ensures batch { IfOk result (λ b. b ≡ batch_from feed batch draws.old.state) }
    ensures state { IfOk result (λ b. draws.new.state ≡ behind_batch draws.old.state) }
{
    let trade = trade_name(alloc, feed, batch)?;
    let rows = draw_rows(alloc, draws)?;
    let mut trades = Listed::with_capacity(alloc, 1)?;
    trades.push(TradeRows { trade, rows })?;
    Batch::from_trades(alloc, trades)
}
