//! What keeps trades from being a batch.
ghost use Rattle.std.specs.Prelude.{◌≡◌, ◌&&◌, ◌||◌, ◌==◌, length, map, nat_lt, ◌++◌, IfOk, OnOk};
ghost use Rattle.std.specs.List.{flat_map, list_any, list_all};
ghost use Rattle.simm_kinds.specs.Order.{same_name, same_product};
ghost use Rattle.simm_kinds.specs.Repeats.{repeats};
ghost use Rattle.simm_kinds.specs.Batch.{rows_of, is_param, factor_names, multiplied, has_repeats};
ghost use Rattle.simm_kinds.specs.Batch.{is_misplaced, is_amount, is_in_range, batch_fault};

use crate::repeats::repeats;
use crate::{CrifRow, FullName, MakeFault, Name, ProductClass, TradeRows};
use mh_units::Cents;
use std::alloc::{AllocError, Global};

/// How many rows a batch has at most.
const MOST_ROWS: usize = 100_000;

/// The greatest size of an amount, in cents.
const MOST_CENTS: u128 = 1_000_000_000_000_000;

/// The first fault of the trades, in the order of `MakeFault`; none for a batch.
pub fn first_fault(alloc: Global, trades: &[TradeRows]) -> Result<Option<MakeFault>, AllocError>
    ensures { IfOk result (λ fault. fault ≡ batch_fault trades.now) }
{
    if trades.is_empty() {
        return Ok(Some(MakeFault::Empty));
    }
    if has_repeats(alloc, trades)? {
        return Ok(Some(MakeFault::Same));
    }
    if has_too_many_rows(trades) {
        return Ok(Some(MakeFault::TooManyRows));
    }
    if has_misplaced(trades) {
        return Ok(Some(MakeFault::Place));
    }
    if has_empty_trade(trades) {
        return Ok(Some(MakeFault::EmptyTrade));
    }
    if !are_in_range(trades) {
        return Ok(Some(MakeFault::Amount));
    }
    Ok(None)
}

fn has_repeats(alloc: Global, trades: &[TradeRows]) -> Result<bool, AllocError>
    ensures { IfOk result (λ found. found ≡ has_repeats trades.now) }
{
    Ok(
        names_repeat(alloc, trades)?
            || factors_repeat(alloc, trades)?
            || multipliers_repeat(alloc, trades)?,
    )
}

fn names_repeat(alloc: Global, trades: &[TradeRows]) -> Result<bool, AllocError>
    ensures { IfOk result (λ found. found ≡ repeats same_name (map (λ t. t.trade) trades.now)) }
{
    let names = names_of(alloc, trades)?;
    repeats(alloc, names.as_slice())
}

fn factors_repeat(alloc: Global, trades: &[TradeRows]) -> Result<bool, AllocError>
    ensures { IfOk result (λ found.
        found ≡ repeats same_name (flat_map factor_names (rows_of trades.now))) }
{
    let names = factor_names(alloc, trades)?;
    repeats(alloc, names.as_slice())
}

fn multipliers_repeat(alloc: Global, trades: &[TradeRows]) -> Result<bool, AllocError>
    ensures { IfOk result (λ found.
        found ≡ repeats same_product (flat_map multiplied (rows_of trades.now))) }
{
    let products = multiplied(alloc, trades)?;
    repeats(alloc, products.as_slice())
}

fn names_of(alloc: Global, trades: &[TradeRows]) -> Result<Vec<&Name>, AllocError>
    ensures { IfOk result (λ names. map (λ n. n.now) names.items ≡ map (λ t. t.trade) trades.now) }
{
    let mut names = Vec::with_capacity(alloc, trades.len())?;
    for trade in trades {
        names.push(&trade.trade)?;
    }
    Ok(names)
}

/// The qualifiers of the factors.
fn factor_names(alloc: Global, trades: &[TradeRows]) -> Result<Vec<&FullName>, AllocError>
    ensures { IfOk result (λ names.
        map (λ n. n.now) names.items ≡ flat_map factor_names (rows_of trades.now)) }
{
    let mut names = Vec::new(alloc);
    for trade in trades {
        for row in trade.rows.as_slice() {
            add_factor_name(&mut names, row)?;
        }
    }
    Ok(names)
}

fn add_factor_name<'a>(names: &mut Vec<&'a FullName>, row: &'a CrifRow) -> Result<(), AllocError>
    ensures { OnOk result (map (λ n. n.now) names.new.items
        ≡ map (λ n. n.now) names.old.items ++ factor_names row.now) }
{
    match row {
        CrifRow::NotionalFactor { qualifier, .. } => Ok(names.push(qualifier)?),
        _ => Ok(()),
    }
}

/// The product classes of the multipliers.
fn multiplied(alloc: Global, trades: &[TradeRows]) -> Result<Vec<ProductClass>, AllocError>
    ensures { IfOk result (λ products. products.items ≡ flat_map multiplied (rows_of trades.now)) }
{
    let mut products = Vec::new(alloc);
    for trade in trades {
        for row in trade.rows.as_slice() {
            add_multiplied(&mut products, row)?;
        }
    }
    Ok(products)
}

fn add_multiplied(products: &mut Vec<ProductClass>, row: &CrifRow) -> Result<(), AllocError>
    ensures { OnOk result (products.new.items ≡ products.old.items ++ multiplied row.now) }
{
    match row {
        CrifRow::Multiplier { product, .. } => Ok(products.push(*product)?),
        _ => Ok(()),
    }
}

fn has_too_many_rows(trades: &[TradeRows]) -> bool
    ensures { result ≡ nat_lt 100000 (length (rows_of trades.now)) }
{
    let mut count = 0;
    for trade in trades {
        let more = trade.rows.len();
        if more > MOST_ROWS - count {
            return true;
        }
        count += more;
    }
    false
}

fn has_misplaced(trades: &[TradeRows]) -> bool
    ensures { result ≡ list_any is_misplaced trades.now }
{
    trades.iter().any(|trade| is_misplaced(trade))
}

fn is_misplaced(trade: &TradeRows) -> bool
    ensures { result ≡ is_misplaced trade.now }
{
    let is_unnamed = trade.trade.bytes().is_empty();
    let rows = trade.rows.as_slice();
    rows.iter().any(|row| is_param(row) != is_unnamed)
}

fn has_empty_trade(trades: &[TradeRows]) -> bool
    ensures { result ≡ list_any (λ t. length t.rows == 0) trades.now }
{
    trades.iter().any(|trade| trade.rows.is_empty())
}

fn are_in_range(trades: &[TradeRows]) -> bool
    ensures { result ≡ list_all is_in_range (rows_of trades.now) }
{
    trades.iter().all(|trade| has_rows_in_range(trade))
}

fn has_rows_in_range(trade: &TradeRows) -> bool
    ensures { result ≡ list_all is_in_range trade.now.rows }
{
    let rows = trade.rows.as_slice();
    rows.iter().all(|row| is_in_range(row))
}

fn is_param(row: &CrifRow) -> bool
    ensures { result ≡ is_param row.now }
{
    matches!(
        row,
        CrifRow::FixedAmount(_) | CrifRow::NotionalFactor { .. } | CrifRow::Multiplier { .. }
    )
}

/// Whether the amount of a row is in its range.
fn is_in_range(row: &CrifRow) -> bool
    ensures { result ≡ is_in_range row.now }
{
    match row {
        CrifRow::Sensitivity { amount, .. } | CrifRow::Notional { amount, .. } => {
            is_amount(*amount)
        }
        CrifRow::FixedAmount(amount) => amount.0 >= 0 && is_amount(*amount),
        CrifRow::NotionalFactor { factor, .. } => (0..=1_000_000).contains(&factor.0),
        CrifRow::Multiplier { factor, .. } => (10_000..=100_000).contains(&factor.0),
    }
}

fn is_amount(amount: Cents) -> bool
    ensures { result ≡ is_amount amount.0 }
{
    amount.0.unsigned_abs() <= MOST_CENTS
}
