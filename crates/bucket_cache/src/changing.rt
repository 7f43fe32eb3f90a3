//! Changes of the current trades. Only `distinct_names` takes memory.
ghost use Rattle.std.specs.Prelude.{◌≡◌, ◌+◌, ◌≤◌, ◌<◌, ℕ, List};
ghost use Rattle.std.specs.Prelude.{length, not, position, false, IfOk};
ghost use Rattle.std.specs.List.{list_any, filter};
ghost use Rattle.indexmap.specs.IndexMap.{spare};
ghost use Rattle.book_margin.specs.SimmKinds.Order.{same_name};
ghost use Rattle.book_margin.specs.SimmKinds.Repeats.{repeats};
ghost use Rattle.bucket_cache.specs.Live.{put_trade, put_trades, is_current, first_unknown};
ghost use Rattle.bucket_cache.specs.Entries.{trades_of, held_trade};
ghost use Rattle.bucket_cache.specs.Entries.{held_trades, lent_names, is_among};

use crate::held_rows::{HeldRows, HeldTrade};
use book_margin::simm_kinds::Name;
use indexmap::{IndexMap, IndexSet};
use std::alloc::{AllocError, Global};

/// Puts the trades, for which there is room.
pub fn put_all(current: &mut IndexMap<Name, HeldRows>, trades: Vec<HeldTrade>)
    requires { length trades.items ≤ spare current.old }
    ensures { trades_of current.new.entries
        ≡ put_trades (held_trades trades.items) (trades_of current.old.entries) }
{
    for trade in trades {
        put_one(current, trade);
    }
}

// Puts one trade.
fn put_one(current: &mut IndexMap<Name, HeldRows>, put: HeldTrade)
    requires { 0 < spare current.old }
    ensures put { trades_of current.new.entries
        ≡ put_trade (held_trade put) (trades_of current.old.entries) }
    ensures room { spare current.old ≤ spare current.new + 1 }
{
    let HeldTrade { trade, rows } = put;
    current.insert(trade, rows).unwrap();
}

/// The place, from 1, of the first name that is not current.
pub fn first_unknown(current: &IndexMap<Name, HeldRows>, names: &[Name]) -> Option<u64>
    ensures { result ≡ first_unknown names.now (trades_of current.now.entries) }
{
    let index = unknown_index(current, names)?;
    Some(index as u64 + 1)
}

fn unknown_index(current: &IndexMap<Name, HeldRows>, names: &[Name]) -> Option<usize>
    ensures { result
        ≡ position (λ name. not (is_current (trades_of current.now.entries) name)) names.now }
{
    names.iter().position(|name| !is_current(current, name))
}

fn is_current(current: &IndexMap<Name, HeldRows>, name: &Name) -> bool
    ensures { result ≡ is_current (trades_of current.now.entries) name.now }
{
    current.contains_key(name)
}

/// The different names.
pub fn distinct_names(alloc: Global, names: &[Name]) -> Result<IndexSet<&Name>, AllocError>
    ensures among { IfOk result (λ distinct.
        (name : List ℕ) → is_among distinct.keys name ≡ list_any (same_name name) names.now) }
    ensures different { IfOk result (λ distinct.
        repeats same_name (lent_names distinct.keys) ≡ false) }
{
    let mut distinct = IndexSet::with_capacity(alloc, names.len())?;
    for name in names {
        distinct.insert(name)?;
    }
    Ok(distinct)
}

/// Keeps the trades whose names are not among these.
pub fn keep_others(current: &mut IndexMap<Name, HeldRows>, names: &IndexSet<&Name>)
    ensures { current.new.entries
        ≡ filter (λ e. not (is_among names.now.keys e.0)) current.old.entries }
{
    current.retain(
        |name: &Name, rows: &mut HeldRows| -> bool
            ensures { (result ≡ not (is_among names.entry.now.keys name.now))
                × (rows.new ≡ rows.old) }
        { !has_name(names, name) },
    );
}

fn has_name(names: &IndexSet<&Name>, name: &Name) -> bool
    ensures { result ≡ is_among names.now.keys name.now }
{
    names.contains(&name)
}
