//! The margin of the current trades without one of them.
ghost use Rattle.std.specs.Prelude.{◌≡◌, ◌+◌, ◌≤◌, [], ◌∷◌, IfOk, OnOk};
ghost use Rattle.bucket_cache.specs.Live.{without, rows_in};
ghost use Rattle.bucket_cache.specs.Entries.{trades_of};
ghost use Rattle.bucket_cache.specs.Held.{IsSummed};
ghost use Rattle.bucket_cache.specs.Without.{total_without, steps_without};

use crate::held_rows::HeldRows;
use crate::lending::rows_in;
use crate::lent::LentRows;
use crate::margining::margin_of;
use crate::moving::take_out;
use crate::sums::Sums;
use book_margin::book_range::fewer_are_in_range;
use book_margin::class_combine::sums_ignore_order;
use book_margin::factor_book::order_is_free;
use book_margin::kept_buckets::KeptBuckets;
use book_margin::pair_sum::Steps;
use book_margin::simm_kinds::{CrifRow, Name};
use book_margin::simm_params::Params;
use book_margin::simm_rules::mh_units::Cents;
use indexmap::IndexMap;
use std::alloc::{AllocError, Global};
use std::sync::ledger::Ledger;

/// The total of their collected margin without the trade of this name. Its rows go from the sums
/// and come back, and of what is kept a copy is worked on.
///
/// # Errors
///
/// For want of memory alone. The sums may be without those rows then.
pub fn total_without<L: Ledger>(
    alloc: Global,
    params: &Params,
    current: &IndexMap<Name, HeldRows>,
    sums: &mut Sums,
    kept: &KeptBuckets,
    name: &Name,
    steps: &mut Steps<L>,
) -> Result<Cents, AllocError>
    requires { IsSummed params.now (trades_of current.now.entries) sums.old kept.now }
    ensures total { IfOk result (λ total.
        total ≡ total_without params.now (trades_of current.now.entries) name.now) }
    ensures back { OnOk result (sums.new ≡ sums.old) }
    ensures steps { OnOk result (steps.new ≤ steps.old
        + steps_without params.now kept.now (trades_of current.now.entries) name.now) }
{
    order_is_free();
    sums_ignore_order();
    fewer_are_in_range(params);
    let mut left = kept.copy()?;
    take_out(alloc, params, current, sums, &mut left, &[name])?;
    let parameters = parameters_without(alloc, current, name);
    let margins = margin_of(alloc, params, sums, parameters, &mut left, steps)?;
    let rows = rows_in(current, name);
    sums.add_lent(alloc, params, &[LentRows { rows }])?;
    Ok(margins.collect.total)
}

// The parameters of their add-ons without the trade of this name: the rows of the trade that
// has none.
fn parameters_without<'a>(
    alloc: Global,
    current: &'a IndexMap<Name, HeldRows>,
    name: &Name,
) -> &'a [CrifRow]
    ensures { result.now ≡ rows_in (without (name.now ∷ []) (trades_of current.now.entries)) [] }
{
    if name.bytes().is_empty() {
        return &[];
    }
    let nameless = Name::empty(alloc);
    rows_in(current, &nameless)
}
