//! The range of a book after a batch, whose rows came, and before the rows that they replace
//! are taken.
ghost use Rattle.std.specs.Prelude.{◌≡◌, ◌∷◌, [], List, is_some};
ghost use Rattle.simm_params.specs.SimmKinds.declared.key.FactorKey.{FactorKey};
ghost use Rattle.simm_params.specs.SimmKinds.declared.row.CrifRow.{CrifRow as Row};
ghost use Rattle.simm_params.specs.SimmKinds.Batch.{rows_of};
ghost use Rattle.simm_params.specs.SimmRules.Range.{range};
ghost use Rattle.factor_book.specs.declared.holding.Holding.{Holding};
ghost use Rattle.factor_book.specs.Factors.{IsWithout};
ghost use Rattle.book_range.specs.After.{AreFewElsewhere, IsAfter};
ghost use Rattle.book_range.specs.Faults.{keys_fault};
ghost use Rattle.book_range.specs.Firsts.{fault_at, fault_of, earlier as earlier_of, row_place};
ghost use Rattle.book_range.specs.Firsts.{IsFirst, IsNewAt, IsLeft};

use crate::faults::{bucket_fault, count_fault, gross_fault};
use crate::sizes::GrossSizes;
use factor_book::{Factors, Place};
use simm_params::Params;
use simm_params::simm_kinds::{CrifRow, TradeRows};
use simm_params::simm_rules::RangeFault;

/// The first quantity that is above its limit, of the book that is left of `factors` without the
/// rows of `leaving`: it has that many rows and these sizes, and of its buckets only those in
/// which a row of `came` lies can have too many keys. `None` of a book in range. It takes no
/// memory, and looks at no other rows: it costs the logarithm of the number of keys for each row
/// of `came` and for each key of `leaving`.
pub fn range_after(
    params: &Params,
    factors: &Factors,
    leaving: &Factors,
    rows: usize,
    sizes: &GrossSizes,
    came: &[TradeRows],
) -> Option<RangeFault>
    requires { (held : List Row)
        × IsAfter params.now factors.now leaving.now rows sizes.now (rows_of came.now) held }
    ensures { (held : List Row)
        → IsAfter params.now factors.now leaving.now rows sizes.now (rows_of came.now) held
        → result ≡ range params.now held }
{
    params.facts();
    let too_many = count_fault(rows, factors.len_without(leaving));
    if too_many.is_some() {
        return too_many;
    }
    let crowded = crowded_after(factors, leaving, came);
    if crowded.is_some() {
        return crowded;
    }
    gross_fault(sizes)
}

// The first bucket that has too many keys.
fn crowded_after(factors: &Factors, leaving: &Factors, came: &[TradeRows]) -> Option<RangeFault>
    requires { (left : List (FactorKey × Holding)) × IsWithout factors.now leaving.now left }
    ensures { (left : List (FactorKey × Holding)) → IsWithout factors.now leaving.now left
        → AreFewElsewhere (rows_of came.now) left → result ≡ keys_fault left }
{
    place_fault(factors, leaving, first_crowded(factors, leaving, came))
}

// The fault of a place, where it is crowded.
fn place_fault(factors: &Factors, leaving: &Factors, place: Option<Place>) -> Option<RangeFault>
    requires { (left : List (FactorKey × Holding)) × IsWithout factors.now leaving.now left }
    ensures { (left : List (FactorKey × Holding)) → IsWithout factors.now leaving.now left
        → result ≡ fault_of left place }
{
    match place {
        Some(place) => bucket_fault(factors.len_at_without(&place, leaving)),
        None => None,
    }
}

// The first crowded place.
fn first_crowded(factors: &Factors, leaving: &Factors, came: &[TradeRows]) -> Option<Place>
    requires { (left : List (FactorKey × Holding)) × IsWithout factors.now leaving.now left }
    ensures { (left : List (FactorKey × Holding)) → IsWithout factors.now leaving.now left
        → AreFewElsewhere (rows_of came.now) left → fault_of left result ≡ keys_fault left }
{
    earlier(
        crowded_left(factors, leaving),
        crowded_new(factors, leaving, came),
    )
}

// The first crowded place of those that a row leaves.
fn crowded_left(factors: &Factors, leaving: &Factors) -> Option<Place>
    requires { (left : List (FactorKey × Holding)) × IsWithout factors.now leaving.now left }
    ensures { (left : List (FactorKey × Holding)) → IsWithout factors.now leaving.now left
        → IsFirst left (IsLeft leaving.now) result }
{
    for lent in leaving.places() {
        let place = lent.place();
        if is_crowded(factors, leaving, &place) {
            return Some(place);
        }
    }
    None
}

// The first crowded place of those that no row leaves, where a row of these trades lies.
fn crowded_new(factors: &Factors, leaving: &Factors, came: &[TradeRows]) -> Option<Place>
    requires { (left : List (FactorKey × Holding)) × IsWithout factors.now leaving.now left }
    ensures { (left : List (FactorKey × Holding)) → IsWithout factors.now leaving.now left
        → IsFirst left (IsNewAt leaving.now (rows_of came.now)) result }
{
    let mut first = None;
    for trade in came {
        first = earlier(first, crowded_in(factors, leaving, trade.rows.as_slice()));
    }
    first
}

// The same of the rows of one trade.
fn crowded_in(factors: &Factors, leaving: &Factors, rows: &[CrifRow]) -> Option<Place>
    requires { (left : List (FactorKey × Holding)) × IsWithout factors.now leaving.now left }
    ensures { (left : List (FactorKey × Holding)) → IsWithout factors.now leaving.now left
        → IsFirst left (IsNewAt leaving.now rows.now) result }
{
    let mut first = None;
    for row in rows {
        first = earlier(first, crowded_by(factors, leaving, row));
    }
    first
}

// The place of one row, where no row leaves it and it is crowded.
fn crowded_by(factors: &Factors, leaving: &Factors, row: &CrifRow) -> Option<Place>
    requires { (left : List (FactorKey × Holding)) × IsWithout factors.now leaving.now left }
    ensures { (left : List (FactorKey × Holding)) → IsWithout factors.now leaving.now left
        → IsFirst left (IsNewAt leaving.now (row.now ∷ [])) result }
{
    let place = place_of(row)?;
    if leaving.len_at(&place) > 0 {
        return None;
    }
    if is_crowded(factors, leaving, &place) {
        Some(place)
    } else {
        None
    }
}

// The place where a row lies; `None` where it is no sensitivity.
fn place_of(row: &CrifRow) -> Option<Place>
    ensures { result ≡ row_place row.now }
{
    match row {
        CrifRow::Sensitivity { key, .. } => Some(Place::of(key)),
        CrifRow::Notional { .. }
        | CrifRow::FixedAmount(_)
        | CrifRow::NotionalFactor { .. }
        | CrifRow::Multiplier { .. } => None,
    }
}

// Whether a place has too many keys.
fn is_crowded(factors: &Factors, leaving: &Factors, place: &Place) -> bool
    requires { (left : List (FactorKey × Holding)) × IsWithout factors.now leaving.now left }
    ensures { (left : List (FactorKey × Holding)) → IsWithout factors.now leaving.now left
        → result ≡ is_some (fault_at left place.now) }
{
    bucket_fault(factors.len_at_without(place, leaving)).is_some()
}

fn earlier(first: Option<Place>, second: Option<Place>) -> Option<Place>
    ensures { result ≡ earlier_of first second }
{
    match (first, second) {
        (None, other) => other,
        (Some(place), None) => Some(place),
        (Some(place), Some(other)) => Some(if other.is_before(&place) {
            other
        } else {
            place
        }),
    }
}
