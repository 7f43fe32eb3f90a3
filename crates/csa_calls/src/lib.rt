//! The amounts of collateral that are called for on a netting set: a delivery, a return, or
//! nothing. Amounts are in cents, and nothing here takes memory.
//! (ISDA 2016 Credit Support Annex for Initial Margin: Delivery Amount, Return Amount.)
#![tactic(auto)]

ghost use Rattle.std.specs.Prelude.{◌≡◌, ◌+◌, ◌*◌, ◌≤◌, ◌^◌, pos};
ghost use Rattle.std.specs.Prelude.{◌+ℤ◌, ◌-ℤ◌, ◌*ℤ◌, ◌≤ℤ◌, ◌<ℤ◌, unsigned_abs};
ghost use Rattle.std.specs.Int.{int_max};
ghost use Rattle.csa_terms.specs.Terms.{IsAmount, IsRounding};
ghost use Rattle.csa_calls.specs.CallRule.{AmountUpTo, IsCallFor, IsGreatestMultiple};
ghost use Rattle.csa_calls.specs.CallRule.{IsLeastMultiple, call_for, call_of, call_of_at};
ghost use Rattle.csa_calls.specs.CallRule.{credit_support, excess_at, is_delivery};
ghost use Rattle.csa_calls.specs.CallRule.{is_return, multiple_down, multiple_up};
ghost use Rattle.csa_calls.specs.CallRule.{excess as excess_of};

use csa_terms::SetTerms;
use csa_terms::mh_units::{Cents, div_down, div_up};

/// What is called for. Amounts are in cents, and those of a call are multiples of the
/// agreement's rounding.
#[derive(Clone, Copy, Debug, PartialEq, Eq)]
pub enum CallAmount {
    /// So many cents, above 0, are to be delivered.
    Delivery(i64),
    /// So many cents, above 0, are to be returned.
    Return(i64),
    /// Nothing is called: the excess, in cents, is too small, or there is none. It is below zero
    /// where too much is booked.
    Nothing(i128),
}

/// What is called for on a margin of 0 to 5 * 10^17 cents where so much is booked, at most 5 *
/// 10^17 cents in size.
///
/// The excess is the margin above the threshold, less what is booked. One above zero that reaches
/// the minimum of a delivery calls for a delivery, rounded up to a multiple of the rounding. One
/// below zero that reaches the minimum of a return calls for a return, rounded down to such a
/// multiple, unless that is 0. The minimum is tested before rounding.
pub fn call_amount(margin: i128, booked: i128, terms: &SetTerms) -> CallAmount
    requires margin_from { pos 0 ≤ℤ margin }
    requires margin_to { margin ≤ℤ pos (5 * 10 ^ 17) }
    requires booked_in_range { unsigned_abs booked ≤ 5 * 10 ^ 17 }
    ensures value { result ≡ call_of margin booked terms.now }
    ensures rule { IsCallFor (excess_of margin booked terms.now) terms.now result }

    // A delivery may be above the excess by less than the rounding.
    ensures amount { AmountUpTo (margin +ℤ pos (unsigned_abs booked + 10 ^ 12)) result }
{
    terms.facts();
    call_amount_at(margin, booked, terms.threshold(), terms)
}

/// The same where a threshold of 0 to 10^15 cents, such as an allotment of a threshold that
/// several sets share, stands in place of the agreement's own.
pub fn call_amount_at(margin: i128, booked: i128, threshold: Cents, terms: &SetTerms) -> CallAmount
    requires margin_from { pos 0 ≤ℤ margin }
    requires margin_to { margin ≤ℤ pos (5 * 10 ^ 17) }
    requires booked_in_range { unsigned_abs booked ≤ 5 * 10 ^ 17 }
    requires threshold { IsAmount threshold.0 }
    ensures value { result ≡ call_of_at margin booked threshold.0 terms.now }
    ensures rule { IsCallFor (excess_at margin booked threshold.0) terms.now result }
    ensures amount { AmountUpTo (margin +ℤ pos (unsigned_abs booked + 10 ^ 12)) result }
{
    terms.facts();
    let excess = excess_at(margin, booked, threshold.0);
    call_for(excess, terms)
}

/// How far the margin above the threshold is above what is booked, in cents, also where it is past
/// the range of calls: on a margin of 0 to 10^21 cents where so much is booked, at most 10^23
/// cents in size. It is below zero where too much is booked.
pub fn excess(margin: i128, booked: i128, terms: &SetTerms) -> i128
    requires margin_from { pos 0 ≤ℤ margin }
    requires margin_to { margin ≤ℤ pos (10 ^ 21) }
    requires booked_in_range { unsigned_abs booked ≤ 10 ^ 23 }
    ensures value { result ≡ excess_of margin booked terms.now }
    ensures size { pos (unsigned_abs result) ≤ℤ (margin +ℤ pos (unsigned_abs booked)) }
{
    terms.facts();
    excess_at(margin, booked, terms.threshold().0)
}

/// The same above any threshold of 0 to 10^15 cents.
fn excess_at(margin: i128, booked: i128, threshold: i128) -> i128
    requires margin_from { pos 0 ≤ℤ margin }
    requires margin_to { margin ≤ℤ pos (10 ^ 21) }
    requires booked_in_range { unsigned_abs booked ≤ 10 ^ 23 }
    requires threshold { IsAmount threshold }
    ensures value { result ≡ excess_at margin booked threshold }
    ensures size { pos (unsigned_abs result) ≤ℤ (margin +ℤ pos (unsigned_abs booked)) }
{
    credit_support(margin, threshold) - booked
}

fn call_for(excess: i128, terms: &SetTerms) -> CallAmount
    requires { unsigned_abs excess ≤ 10 ^ 18 }
    ensures { result ≡ call_for excess terms.now }
{
    terms.facts();
    if is_delivery(excess, terms) {
        return CallAmount::Delivery(multiple_up(excess, terms.rounding().0));
    }
    if is_return(excess, terms) {
        return CallAmount::Return(multiple_down(-excess, terms.rounding().0));
    }
    CallAmount::Nothing(excess)
}

fn is_delivery(excess: i128, terms: &SetTerms) -> bool
    ensures { result ≡ is_delivery excess terms.now }
{
    excess > 0 && excess >= terms.mta_delivery().0
}

/// Whether the excess booked reaches the minimum of a return and one unit of rounding, below which
/// the return would be 0.
fn is_return(excess: i128, terms: &SetTerms) -> bool
    requires { unsigned_abs excess ≤ 10 ^ 18 }
    ensures { result ≡ is_return excess terms.now }
{
    terms.facts();
    -excess >= terms.mta_return().0.max(terms.rounding().0)
}

/// The credit support amount: the margin above the threshold.
fn credit_support(margin: i128, threshold: i128) -> i128
    requires margin_from { pos 0 ≤ℤ margin }
    requires margin_to { margin ≤ℤ pos (10 ^ 21) }
    requires threshold { IsAmount threshold }
    ensures value { result ≡ credit_support margin threshold }
    ensures low { pos 0 ≤ℤ result }
    ensures high { result ≤ℤ margin }
{
    (margin - threshold).max(0)
}

/// The least multiple of the unit not below the amount.
fn multiple_up(amount: i128, unit: i128) -> i64
    requires positive { pos 0 <ℤ amount }
    requires amount_in_range { amount ≤ℤ pos (10 ^ 18) }
    requires unit { IsRounding unit }
    ensures value { result ≡ multiple_up amount unit }
    ensures rule { IsLeastMultiple amount unit result }
    ensures size { result <ℤ (amount +ℤ unit) }
{
    times(div_up(amount, unit), unit)
}

/// The greatest multiple of the unit not above the amount.
fn multiple_down(amount: i128, unit: i128) -> i64
    requires positive { pos 0 <ℤ amount }
    requires amount_in_range { amount ≤ℤ pos (10 ^ 18) }
    requires unit { IsRounding unit }
    ensures value { result ≡ multiple_down amount unit }
    ensures rule { IsGreatestMultiple amount unit result }
    ensures from_zero { pos 0 ≤ℤ result }
{
    times(div_down(amount, unit), unit)
}

fn times(count: i128, unit: i128) -> i64
    requires count_in_range { unsigned_abs count ≤ 10 ^ 18 }
    requires unit_in_range { unsigned_abs unit ≤ 10 ^ 12 }
    requires product_in_range { unsigned_abs (count *ℤ unit) ≤ 2 * 10 ^ 18 }
    ensures { result ≡ count *ℤ unit }
{
    (count * unit) as i64
}
