//! What each row adds to the sums of the rule.
ghost use Rattle.std.specs.Prelude.{◌≡◌, ◌*◌, ◌≤◌, pos, ◌≤ℤ◌, unsigned_abs};
ghost use Rattle.schedule_im.specs.Parts.{share, cost, gain};
ghost use Rattle.simm_rules.specs.MhUnits.Rounding.{up};
ghost use Rattle.schedule_im.specs.Rule.{rate_by_end, rate, is_notional_of};

use crate::class::{ScheduleClass, ScheduleKind};
use crate::end_date::EndDate;
use crate::row::ScheduleRow;
use simm_rules::mh_units::div_up;

/// The rate by the years up to the end: up to two, above two and up to five, above five, which it
/// is without an end too.
fn rate_by_end(short: u8, middle: u8, long: u8, day: EndDate, end: Option<EndDate>) -> u8
    requires short { short ≤ 15 }
    requires middle { middle ≤ 15 }
    requires long { long ≤ 15 }
    ensures value { result ≡ rate_by_end short middle long day end }
    ensures size { result ≤ 15 }
{
    let Some(end) = end else {
        return long;
    };
    if end.is_up_to(day, 2) {
        short
    } else if end.is_up_to(day, 5) {
        middle
    } else {
        long
    }
}

/// The rate of a notional, in percent.
fn rate(class: ScheduleClass, day: EndDate, end: Option<EndDate>) -> u8
    ensures value { result ≡ rate class day end }
    ensures size { result ≤ 15 }
{
    match class {
        ScheduleClass::Rates => rate_by_end(1, 2, 4, day, end),
        ScheduleClass::Credit => rate_by_end(2, 5, 10, day, end),
        ScheduleClass::Equity | ScheduleClass::Commodity | ScheduleClass::Other => 15,
        ScheduleClass::Fx => 6,
    }
}

/// What a notional of this size adds to the gross margin, upwards to the cent.
fn charge(size: u64, rate: u8) -> i128
    requires { rate ≤ 15 }
    ensures value { result ≡ up (pos (size * rate)) (pos 100) }
    ensures low { pos 0 ≤ℤ result }
    ensures size { unsigned_abs result ≤ size }
{
    div_up(i128::from(size) * i128::from(rate), 100)
}

/// What a row adds to the gross margin of a class.
pub fn share(row: &ScheduleRow, day: EndDate, class: ScheduleClass) -> i128
    ensures value { result ≡ share day class row.now }
    ensures low { pos 0 ≤ℤ result }
    ensures size { unsigned_abs result ≤ unsigned_abs row.now.amount }
{
    if is_notional_of(row, class) {
        charge(row.amount.unsigned_abs(), rate(row.class, day, row.end))
    } else {
        0
    }
}

fn is_notional_of(row: &ScheduleRow, class: ScheduleClass) -> bool
    ensures { result ≡ is_notional_of class row.now }
{
    row.class == class && matches!(row.kind, ScheduleKind::Notional)
}

/// What a row adds to the sum of present values.
pub fn cost(row: &ScheduleRow) -> i128
    ensures value { result ≡ cost row.now }
    ensures size { unsigned_abs result ≤ unsigned_abs row.now.amount }
{
    match row.kind {
        ScheduleKind::Notional => 0,
        ScheduleKind::Pv => i128::from(row.amount),
    }
}

/// What a row adds to the sum of positive present values.
pub fn gain(row: &ScheduleRow) -> i128
    ensures value { result ≡ gain row.now }
    ensures low { pos 0 ≤ℤ result }
    ensures size { unsigned_abs result ≤ unsigned_abs row.now.amount }
{
    cost(row).max(0)
}
