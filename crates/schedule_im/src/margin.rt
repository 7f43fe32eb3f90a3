ghost use Rattle.std.specs.Prelude.{◌≡◌, ◌≤◌, length, pos, ◌<ℤ◌, unsigned_abs};
ghost use Rattle.schedule_im.specs.Margin.{AreScheduled, IsPart, IsShare};
ghost use Rattle.schedule_im.specs.Margin.{schedule_margin, margin_by_rule};
ghost use Rattle.schedule_im.specs.Rule.{present_value, net_cost, gross_cost};
ghost use Rattle.schedule_im.specs.Rule.{ratio_of, margin_of, sizes, most_sizes};

use crate::end_date::EndDate;
use crate::gross::ClassGross;
use crate::parts::{cost, gain};
use crate::row::ScheduleRow;
use simm_rules::mh_units::div_up;

/// The margin of a portfolio under the schedule, and the parts that it is made of, in USD cents.
#[derive(Clone, Copy, PartialEq, Eq)]
pub struct ScheduleMargin {
    /// The gross margin of each class.
    pub classes: ClassGross,
    /// The gross margin of all classes.
    pub gross: i128,
    /// The net replacement cost: the sum of present values where it is positive.
    pub net_cost: i128,
    /// The gross replacement cost: the sum of positive present values.
    pub gross_cost: i128,
    /// The margin.
    pub margin: i128,
}

/// The sizes of all amounts come to more than ten to the 17th cents.
#[derive(Clone, Copy, PartialEq, Eq)]
pub struct ScheduleRange {
    /// What they come to, in cents.
    pub value: i128,
}

/// The greatest sum of the amounts' sizes, in cents.
const MOST_SIZES: i128 = 100_000_000_000_000_000;

/// The margin of the rows on a day, by the standard schedule: of the gross margin 0.4, and 0.6
/// times the ratio of net to gross replacement cost; all of it where no present value is positive.
/// It takes no memory.
///
/// # Errors
///
/// `ScheduleRange` exactly where the sizes of all amounts come to more than ten to the 17th cents.
#[tactic(auto, unfolding(crate::specs::Margin::schedule_margin))]
pub fn schedule_margin(rows: &[ScheduleRow], day: EndDate) -> Result<ScheduleMargin, ScheduleRange>
    requires { AreScheduled rows.now }
    ensures { result ≡ schedule_margin rows.now day }
{
    let value = sizes(rows);
    if value > MOST_SIZES {
        return Err(ScheduleRange { value });
    }
    Ok(margin_by_rule(rows, day))
}

/// The sizes of all amounts together.
fn sizes(rows: &[ScheduleRow]) -> i128
    requires { length rows.now ≤ 100000 }
    ensures { result ≡ pos (sizes rows.now) }
{
    let mut sum = 0;
    for row in rows {
        sum += i128::from(row.amount.unsigned_abs());
    }
    sum
}

/// The margin with its parts.
fn margin_by_rule(rows: &[ScheduleRow], day: EndDate) -> ScheduleMargin
    requires { sizes rows.now ≤ most_sizes }
    ensures { result ≡ margin_by_rule day rows.now }
{
    let classes = ClassGross::of_rows(rows, day);
    let gross = classes.total();
    let net_cost = net_cost(rows);
    let gross_cost = gross_cost(rows);
    ScheduleMargin {
        classes,
        gross,
        net_cost,
        gross_cost,
        margin: margin_of(gross, net_cost, gross_cost),
    }
}

/// The sum of present values.
fn present_value(rows: &[ScheduleRow]) -> i128
    requires { sizes rows.now ≤ most_sizes }
    ensures value { result ≡ present_value rows.now }
    ensures size { unsigned_abs result ≤ most_sizes }
{
    let mut sum = 0;
    for row in rows {
        sum += cost(row);
    }
    sum
}

/// The sum of present values, where it is positive.
fn net_cost(rows: &[ScheduleRow]) -> i128
    requires { sizes rows.now ≤ most_sizes }
    ensures value { result ≡ net_cost rows.now }
    ensures share { IsShare result }
{
    present_value(rows).max(0)
}

/// The sum of positive present values.
fn gross_cost(rows: &[ScheduleRow]) -> i128
    requires { sizes rows.now ≤ most_sizes }
    ensures value { result ≡ gross_cost rows.now }
    ensures share { IsShare result }
{
    let mut sum = 0;
    for row in rows {
        sum += gain(row);
    }
    sum
}

/// What the ratio of net to gross replacement cost leaves of the gross margin.
fn margin_of(gross: i128, net_cost: i128, gross_cost: i128) -> i128
    requires gross { IsPart gross }
    requires net { IsShare net_cost }
    requires cost { IsShare gross_cost }
    ensures { result ≡ margin_of gross net_cost gross_cost }
{
    if gross_cost == 0 {
        return gross;
    }
    by_ratio(gross, net_cost, gross_cost)
}

/// The same where a cost is positive.
fn by_ratio(gross: i128, net_cost: i128, gross_cost: i128) -> i128
    requires gross { IsPart gross }
    requires net { IsShare net_cost }
    requires cost { IsShare gross_cost }
    requires some { pos 0 <ℤ gross_cost }
    ensures { result ≡ ratio_of gross net_cost gross_cost }
{
    let weight = 4 * gross_cost + 6 * net_cost;
    div_up(gross * weight, 10 * gross_cost)
}
