ghost use Rattle.std.specs.Prelude.{ℤ, ℕ, ◌≡◌, ◌↔◌, ◌≤◌, not, nat_lt, pos, neg_ℤ};
ghost use Rattle.std.specs.Prelude.{◌≤ℤ◌, IsTrue, IsOk, IfOk, IfErr};
ghost use Rattle.jiff.specs.Words.{IsBetween};
ghost use Rattle.jiff_core.specs.Calendar.{weekday_number, days_from_civil, IsCivilDate};
ghost use Rattle.csa_terms.specs.Calendar.{is_business_day, wait, IsDueAfter};
ghost use Rattle.csa_terms.specs.Calendar.{IsDueDay, IsCallingDay, days_until, due_day};

use crate::moment::Moment;
use crate::set_terms::SetTerms;

/// A demand's day, counted from 1970-01-01, is not in the years 1 to 9000.
#[derive(Clone, Copy, PartialEq, Eq)]
pub struct DayRange {
    /// The demand's day.
    pub day: i32,
}

/// 0001-01-01, counted from 1970-01-01.
const FIRST_DAY: i32 = -719_162;

/// 9000-12-31, counted from 1970-01-01.
const LAST_DAY: i32 = 2_568_019;

/// The day on which a call is due that is demanded at the moment: the first local business day
/// after the moment's day for a demand at or before the notification minute, the second for a
/// later one. The moment's day needn't be a business day. `DayRange` comes exactly where that day
/// is not in the years 1 to 9000. It takes no memory.
pub fn due_day(moment: Moment, terms: &SetTerms) -> Result<i32, DayRange>
    ensures range { IsOk result ↔ IsCallingDay moment.day }
    ensures years { (y : ℤ) (m d : ℕ) → IsCivilDate y m d → days_from_civil y m d ≡ moment.day
        → IsOk result ↔ IsBetween (pos 1) (pos 9000) y }
    ensures refused { IfErr result (λ e. e.day ≡ moment.day) }
    ensures least { IfOk result (λ due. IsDueDay terms.now moment due) }
    ensures value { IfOk result (λ due. due ≡ due_day moment terms.now) }
{
    let day = moment.day();
    if !is_calling_day(day) {
        return Err(DayRange { day });
    }
    let later = days_until(day, business_days_to_wait(moment, terms), terms);
    Ok(day + i32::from(later))
}

/// Whether the day is in the years 1 to 9000.
fn is_calling_day(day: i32) -> bool
    ensures calling { IsTrue result ↔ IsCallingDay day }
    ensures numbers { IsTrue result ↔ IsBetween (neg_ℤ (pos 719162)) (pos 2568019) day }
    ensures years { (y : ℤ) (m d : ℕ) → IsCivilDate y m d → days_from_civil y m d ≡ day
        → IsTrue result ↔ IsBetween (pos 1) (pos 9000) y }
{
    (FIRST_DAY..=LAST_DAY).contains(&day)
}

fn business_days_to_wait(moment: Moment, terms: &SetTerms) -> u16
    ensures value { result ≡ wait moment.minute terms.now }
    ensures few { result ≤ 2 }
{
    if moment.minute() <= terms.notification() {
        1
    } else {
        2
    }
}

/// The least number of days after `day` in which `count` business days fall.
fn days_until(day: i32, count: u16, terms: &SetTerms) -> u16
    requires low { neg_ℤ (pos 719162) ≤ℤ day }
    requires high { day ≤ℤ pos 2568019 }
    requires few { count ≤ 2 }
    ensures least { IsDueAfter terms.now.holidays day count result }
    ensures value { result ≡ days_until terms.now.holidays day count }
    ensures small { result ≤ 5740 }
{
    // There are at most 4,096 holidays.
    terms.facts();
    let mut later = 0;
    let mut left = count;
    while left > 0 {
        later += 1;
        if is_business_day(day + i32::from(later), terms) {
            left -= 1;
        }
    }
    later
}

fn is_business_day(day: i32, terms: &SetTerms) -> bool
    requires { day ≤ℤ pos 2573759 }
    ensures { result ≡ is_business_day terms.now.holidays day }
{
    is_weekday(day) && !terms.is_holiday(day)
}

/// Whether the day is one from Monday to Friday: day 0 was a Thursday.
fn is_weekday(day: i32) -> bool
    requires { day ≤ℤ pos 2573759 }
    ensures { result ≡ nat_lt (weekday_number day) 5 }
{
    (day + 3).rem_euclid(7) < 5
}
