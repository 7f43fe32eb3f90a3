//! Days and moments in print.
ghost use Rattle.std.specs.Prelude.{◌≡◌, ◌++◌, ◌<◌, OnOk, IfNone, IfSome};
ghost use Rattle.std.specs.Fmt.{signed_decimal};
ghost use Rattle.jiff_fmt.specs.Text.{pad2};
ghost use Rattle.jiff_fmt.specs.Text.{date_text as text_of_date};
ghost use Rattle.csa_terms.specs.Moments.{day_text, moment_text};

use crate::moment::Moment;
use itoa::Buffer;
use jiff::fmt::temporal::DateTimePrinter;
use jiff_core::civil::Date;
use std::alloc::AllocError;
use toml_values::mh_units::Text;

/// 0001-01-01, counted from 1970-01-01.
const FIRST_DAY: i32 = -719_162;

/// The date of a day, counted from 1970-01-01, whose year is 1 to 9999.
fn date_of(day: i32) -> Option<Date>
    ensures dated { IfSome result (λ d. day_text day ≡ text_of_date d) }
    ensures undated { IfNone result (day_text day ≡ signed_decimal day) }
{
    if day < FIRST_DAY {
        return None;
    }
    match Date::from_unix_epoch_day(i64::from(day)) {
        Ok(date) => Some(date),
        Err(_) => None,
    }
}

/// Adds a day, counted from 1970-01-01, to a text: `YYYY-MM-DD`, or its number where its year
/// isn't 1 to 9999. The only error is want of memory; a front of it may have been added then.
pub fn push_day(text: &mut Text, day: i32) -> Result<(), AllocError>
    ensures { OnOk result (text.new ≡ text.old ++ day_text day) }
{
    match date_of(day) {
        Some(date) => text.extend(DateTimePrinter::new().date_text(date).as_str().as_bytes()),
        None => text.extend(Buffer::new().format(day).as_bytes()),
    }
}

/// Adds a moment to a text as a feed has it, `YYYY-MM-DDTHH:MM`, its day as `push_day` adds it.
/// The only error is want of memory; a front of it may have been added then.
#[tactic(auto, unfolding(crate::specs::Moments::moment_text))]
pub fn push_moment(text: &mut Text, moment: Moment) -> Result<(), AllocError>
    ensures { OnOk result (text.new ≡ text.old ++ moment_text moment) }
{
    push_day(text, moment.day())?;
    text.push(b'T')?;
    push_two_digits(text, moment.minute() / 60)?;
    text.push(b':')?;
    push_two_digits(text, moment.minute() % 60)
}

/// Adds a number in two digits.
fn push_two_digits(text: &mut Text, number: u16) -> Result<(), AllocError>
    requires { number < 100 }
    ensures { OnOk result (text.new ≡ text.old ++ pad2 number) }
{
    text.push(b'0' + (number / 10) as u8)?;
    text.push(b'0' + (number % 10) as u8)
}
