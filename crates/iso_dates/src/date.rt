ghost use Rattle.std.specs.Prelude.{◌≡◌, ◌≤◌, ◌<◌, ◌^◌, length, IfSome};
ghost use Rattle.iso_dates.specs.Dates.{IsCalendarDay, IsInDigits, number_in, minute_in};
ghost use Rattle.iso_dates.specs.Dates.{minute_of_day, numbers_in, day_of_date, date_in};

use jiff::civil::Date;

/// The numbers of a text `YYYY-MM-DD`, whether or not the calendar has such a date.
#[derive(Clone, Copy)]
pub struct DateNumbers {
    /// The year, four digits.
    pub year: u16,
    /// The month, two digits.
    pub month: u16,
    /// The day of the month, two digits.
    pub day: u16,
}

/// The number that a text of at most four digits writes; None for another text.
fn number(digits: &[u8]) -> Option<u16>
    requires { length digits.now ≤ 4 }
    ensures value { result ≡ number_in digits.now }
    ensures small { IfSome result (λ n. n < 10 ^ length digits.now) }
{
    let mut number = 0;
    for digit in digits {
        if !digit.is_ascii_digit() {
            return None;
        }
        number = 10 * number + u16::from(*digit - b'0');
    }
    Some(number)
}

fn minute_of_day(hour: u16, minute: u16) -> Option<u16>
    ensures { result ≡ minute_of_day hour minute }
{
    if hour < 24 && minute < 60 {
        Some(hour * 60 + minute)
    } else {
        None
    }
}

/// The minute of the day, from midnight, of a text `HH:MM`.
#[tactic(auto, unfolding(crate::specs::Dates::minute_in))]
pub fn minute_in(text: &[u8]) -> Option<u16>
    ensures value { result ≡ minute_in text.now }
    ensures within { IfSome result (λ n. n < 1440) }
{
    if text.len() != 5 || text[2] != b':' {
        return None;
    }
    let hour = number(&text[0..2])?;
    let minute = number(&text[3..5])?;
    minute_of_day(hour, minute)
}

/// The numbers of a text `YYYY-MM-DD`; None where the text isn't of that form.
#[tactic(auto, unfolding(crate::specs::Dates::numbers_in))]
pub fn numbers_in(text: &[u8]) -> Option<DateNumbers>
    ensures value { result ≡ numbers_in text.now }
    ensures digits { IfSome result IsInDigits }
{
    if text.len() != 10 || text[4] != b'-' || text[7] != b'-' {
        return None;
    }
    Some(DateNumbers {
        year: number(&text[0..4])?,
        month: number(&text[5..7])?,
        day: number(&text[8..10])?,
    })
}

/// The day of a date, counted from 1970-01-01; None where the calendar has no such date, or its
/// year is 0.
pub fn day_of_date(date: DateNumbers) -> Option<i32>
    requires { IsInDigits date }
    ensures value { result ≡ day_of_date date.year date.month date.day }
    ensures calendar { IfSome result IsCalendarDay }
{
    if date.year == 0 {
        return None;
    }
    match Date::new(date.year as i16, date.month as i8, date.day as i8) {
        Ok(date) => Some(date.to_plain().to_unix_epoch_day()),
        Err(_) => None,
    }
}

/// The day, counted from 1970-01-01, of a text `YYYY-MM-DD`.
#[tactic(auto, unfolding(crate::specs::Dates::date_in))]
pub fn date_in(text: &[u8]) -> Option<i32>
    ensures value { result ≡ date_in text.now }
    ensures calendar { IfSome result IsCalendarDay }
{
    day_of_date(numbers_in(text)?)
}
