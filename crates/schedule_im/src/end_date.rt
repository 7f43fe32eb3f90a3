ghost use Rattle.std.specs.Prelude.{◌≡◌, ◌≤◌};
ghost use Rattle.schedule_im.specs.EndDates.{end_date_of, is_up_to};

use iso_dates::{day_of_date, numbers_in};
use std::marker::Model;

/// A day of the calendar in the years 1 to 9999. Days are ordered by year, month and day.
#[derive(Clone, Copy, PartialEq, Eq, PartialOrd, Ord)]
pub struct EndDate {
    year: u16,
    month: u16,
    day: u16,
}

impl Model for EndDate {
    ghost use Rattle.iso_dates.specs.declared.date.DateNumbers.{DateNumbers};
    ghost use Rattle.schedule_im.specs.EndDates.{IsEndDate};

    ghost Value = { DateNumbers };

    ghost view = { λ e. record { year = e.year; month = e.month; day = e.day } };

    ghost invariant = { λ e. IsEndDate (record { year = e.year; month = e.month; day = e.day }) };

    ghost inverse = { λ d. record { year = d.year; month = d.month; day = d.day } };
}

impl EndDate {
    /// The day of a text `YYYY-MM-DD`; None exactly where the text isn't of that form, or the
    /// calendar has no such day in the years 0001 to 9999.
    #[tactic(auto, unfolding(crate::specs::EndDates::end_date_of))]
    pub fn read(text: &[u8]) -> Option<EndDate>
        ensures { result ≡ end_date_of text.now }
    {
        let date = numbers_in(text)?;
        day_of_date(date)?;
        Some(EndDate {
            year: date.year,
            month: date.month,
            day: date.day,
        })
    }

    /// Whether this day isn't behind that of `start` with its year raised.
    pub(crate) fn is_up_to(self, start: EndDate, years: u16) -> bool
        requires { years ≤ 5 }
        ensures { result ≡ is_up_to self start years }
    {
        let last_year = start.year + years;
        if self.year != last_year {
            return self.year < last_year;
        }
        if self.month != start.month {
            return self.month < start.month;
        }
        self.day <= start.day
    }
}
