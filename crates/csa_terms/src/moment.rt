ghost use Rattle.std.specs.Prelude.{◌≡◌, ◌<◌, nat_lt, if◌then◌else◌};
ghost use Rattle.csa_terms.specs.Moments.{moment_of};

use iso_dates::{date_in, minute_in};
use std::marker::Model;

/// The local time of a demand: a day, counted from 1970-01-01, and a minute of it, from 0 at
/// midnight to 1,439.
#[derive(Clone, Copy)]
pub struct Moment {
    day: i32,
    minute: u16,
}

impl Model for Moment {
    ghost use Rattle.std.specs.Prelude.{◌<◌};
    ghost use Rattle.csa_terms.specs.Calendar.{Moment as MomentValue};

    ghost Value = { MomentValue };

    ghost view = { λ m. record { day = m.day; minute = m.minute } };

    ghost invariant = { λ m. m.minute < 1440 };

    ghost inverse = { λ m. record { day = m.day; minute = m.minute } };
}

impl Moment {
    /// The minute of the day, where the day has it: None for 1,440 and more.
    pub fn new(day: i32, minute: u16) -> Option<Moment>
        ensures { result
            ≡ (if nat_lt minute 1440 then Some (record { day = day; minute = minute }) else None) }
    {
        if minute < 1_440 {
            Some(Moment { day, minute })
        } else {
            None
        }
    }

    /// The moment that a text has as a feed writes it: exactly `YYYY-MM-DDTHH:MM`, with a date of
    /// the calendar, of the years 0001 to 9999, and a time from `00:00` to `23:59`. None for every
    /// other text.
    #[tactic(auto, unfolding(crate::specs::Moments::moment_of))]
    pub fn read(text: &[u8]) -> Option<Moment>
        ensures { result ≡ moment_of text.now }
    {
        if text.len() != 16 || text[10] != b'T' {
            return None;
        }
        let day = date_in(&text[0..10])?;
        let minute = minute_in(&text[11..16])?;
        Some(Moment { day, minute })
    }

    /// The day, counted from 1970-01-01.
    pub fn day(self) -> i32
        ensures { result ≡ self.day }
    {
        self.day
    }

    /// The minute, counted from midnight.
    pub fn minute(self) -> u16
        ensures value { result ≡ self.minute }
        ensures within { result < 1440 }
    {
        self.minute
    }
}
