ghost use Rattle.std.specs.Prelude.{◌≡◌, ◌<◌, [], length, IfOk, OnOk, OnErr};
ghost use Rattle.std.specs.BTreeSet.{insert_key};
ghost use Rattle.std.specs.Ordering.{int_cmp};
ghost use Rattle.iso_dates.specs.Dates.{IsCalendarDay};
ghost use Rattle.csa_terms.specs.Terms.{AreHolidays, is_among};

use std::alloc::{AllocError, Global};
use std::collections::BTreeSet;
use std::marker::Model;

/// Holidays as days counted from 1970-01-01: at most 4,096, each from 0001-01-01 to 9999-12-31.
/// Contracts see just their list, in which each stands once and in order.
#[derive(Drop)]
pub struct HolidayList {
    days: BTreeSet<i32>,
}

impl Model for HolidayList {
    ghost use Rattle.std.specs.Prelude.{List, ℤ};
    ghost use Rattle.csa_terms.specs.Terms.{AreHolidays};

    ghost Value = { List ℤ };

    ghost view = { λ l. l.days.keys };

    ghost invariant = { λ l. AreHolidays l.days.keys };
}

impl HolidayList {
    /// No holiday. It takes no memory.
    pub fn new(alloc: Global) -> Self
        ensures { result ≡ [] }
    {
        HolidayList {
            days: BTreeSet::new(alloc),
        }
    }

    /// Adds a day, counted from 1970-01-01, where it isn't there. The only error is want of
    /// memory, and then nothing changes.
    pub fn insert(&mut self, day: i32) -> Result<(), AllocError>
        requires few { length self.old < 4096 }
        requires calendar { IsCalendarDay day }
        ensures ok { OnOk result (self.new ≡ insert_key int_cmp self.old day) }
        ensures err { OnErr result (self.new ≡ self.old) }
    {
        self.days.insert(day)?;
        Ok(())
    }

    /// Whether the day, counted from 1970-01-01, is one of them.
    pub fn contains(&self, day: i32) -> bool
        ensures { result ≡ is_among self.now day }
    {
        self.days.contains(&day)
    }

    /// What each list keeps. It does nothing.
    pub fn facts(&self)
        ensures { AreHolidays self.now }
    {
        let _days = &self.days;
    }

    /// The same days once more. The only error is want of memory.
    pub fn copy(&self, alloc: Global) -> Result<HolidayList, AllocError>
        ensures { IfOk result (λ l. l ≡ self.now) }
    {
        let days = self.days.clone()?;
        Ok(HolidayList { days })
    }
}
