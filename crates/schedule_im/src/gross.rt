//! The gross margin of each class.
ghost use Rattle.std.specs.Prelude.{◌≡◌, ◌≤◌};
ghost use Rattle.schedule_im.specs.Margin.{IsPart, IsShare, AreParts};
ghost use Rattle.schedule_im.specs.Margin.{class_gross, class_total, gross_by_class};
ghost use Rattle.schedule_im.specs.Rule.{gross_of, sizes, most_sizes};

use crate::class::ScheduleClass;
use crate::end_date::EndDate;
use crate::parts::share;
use crate::row::ScheduleRow;

/// The gross margin of each class, in USD cents.
#[derive(Clone, Copy, PartialEq, Eq)]
pub struct ClassGross {
    rates: i128,
    credit: i128,
    equity: i128,
    commodity: i128,
    fx: i128,
    other: i128,
}

impl ClassGross {
    /// The gross margin of the rows' notionals, by class.
    pub(crate) fn of_rows(rows: &[ScheduleRow], day: EndDate) -> ClassGross
        requires { sizes rows.now ≤ most_sizes }
        ensures value { result ≡ gross_by_class day rows.now }
        ensures parts { AreParts result }
    {
        ClassGross {
            rates: gross_of(rows, day, ScheduleClass::Rates),
            credit: gross_of(rows, day, ScheduleClass::Credit),
            equity: gross_of(rows, day, ScheduleClass::Equity),
            commodity: gross_of(rows, day, ScheduleClass::Commodity),
            fx: gross_of(rows, day, ScheduleClass::Fx),
            other: gross_of(rows, day, ScheduleClass::Other),
        }
    }

    /// The gross margin of a class.
    pub fn of(&self, class: ScheduleClass) -> i128
        ensures { result ≡ class_gross self.now class }
    {
        match class {
            ScheduleClass::Rates => self.rates,
            ScheduleClass::Credit => self.credit,
            ScheduleClass::Equity => self.equity,
            ScheduleClass::Commodity => self.commodity,
            ScheduleClass::Fx => self.fx,
            ScheduleClass::Other => self.other,
        }
    }

    /// The gross margin of all classes together.
    pub(crate) fn total(&self) -> i128
        requires { AreParts self.now }
        ensures value { result ≡ class_total self.now }
        ensures part { IsPart result }
    {
        self.rates + self.credit + self.equity + self.commodity + self.fx + self.other
    }
}

/// The gross margin of a class.
fn gross_of(rows: &[ScheduleRow], day: EndDate, class: ScheduleClass) -> i128
    requires { sizes rows.now ≤ most_sizes }
    ensures value { result ≡ gross_of day rows.now class }
    ensures share { IsShare result }
{
    let mut gross = 0;
    for row in rows {
        gross += share(row, day, class);
    }
    gross
}
