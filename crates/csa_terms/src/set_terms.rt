ghost use Rattle.std.specs.Prelude.{◌≡◌, ◌<◌, length, option_map, IfOk};
ghost use Rattle.csa_terms.specs.Terms.{IsAgreement, IsShare, haircut_of, is_holiday};
ghost use Rattle.csa_terms.specs.Held.{IsBounded};
ghost use Rattle.csa_terms.specs.SetView.{AreAmounts};

use crate::haircut_table::HaircutTable;
use crate::holiday_list::HolidayList;
use std::alloc::{AllocError, Global};
use std::marker::Model;
use toml_values::mh_units::{Cents, Rate4};
use toml_values::simm_kinds::Name;

/// The amounts of an agreement, in cents.
#[derive(Clone, Copy)]
pub struct Amounts {
    /// What stays uncovered: 0 to 10^15.
    pub threshold: Cents,
    /// The least amount of a delivery: 0 to 10^15.
    pub mta_delivery: Cents,
    /// The least amount of a return: 0 to 10^15.
    pub mta_return: Cents,
    /// The unit to which calls are rounded: 1 to 10^12.
    pub rounding: Cents,
}

/// The terms of one netting set's agreement. Each value is in its range, and the haircuts are of
/// different classes. Contracts see the plain record.
#[derive(Drop)]
pub struct SetTerms {
    name: Name,
    amounts: Amounts,
    notification: u16,
    fx_haircut: Rate4,
    haircuts: HaircutTable,
    holidays: HolidayList,
}

impl Model for SetTerms {
    ghost use Rattle.csa_terms.specs.Terms.{Agreement};
    ghost use Rattle.csa_terms.specs.SetView.{set_view};
    ghost use Rattle.csa_terms.specs.Held.{IsBounded};

    ghost Value = { Agreement };

    ghost view = { λ t.
        set_view t.name t.amounts t.notification t.fx_haircut t.haircuts t.holidays };

    ghost invariant = { λ t.
        IsBounded (set_view t.name t.amounts t.notification t.fx_haircut t.haircuts t.holidays) };
}

impl SetTerms {
    ghost use Rattle.csa_terms.specs.SetView.{set_view};

    /// The terms of these parts, each in its range. The notification is in minutes from midnight.
    pub fn of_parts(
        name: Name,
        amounts: Amounts,
        notification: u16,
        fx_haircut: Rate4,
        haircuts: HaircutTable,
        holidays: HolidayList,
    ) -> SetTerms
        requires { IsBounded (set_view name amounts notification fx_haircut haircuts holidays) }
        ensures { result ≡ set_view name amounts notification fx_haircut haircuts holidays }
    {
        SetTerms {
            name,
            amounts,
            notification,
            fx_haircut,
            haircuts,
            holidays,
        }
    }

    /// What each set's terms keep. It does nothing.
    pub fn facts(&self)
        ensures { IsAgreement self.now }
    {
        let _name = self.name.bytes();
        self.haircuts.facts();
        self.holidays.facts();
    }

    /// Equal terms once more. The only error is want of memory.
    pub fn copy(&self, alloc: Global) -> Result<SetTerms, AllocError>
        ensures { IfOk result (λ t. t ≡ self.now) }
    {
        Ok(SetTerms {
            name: self.name.copy(alloc)?,
            amounts: self.amounts,
            notification: self.notification,
            fx_haircut: self.fx_haircut,
            haircuts: self.haircuts.copy(alloc)?,
            holidays: self.holidays.copy(alloc)?,
        })
    }

    /// The terms of the same set with other amounts and haircuts, each in its range: its name, its
    /// notification minute and its holidays stay. The only error is want of memory.
    pub fn with(
        &self,
        alloc: Global,
        amounts: Amounts,
        fx_haircut: Rate4,
        haircuts: HaircutTable,
    ) -> Result<SetTerms, AllocError>
        requires amounts { AreAmounts amounts }
        requires fx_haircut { IsShare fx_haircut.0 }
        ensures { IfOk result (λ t. t ≡ set_view self.now.name amounts self.now.notification
            fx_haircut haircuts self.now.holidays) }
    {
        Ok(SetTerms {
            name: self.name.copy(alloc)?,
            amounts,
            notification: self.notification,
            fx_haircut,
            haircuts,
            holidays: self.holidays.copy(alloc)?,
        })
    }

    /// Lends the name of the netting set; it isn't empty.
    pub fn name(&self) -> &Name
        ensures { result.now ≡ self.now.name }
    {
        &self.name
    }

    /// What stays uncovered: 0 to 10^15 cents.
    pub fn threshold(&self) -> Cents
        ensures { result.0 ≡ self.now.threshold }
    {
        self.amounts.threshold
    }

    /// The least amount of a delivery: 0 to 10^15 cents.
    pub fn mta_delivery(&self) -> Cents
        ensures { result.0 ≡ self.now.mta_delivery }
    {
        self.amounts.mta_delivery
    }

    /// The least amount of a return: 0 to 10^15 cents.
    pub fn mta_return(&self) -> Cents
        ensures { result.0 ≡ self.now.mta_return }
    {
        self.amounts.mta_return
    }

    /// The unit to which calls are rounded: 1 to 10^12 cents.
    pub fn rounding(&self) -> Cents
        ensures { result.0 ≡ self.now.rounding }
    {
        self.amounts.rounding
    }

    /// The last minute of a demand in time: 0 to 1,439 from midnight.
    pub fn notification(&self) -> u16
        ensures { result ≡ self.now.notification }
    {
        self.notification
    }

    /// What is taken off, beside the class's haircut, where the currency is another: 0 to 10,000
    /// ten-thousandths of the value.
    pub fn fx_haircut(&self) -> Rate4
        ensures { result.0 ≡ self.now.fx_haircut }
    {
        self.fx_haircut
    }

    /// The haircut of a class of collateral, 0 to 10,000 ten-thousandths of the value, or `None`
    /// where the agreement has none for it. It is found in O(log n) steps for n haircuts.
    pub fn haircut(&self, class: &Name) -> Option<Rate4>
        ensures { option_map (λ r. r.0) result ≡ haircut_of self.now class.now }
    {
        self.haircuts.get(class)
    }

    /// Whether the day, counted from 1970-01-01, is a holiday. It is found in O(log n) steps for
    /// n holidays.
    pub fn is_holiday(&self, day: i32) -> bool
        ensures { result ≡ is_holiday self.now day }
    {
        self.holidays.contains(day)
    }
}
