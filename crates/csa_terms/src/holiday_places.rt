ghost use Rattle.std.specs.Prelude.{◌≡◌, ◌≤◌, [], Some, IfOk};
ghost use Rattle.toml.specs.View.{view, items_view, table_view};
ghost use Rattle.toml_values.specs.Values.{items_count};
ghost use Rattle.iso_dates.specs.Dates.{IsCalendarDay};
ghost use Rattle.csa_terms.specs.Faults.{Gives};
ghost use Rattle.csa_terms.specs.Values.{date_of};
ghost use Rattle.csa_terms.specs.Paths.{holiday_path};
ghost use Rattle.csa_terms.specs.Grammar.{holidays_from, holiday_list_of};

use crate::fault::TermsFault;
use crate::holiday_list::HolidayList;
use crate::keyed::{array_at, at_most};
use crate::terms_path::TermsTable;
use crate::value::date;
use std::alloc::Global;
use toml::{Table, Value};
use toml_values::{Part, place_count};

/// How many holidays a set has at most.
const MOST: usize = 4_096;

/// The day of a place, counted from 1.
#[tactic(auto, unfolding(crate::specs::Paths::holiday_path))]
fn read_place(alloc: Global, set: usize, place: usize, value: &Value) -> Result<i32, TermsFault>
    ensures value { Gives (λ d. d) result
        (date_of (holiday_path set place) (Some (view value.now))) }
    ensures calendar { IfOk result IsCalendarDay }
{
    let path = [
        Part::Key("set"),
        Part::Place(set),
        Part::Key("holidays"),
        Part::Place(place),
    ];
    date(alloc, &path, Some(value))
}

/// The holidays of an array's places.
fn read_places(alloc: Global, set: usize, places: &[Value]) -> Result<HolidayList, TermsFault>
    requires { items_count (items_view places.now) ≤ 4096 }
    ensures { Gives (λ l. l) result (holidays_from set [] 1 (items_view places.now)) }
{
    let mut days = HolidayList::new(alloc);
    for (index, value) in places.iter().enumerate() {
        days.insert(read_place(alloc, set, index + 1, value)?)?;
    }
    Ok(days)
}

/// The holidays of a set.
#[tactic(auto, unfolding(crate::specs::Grammar::holiday_list_of))]
pub fn read_holidays(alloc: Global, set: usize, terms: &Table) -> Result<HolidayList, TermsFault>
    ensures { Gives (λ l. l) result (holiday_list_of set (table_view terms.now)) }
{
    let places = array_at(alloc, set, terms, "holidays")?;
    at_most(
        alloc,
        TermsTable::Own(set),
        "holidays",
        MOST,
        place_count(places),
    )?;
    read_places(alloc, set, places)
}
