ghost use Rattle.std.specs.Prelude.{◌≡◌, ◌≤◌, Some, IfOk};
ghost use Rattle.toml.specs.View.{view, table_view};
ghost use Rattle.toml_values.specs.Answers.{Gives as GivesValue};
ghost use Rattle.toml_values.specs.Values.{members_count, rate_of};
ghost use Rattle.csa_terms.specs.Terms.{IsShare};
ghost use Rattle.csa_terms.specs.Faults.{Gives};
ghost use Rattle.csa_terms.specs.Ranges.{shares};
ghost use Rattle.csa_terms.specs.Values.{name_of};
ghost use Rattle.csa_terms.specs.Paths.{class_path};
ghost use Rattle.csa_terms.specs.Grammar.{haircut_of_entry, haircuts_of, haircut_table_of};

use crate::fault::TermsFault;
use crate::haircut_table::HaircutTable;
use crate::keyed::{at_most, table_at};
use crate::range::SHARE;
use crate::terms_path::{TermsTable, own_class, post_class};
use crate::value::name;
use std::alloc::Global;
use toml::{Table, Value};
use toml_values::mh_units::Rate4;
use toml_values::simm_kinds::Name;
use toml_values::{ValueFault, entry_count, rate};

/// How many haircuts a set has at most.
const MOST: usize = 256;

/// An entry of a set's haircuts.
#[derive(Drop)]
struct Entry {
    class: Name,
    rate: Rate4,
}

fn class_of(alloc: Global, table: TermsTable, class: &str) -> Result<Name, TermsFault>
    ensures value { Gives (λ n. n) result (name_of (class_path table class.now) class.now) }
    ensures same { IfOk result (λ n. n ≡ class.now) }
{
    match table {
        TermsTable::Own(set) => name(alloc, &own_class(set, class), class),
        TermsTable::Post(set) => name(alloc, &post_class(set, class), class),
    }
}

fn rate_of(
    alloc: Global,
    table: TermsTable,
    class: &str,
    value: &Value,
) -> Result<Rate4, ValueFault>
    ensures value { GivesValue (λ r. r.0) result
        (rate_of (class_path table class.now) shares (Some (view value.now))) }
    ensures share { IfOk result (λ r. IsShare r.0) }
{
    match table {
        TermsTable::Own(set) => rate(alloc, &own_class(set, class), Some(value), SHARE),
        TermsTable::Post(set) => rate(alloc, &post_class(set, class), Some(value), SHARE),
    }
}

#[tactic(auto, unfolding(crate::specs::Grammar::haircut_of_entry))]
fn read_entry(
    alloc: Global,
    table: TermsTable,
    class: &str,
    value: &Value,
) -> Result<Entry, TermsFault>
    ensures value { Gives (λ e. record { class = e.class; rate = e.rate.0 }) result
        (haircut_of_entry table class.now (view value.now)) }
    ensures share { IfOk result (λ e. IsShare e.rate.0) }
    ensures same { IfOk result (λ e. e.class ≡ class.now) }
{
    let name = class_of(alloc, table, class)?;
    let rate = rate_of(alloc, table, class, value)?;
    Ok(Entry { class: name, rate })
}

/// The haircuts of a table's entries.
fn read_entries(
    alloc: Global,
    table: TermsTable,
    entries: &Table,
) -> Result<HaircutTable, TermsFault>
    requires { members_count (table_view entries.now) ≤ 256 }
    ensures { Gives (λ t. t) result (haircuts_of table (table_view entries.now)) }
{
    // The classes ascend.
    let _count = entries.len();
    let mut haircuts = HaircutTable::new(alloc);
    for (class, value) in entries {
        let entry = read_entry(alloc, table, class.as_str(), value)?;
        haircuts.put(entry.class, entry.rate)?;
    }
    Ok(haircuts)
}

/// The haircuts of a table of a set's terms.
#[tactic(auto, unfolding(crate::specs::Grammar::haircut_table_of))]
pub fn read_haircuts(
    alloc: Global,
    table: TermsTable,
    terms: &Table,
) -> Result<HaircutTable, TermsFault>
    ensures { Gives (λ t. t) result (haircut_table_of table (table_view terms.now)) }
{
    let entries = table_at(alloc, table, terms, "haircuts")?;
    at_most(alloc, table, "haircuts", MOST, entry_count(entries))?;
    read_entries(alloc, table, entries)
}
