ghost use Rattle.std.specs.Prelude.{◌≡◌, ◌≤◌, ◌<◌, [], Some, is_some, codes, length, IfOk, OnOk};
ghost use Rattle.std.specs.List.{list_any};
ghost use Rattle.toml.specs.Data.{get_member, as_table};
ghost use Rattle.toml.specs.View.{view, items_view, table_view};
ghost use Rattle.toml_values.specs.Answers.{Gives as GivesValue};
ghost use Rattle.toml_values.specs.Values.{items_count, array_of, table_of};
ghost use Rattle.toml_values.specs.Places.{each_of};
ghost use Rattle.csa_terms.specs.Faults.{Gives};
ghost use Rattle.csa_terms.specs.Paths.{sets_path, set_path};
ghost use Rattle.csa_terms.specs.Grammar.{few_sets, some_table, set_of_place};
ghost use Rattle.csa_terms.specs.Grammar.{set_at, terms_of_table};

use crate::both_terms::BothTerms;
use crate::fault::TermsFault;
use crate::names::check_names;
use crate::set_reader::read_set;
use crate::terms::Terms;
use std::alloc::Global;
use toml::{Table, Value};
use toml_values::{Part, ValueFault, array, member, path_text, place_count, table};

/// How many sets a file has at most.
const MOST: usize = 16;

#[tactic(auto, unfolding(crate::specs::Paths::sets_path))]
fn set_places(alloc: Global, root: &Table) -> Result<&[Value], ValueFault>
    ensures { GivesValue (λ a. items_view a.now) result
        (array_of sets_path (get_member (codes "set") (table_view root.now))) }
{
    array(alloc, &[Part::Key("set")], member(root, "set"))
}

fn check_count(places: &[Value]) -> Result<(), TermsFault>
    ensures value { Gives (λ u. u) result (few_sets (items_count (items_view places.now))) }
    ensures few { OnOk result (items_count (items_view places.now) ≤ 16) }
{
    let count = place_count(places);
    if MOST < count {
        return Err(TermsFault::TooManySets(count));
    }
    Ok(())
}

fn has_table(places: &[Value]) -> bool
    ensures { result ≡ list_any (λ v. is_some (as_table (view v))) places.now }
{
    places.iter().any(|value| value.as_table().is_some())
}

#[tactic(auto, unfolding(crate::specs::Paths::sets_path))]
fn check_tables(alloc: Global, places: &[Value]) -> Result<(), ValueFault>
    ensures value { GivesValue (λ u. u) result (some_table (items_view places.now)) }
    ensures some { OnOk result (0 < items_count (items_view places.now)) }
{
    if !has_table(places) {
        return Err(ValueFault::Missing(path_text(alloc, &[Part::Key("set")])?));
    }
    Ok(())
}

#[tactic(auto, unfolding(crate::specs::Paths::set_path))]
fn set_table<'a>(alloc: Global, number: usize, value: &'a Value) -> Result<&'a Table, ValueFault>
    ensures { GivesValue (λ t. table_view t.now) result
        (table_of (set_path number) (Some (view value.now))) }
{
    let path = [Part::Key("set"), Part::Place(number)];
    table(alloc, &path, Some(value))
}

#[tactic(auto, unfolding(crate::specs::Grammar::set_of_place))]
fn read_place(alloc: Global, number: usize, value: &Value) -> Result<BothTerms, TermsFault>
    ensures { Gives (λ t. t) result (set_of_place number (view value.now)) }
{
    let terms = set_table(alloc, number, value)?;
    read_set(alloc, number, terms)
}

/// The terms of the sets in their tables.
fn read_places(alloc: Global, places: &[Value]) -> Result<Vec<BothTerms>, TermsFault>
    ensures value { Gives (λ v. v.items) result (each_of set_at 1 [] (items_view places.now)) }
    ensures len { IfOk result (λ v. length v.items ≡ items_count (items_view places.now)) }
{
    let mut sets = Vec::with_capacity(alloc, places.len())?;
    for (index, value) in places.iter().enumerate() {
        sets.push(read_place(alloc, index + 1, value)?)?;
    }
    Ok(sets)
}

/// The terms of the sets of a document.
#[tactic(auto, unfolding(crate::specs::Grammar::terms_of_table))]
pub fn read_sets(alloc: Global, root: &Table) -> Result<Terms, TermsFault>
    ensures { Gives (λ t. t) result (terms_of_table (table_view root.now)) }
{
    let places = set_places(alloc, root)?;
    check_count(places)?;
    check_tables(alloc, places)?;
    let sets = read_places(alloc, places)?;
    check_names(alloc, sets.as_slice())?;
    Ok(Terms::from_sets(sets))
}
