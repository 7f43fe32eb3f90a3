ghost use Rattle.std.specs.Prelude.{◌≡◌};
ghost use Rattle.toml.specs.Data.{get_member, get_item};
ghost use Rattle.toml.specs.View.{items_view, table_view};
ghost use Rattle.toml_values.specs.Paths.{path_of};
ghost use Rattle.toml_values.specs.Answers.{Gives};
ghost use Rattle.toml_values.specs.Values.{found, members_count, items_count};
ghost use Rattle.toml_values.specs.Values.{array_of, array_of_length, table_of};

use crate::fault::ValueFault;
use crate::path::{Part, path_text};
use std::alloc::Global;
use toml::{Table, Value};

/// The value at a key of a table.
pub fn member<'a>(table: &'a Table, key: &str) -> Option<&'a Value>
    ensures { found result ≡ get_member key.now (table_view table.now) }
{
    table.get(key)
}

/// The value at a place of an array, counted from 0.
pub fn place(places: &[Value], index: usize) -> Option<&Value>
    ensures { found result ≡ get_item index (items_view places.now) }
{
    places.get(index)
}

/// How many entries a table has.
pub fn entry_count(table: &Table) -> usize
    ensures { result ≡ members_count (table_view table.now) }
{
    table.len()
}

/// How many places an array has.
pub fn place_count(places: &[Value]) -> usize
    ensures { result ≡ items_count (items_view places.now) }
{
    places.len()
}

/// A table. Any other value is `Missing`.
pub fn table<'a>(
    alloc: Global,
    path: &[Part<'_>],
    value: Option<&'a Value>,
) -> Result<&'a Table, ValueFault>
    ensures { Gives (λ t. table_view t.now) result
        (table_of (path_of path.now) (found value.entry)) }
{
    match value.and_then(Value::as_table) {
        Some(table) => Ok(table),
        None => Err(ValueFault::Missing(path_text(alloc, path)?)),
    }
}

/// The places of an array. Any other value is `Missing`.
pub fn array<'a>(
    alloc: Global,
    path: &[Part<'_>],
    value: Option<&'a Value>,
) -> Result<&'a [Value], ValueFault>
    ensures { Gives (λ a. items_view a.now) result
        (array_of (path_of path.now) (found value.entry)) }
{
    match value.and_then(Value::as_array) {
        Some(array) => Ok(array.as_slice()),
        None => Err(ValueFault::Missing(path_text(alloc, path)?)),
    }
}

/// The places of an array that has `count` of them. Any other value is `Missing`, an array of
/// another length too.
#[tactic(auto, unfolding(crate::specs::Values::array_of_length))]
pub fn array_of_length<'a>(
    alloc: Global,
    path: &[Part<'_>],
    value: Option<&'a Value>,
    count: usize,
) -> Result<&'a [Value], ValueFault>
    ensures { Gives (λ a. items_view a.now) result
        (array_of_length (path_of path.now) count (found value.entry)) }
{
    let places = array(alloc, path, value)?;
    if place_count(places) == count {
        Ok(places)
    } else {
        Err(ValueFault::Missing(path_text(alloc, path)?))
    }
}
