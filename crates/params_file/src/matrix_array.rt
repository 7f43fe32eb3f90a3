ghost use Rattle.std.specs.Prelude.{◌≡◌, [], map, IfOk};
ghost use Rattle.toml.specs.View.{view, items_view};
ghost use Rattle.simm_params.specs.TomlValues.Answers.{Gives};
ghost use Rattle.simm_params.specs.TomlValues.Paths.{word_of};
ghost use Rattle.simm_params.specs.TomlValues.Places.{each_of};
ghost use Rattle.simm_params.specs.TomlValues.Values.{found};
ghost use Rattle.simm_params.specs.Matrix.{IsMatrix};
ghost use Rattle.params_file.specs.Matrix.{row_at, matrix_of};

use crate::place::place_path;
use crate::rate_array::read_rates;
use simm_params::toml_values::{Part, Range, ValueFault, array_of_length};
use simm_params::{Matrix, Rates};
use std::alloc::Global;
use toml::Value;

/// The row at a place, counted from 1, of the array at a path.
fn row_at(
    alloc: Global,
    path: &[Part<'_>],
    size: usize,
    range: Range,
    number: usize,
    value: &Value,
) -> Result<Rates, ValueFault>
    ensures { Gives (λ r. r) result
        (row_at (map word_of path.now) size range number [] (view value.now)) }
{
    let path = place_path(alloc, path, number)?;
    read_rates(alloc, path.as_slice(), Some(value), size, range)
}

/// The rows at the places of the array at a path.
fn read_rows(
    alloc: Global,
    path: &[Part<'_>],
    size: usize,
    range: Range,
    places: &[Value],
) -> Result<Vec<Rates>, ValueFault>
    ensures { Gives (λ r. r.items) result
        (each_of (row_at (map word_of path.now) size range) 1 [] (items_view places.now)) }
{
    let mut rows = Vec::with_capacity(alloc, places.len())?;
    for (index, value) in places.iter().enumerate() {
        rows.push(row_at(alloc, path, size, range, index + 1, value)?)?;
    }
    Ok(rows)
}

/// A matrix of so many rows, each of so many rates in the range. Another array, and any other
/// value, is `Missing`; then the places of each row are tested in order, row by row.
#[tactic(auto, unfolding(crate::specs::Matrix::matrix_of))]
pub fn read_matrix(
    alloc: Global,
    path: &[Part<'_>],
    value: Option<&Value>,
    size: usize,
    range: Range,
) -> Result<Matrix, ValueFault>
    ensures value { Gives (λ m. m) result
        (matrix_of (map word_of path.now) size range (found value.entry)) }
    ensures matrix { IfOk result (IsMatrix size range) }
{
    let places = array_of_length(alloc, path, value, size)?;
    let rows = read_rows(alloc, path, size, range, places)?;
    Ok(Matrix::new(rows))
}
