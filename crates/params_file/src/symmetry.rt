ghost use Rattle.std.specs.Prelude.{◌≡◌, ◌<◌, length, pos, OnOk};
ghost use Rattle.std.specs.Ordering.{int_eq};
ghost use Rattle.simm_params.specs.TomlValues.Paths.{path_of};
ghost use Rattle.params_file.specs.Faults.{Gives};
ghost use Rattle.simm_params.specs.FxView.{rows_view};
ghost use Rattle.simm_params.specs.Matrix.{entry};
ghost use Rattle.simm_params.specs.Symmetry.{IsSymmetric, AreMirrored};
ghost use Rattle.params_file.specs.Symmetry.{all_below, is_mirrored, is_symmetric};
ghost use Rattle.params_file.specs.Symmetry.{has_unit_diagonal, symmetric_at, correlations_at};

use crate::fault::ParamFault;
use simm_params::mh_units::Rate4;
use simm_params::toml_values::{Part, path_text};
use simm_params::{Matrix, PairThresholds};
use std::alloc::Global;

/// The correlation of a factor with itself.
const UNIT: Rate4 = Rate4(10_000);

/// Whether the rate at a row and a column is that across the diagonal.
fn is_mirrored(matrix: &Matrix, row: usize, column: usize) -> bool
    requires row { row < length matrix.now }
    requires column { column < length matrix.now }
    ensures { result ≡ is_mirrored matrix.now row column }
{
    matrix.at(row, column).0 == matrix.at(column, row).0
}

/// Whether each rate of a row before the diagonal is that across it.
fn is_row_mirrored(matrix: &Matrix, row: usize) -> bool
    requires { row < length matrix.now }
    ensures { result ≡ all_below row (is_mirrored matrix.now row) }
{
    for column in 0..row {
        if !is_mirrored(matrix, row, column) {
            return false;
        }
    }
    true
}

fn is_symmetric(matrix: &Matrix) -> bool
    ensures { result ≡ is_symmetric matrix.now }
{
    for row in 0..matrix.size() {
        if !is_row_mirrored(matrix, row) {
            return false;
        }
    }
    true
}

fn is_unit(matrix: &Matrix, place: usize) -> bool
    requires { place < length matrix.now }
    ensures { result ≡ int_eq (entry matrix.now place place) (pos 10000) }
{
    matrix.at(place, place).0 == UNIT.0
}

/// Whether each rate of the diagonal is 1.
fn has_unit_diagonal(matrix: &Matrix) -> bool
    ensures { result ≡ has_unit_diagonal matrix.now }
{
    for place in 0..matrix.size() {
        if !is_unit(matrix, place) {
            return false;
        }
    }
    true
}

/// Refuses a matrix of correlations that isn't symmetric, or whose diagonal isn't 1.
pub fn check_correlations(
    alloc: Global,
    path: &[Part<'_>],
    matrix: &Matrix,
) -> Result<(), ParamFault>
    ensures value { Gives (λ u. u) result (correlations_at (path_of path.now) matrix.now) }
    ensures mirrored { OnOk result (AreMirrored matrix.now) }
{
    if is_symmetric(matrix) && has_unit_diagonal(matrix) {
        Ok(())
    } else {
        Err(ParamFault::NotSymmetric(path_text(alloc, path)?))
    }
}

fn is_symmetric_pair(thresholds: &PairThresholds) -> bool
    ensures { result ≡ is_symmetric (rows_view thresholds.now) }
{
    thresholds.second.first == thresholds.first.second
        && thresholds.third.first == thresholds.first.third
        && thresholds.third.second == thresholds.second.third
}

/// Refuses thresholds of pairs that depend on which currency stands first.
pub fn check_pair_thresholds(
    alloc: Global,
    path: &[Part<'_>],
    thresholds: &PairThresholds,
) -> Result<(), ParamFault>
    ensures value { Gives (λ u. u) result
        (symmetric_at (path_of path.now) (rows_view thresholds.now)) }
    ensures symmetric { OnOk result (IsSymmetric (rows_view thresholds.now)) }
{
    if is_symmetric_pair(thresholds) {
        Ok(())
    } else {
        Err(ParamFault::NotSymmetric(path_text(alloc, path)?))
    }
}
