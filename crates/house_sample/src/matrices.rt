//! Correlations that are all alike.
ghost use Rattle.std.specs.Prelude.{◌≡◌, IfOk};
ghost use Rattle.house_sample.specs.Matrices.{alike, row_to, even};

use simm_params::mh_units::Rate4;
use simm_params::{Matrix, Rates};
use std::alloc::{AllocError, Global};

/// One rate at each of so many places.
pub(crate) fn alike(alloc: Global, rate: Rate4, count: usize) -> Result<Rates, AllocError>
    ensures { IfOk result (λ rates. rates ≡ alike rate.0 count) }
{
    let mut rates = Rates::with_capacity(alloc, count)?;
    for _place in 0..count {
        rates.push(rate)?;
    }
    Ok(rates)
}

/// The row at a place, from 0: 1 on the diagonal, the rate elsewhere.
fn row(alloc: Global, rate: Rate4, place: usize, size: usize) -> Result<Rates, AllocError>
    ensures { IfOk result (λ row. row ≡ row_to rate.0 place size) }
{
    let mut row = Rates::with_capacity(alloc, size)?;
    for column in 0..size {
        row.push(if column == place { Rate4(10_000) } else { rate })?;
    }
    Ok(row)
}

/// A square matrix of so many rows, with 1 on the diagonal and the rate elsewhere.
pub(crate) fn even(alloc: Global, rate: Rate4, size: usize) -> Result<Matrix, AllocError>
    ensures { IfOk result (λ matrix. matrix ≡ even rate.0 size) }
{
    let mut rows = Vec::with_capacity(alloc, size)?;
    for place in 0..size {
        rows.push(row(alloc, rate, place, size)?)?;
    }
    Ok(Matrix::new(rows))
}
