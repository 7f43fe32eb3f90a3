ghost use Rattle.std.specs.Prelude.{◌≡◌, ◌<◌, length};
ghost use Rattle.simm_rules.specs.Lookups.{at_row};
ghost use Rattle.simm_params.specs.Matrix.{entry};
ghost use Rattle.simm_params.specs.Square.{IsSquare};

use crate::rates::Rates;
use simm_rules::mh_units::Rate4;
use std::marker::Model;

/// A square matrix of rates, which contracts see as the list of its rows of ten-thousandths.
#[derive(Drop)]
pub struct Matrix {
    rows: Vec<Rates>,
}

impl Model for Matrix {
    ghost use Rattle.std.specs.Prelude.{List, ℤ};
    ghost use Rattle.simm_params.specs.Square.{IsSquare};

    ghost Value = { List (List ℤ) };

    ghost view = { λ m. m.rows.items };

    ghost invariant = { λ m. IsSquare m.rows.items };
}

impl Matrix {
    /// The matrix of these rows.
    pub fn new(rows: Vec<Rates>) -> Matrix
        requires { IsSquare rows.items }
        ensures { result ≡ rows.items }
    {
        Matrix { rows }
    }

    /// How many rows, and how many columns, there are.
    pub fn size(&self) -> usize
        ensures { result ≡ length self.now }
    {
        self.rows.len()
    }

    /// The rate at a row and a column, counted from 0.
    pub fn at(&self, row: usize, column: usize) -> Rate4
        requires row { row < length self.now }
        requires column { column < length self.now }
        ensures { result.0 ≡ entry self.now row column }
    {
        self.rows[row].at(column)
    }

    /// The rate at a row and a column, counted from 0, or 0 where there is no such place.
    pub fn rate(&self, row: usize, column: usize) -> Rate4
        ensures { result.0 ≡ at_row self.now row column }
    {
        match self.rows.get(row) {
            Some(rates) => rates.rate(column),
            None => Rate4(0),
        }
    }
}
