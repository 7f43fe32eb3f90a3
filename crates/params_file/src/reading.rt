ghost use Rattle.std.specs.Prelude.{◌≡◌};
ghost use Rattle.toml.specs.View.{table_view};
ghost use Rattle.params_file.specs.Faults.{Finds, Gives as GivesParams};
ghost use Rattle.params_file.specs.Grammar.{params_of, params_of_table, params_read};

use crate::checks::{check_symmetry, check_thickness};
use crate::fault::ParamFault;
use crate::root_table::read_tables;
use simm_params::Params;
use simm_params::toml_values::read_document;
use std::alloc::Global;
use toml::Table;

#[tactic(auto, unfolding(crate::specs::Grammar::params_of_table))]
fn read_table(alloc: Global, root: &Table) -> Result<Params, ParamFault>
    ensures { GivesParams (λ p. p) result (params_of_table (table_view root.now)) }
{
    let tables = read_tables(alloc, root)?;
    check_symmetry(alloc, &tables)?;
    check_thickness(alloc, &tables)?;
    Ok(Params::new(alloc, tables)?)
}

#[tactic(auto, unfolding(crate::specs::Grammar::params_read))]
fn read_file(alloc: Global, bytes: &[u8]) -> Result<Params, ParamFault>
    ensures { GivesParams (λ p. p) result (params_read bytes.now) }
{
    match read_document(alloc, bytes)? {
        Some(root) => read_table(alloc, &root),
        None => Err(ParamFault::Toml),
    }
}

/// The parameters that a file has.
///
/// # Errors
///
/// A fault is the first of the grammar's tests that fails, with its place. `Toml` comes first. The
/// values follow in this order: calculation currency, base of the curvature scale, correlations of
/// the risk classes; the tables `ir`, `fx`, `credit_q`, `credit_nq`, `equity`, `commodity`; weight
/// and correlation of base correlations. A value is `Missing`, `BadNumber` or `OutOfRange`; a
/// currency that stands twice where it may not is `BadNumber` at its later place, and so is a
/// bucket's id that is none or out of order. Then comes `NotSymmetric`: of the risk classes, the
/// tenors, the thresholds of currency pairs, and the buckets of each class. `ThinThreshold` comes
/// last: first of delta, then of vega, each of interest rates, foreign exchange, and each class
/// with buckets. `Memory` may come at any test and says nothing of the file.
#[tactic(auto, unfolding(crate::specs::Grammar::params_of))]
pub fn read_params(alloc: Global, bytes: &[u8]) -> Result<Params, ParamFault>
    ensures exact { GivesParams (λ p. p) result (params_read bytes.now) }
    ensures finds { Finds result (params_of bytes.now) }
{
    read_file(alloc, bytes)
}
