ghost use Rattle.std.specs.Prelude.{◌≡◌, IfOk};
ghost use Rattle.toml.specs.View.{table_view};
ghost use Rattle.simm_params.specs.TomlValues.Answers.{Gives};
ghost use Rattle.simm_params.specs.TomlValues.Ranges.{IsWithin};
ghost use Rattle.simm_params.specs.Ranges.{weights, correlations, lambda_bases};
ghost use Rattle.simm_params.specs.Matrix.{IsMatrix};
ghost use Rattle.simm_params.specs.IrView.{ir_view};
ghost use Rattle.params_file.specs.IrRanges.{IsRangedIr};
ghost use Rattle.simm_params.specs.FxView.{fx_view};
ghost use Rattle.params_file.specs.FxRanges.{IsRangedFx};
ghost use Rattle.simm_params.specs.ClassView.{credit_view, priced_view, base_view};
ghost use Rattle.simm_params.specs.ClassRanges.{IsRangedCredit, IsRangedPriced};
ghost use Rattle.simm_params.specs.TablesView.{classes_view, tables_view};
ghost use Rattle.params_file.specs.TablesRanges.{AreRangedClasses, AreRanged};
ghost use Rattle.params_file.specs.Grammar.{calculation_currency_of, lambda_base_of, psi_of};
ghost use Rattle.params_file.specs.Grammar.{ir_table_of, fx_table_of, class_table_of};
ghost use Rattle.params_file.specs.Grammar.{credit_table_of, priced_table_of};
ghost use Rattle.params_file.specs.Grammar.{classes_of, base_table_of, tables_of};

use crate::bucket_class::BucketClass;
use crate::class_table::{read_base, read_credit, read_priced};
use crate::fx_table::read_fx;
use crate::ir_table::read_ir;
use crate::matrix_array::read_matrix;
use crate::range::{CORRELATION, LAMBDA_BASE};
use simm_params::mh_units::Corr6;
use simm_params::simm_kinds::{Currency, RiskClass};
use simm_params::toml_values::{Part, ValueFault, currency, member, six, table};
use simm_params::{
    BaseParams, ClassTables, CreditParams, FxParams, IrParams, Matrix, PricedParams, Tables,
};
use std::alloc::Global;
use toml::Table;

#[tactic(auto, unfolding(crate::specs::Grammar::calculation_currency_of))]
fn calculation_currency(alloc: Global, root: &Table) -> Result<Currency, ValueFault>
    ensures { Gives (λ c. c) result (calculation_currency_of (table_view root.now)) }
{
    let key = "calculation_currency";
    currency(alloc, &[Part::Key(key)], member(root, key))
}

#[tactic(auto, unfolding(crate::specs::Grammar::lambda_base_of))]
fn lambda_base(alloc: Global, root: &Table) -> Result<Corr6, ValueFault>
    ensures value { Gives (λ s. s.0) result (lambda_base_of (table_view root.now)) }
    ensures within { IfOk result (λ s. IsWithin lambda_bases s.0) }
{
    let key = "lambda_base";
    six(alloc, &[Part::Key(key)], member(root, key), LAMBDA_BASE)
}

/// A row and a column for each risk class.
#[tactic(auto, unfolding(crate::specs::Grammar::psi_of))]
fn psi(alloc: Global, root: &Table) -> Result<Matrix, ValueFault>
    ensures value { Gives (λ m. m) result (psi_of (table_view root.now)) }
    ensures matrix { IfOk result (IsMatrix 6 correlations) }
{
    let key = "psi";
    let size = RiskClass::ALL.len();
    read_matrix(
        alloc,
        &[Part::Key(key)],
        member(root, key),
        size,
        CORRELATION,
    )
}

#[tactic(auto, unfolding(crate::specs::Grammar::ir_table_of))]
fn ir_table(alloc: Global, root: &Table) -> Result<IrParams, ValueFault>
    ensures value { Gives ir_view result (ir_table_of (table_view root.now)) }
    ensures ranged { IfOk result (λ ir. IsRangedIr (ir_view ir)) }
{
    let key = "ir";
    read_ir(alloc, table(alloc, &[Part::Key(key)], member(root, key))?)
}

#[tactic(auto, unfolding(crate::specs::Grammar::fx_table_of))]
fn fx_table(alloc: Global, root: &Table) -> Result<FxParams, ValueFault>
    ensures value { Gives fx_view result (fx_table_of (table_view root.now)) }
    ensures ranged { IfOk result (λ fx. IsRangedFx (fx_view fx)) }
{
    let key = "fx";
    read_fx(alloc, table(alloc, &[Part::Key(key)], member(root, key))?)
}

#[tactic(auto, unfolding(crate::specs::Grammar::class_table_of))]
fn class_table<'a>(
    alloc: Global,
    which: BucketClass,
    root: &'a Table,
) -> Result<&'a Table, ValueFault>
    ensures { Gives (λ t. table_view t.now) result (class_table_of which (table_view root.now)) }
{
    let key = which.key();
    table(alloc, &[Part::Key(key)], member(root, key))
}

#[tactic(auto, unfolding(crate::specs::Grammar::credit_table_of))]
fn credit_table(alloc: Global, which: BucketClass, root: &Table) -> Result<CreditParams, ValueFault>
    ensures value { Gives credit_view result (credit_table_of which (table_view root.now)) }
    ensures ranged { IfOk result (λ c. IsRangedCredit (credit_view c)) }
{
    let table = class_table(alloc, which, root)?;
    read_credit(alloc, which.key(), table)
}

#[tactic(auto, unfolding(crate::specs::Grammar::priced_table_of))]
fn priced_table(alloc: Global, which: BucketClass, root: &Table) -> Result<PricedParams, ValueFault>
    ensures value { Gives priced_view result (priced_table_of which (table_view root.now)) }
    ensures ranged { IfOk result (λ c. IsRangedPriced (priced_view c)) }
{
    let table = class_table(alloc, which, root)?;
    read_priced(alloc, which.key(), which.has_residual(), table)
}

#[tactic(auto, unfolding(crate::specs::Grammar::classes_of))]
fn classes(alloc: Global, root: &Table) -> Result<ClassTables, ValueFault>
    ensures value { Gives classes_view result (classes_of (table_view root.now)) }
    ensures ranged { IfOk result (λ c. AreRangedClasses (classes_view c)) }
{
    let credit_q = credit_table(alloc, BucketClass::CreditQ, root)?;
    let credit_nq = credit_table(alloc, BucketClass::CreditNonQ, root)?;
    let equity = priced_table(alloc, BucketClass::Equity, root)?;
    let commodity = priced_table(alloc, BucketClass::Commodity, root)?;
    Ok(ClassTables {
        credit_q,
        credit_nq,
        equity,
        commodity,
    })
}

#[tactic(auto, unfolding(crate::specs::Grammar::base_table_of))]
fn base_table(alloc: Global, root: &Table) -> Result<BaseParams, ValueFault>
    ensures value { Gives base_view result (base_table_of (table_view root.now)) }
    ensures weight { IfOk result (λ b. IsWithin weights b.weight.0) }
    ensures rho { IfOk result (λ b. IsWithin correlations b.rho.0) }
{
    read_base(alloc, class_table(alloc, BucketClass::CreditQ, root)?)
}

/// All values of a document, each in its range.
#[tactic(auto, unfolding(crate::specs::Grammar::tables_of))]
pub fn read_tables(alloc: Global, root: &Table) -> Result<Tables, ValueFault>
    ensures value { Gives tables_view result (tables_of (table_view root.now)) }
    ensures ranged { IfOk result (λ t. AreRanged (tables_view t)) }
{
    let calculation_currency = calculation_currency(alloc, root)?;
    let lambda_base = lambda_base(alloc, root)?;
    let psi = psi(alloc, root)?;
    let ir = ir_table(alloc, root)?;
    let fx = fx_table(alloc, root)?;
    let classes = classes(alloc, root)?;
    let base = base_table(alloc, root)?;
    Ok(Tables {
        calculation_currency,
        lambda_base,
        psi,
        ir,
        fx,
        classes,
        base,
    })
}
