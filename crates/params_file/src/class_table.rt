ghost use Rattle.std.specs.Prelude.{◌≡◌, IfOk};
ghost use Rattle.toml.specs.View.{table_view};
ghost use Rattle.simm_params.specs.TomlValues.Answers.{Gives};
ghost use Rattle.simm_params.specs.TomlValues.Ranges.{IsWithin};
ghost use Rattle.simm_params.specs.Ranges.{weights, correlations};
ghost use Rattle.simm_params.specs.Matrix.{IsMatrix};
ghost use Rattle.simm_params.specs.Buckets.{AreInOrder, ids_of, numbered_count};
ghost use Rattle.params_file.specs.Classes.{class_buckets, class_gamma};
ghost use Rattle.params_file.specs.Classes.{credit_of, priced_of, base_of};
ghost use Rattle.simm_params.specs.ClassRanges.{IsRangedCredit, IsRangedPriced};
ghost use Rattle.params_file.specs.ClassRanges.{AreClassBuckets};
ghost use Rattle.simm_params.specs.ClassView.{credit_view, priced_view, base_view};

use crate::bucket_array::read_buckets;
use crate::bucket_form::{BucketForm, OwnRate};
use crate::key_rate::key_rate;
use crate::matrix_array::read_matrix;
use crate::range::{CORRELATION, HVR, WEIGHT};
use simm_params::toml_values::{Part, ValueFault, member};
use simm_params::{BaseParams, Buckets, CreditParams, Matrix, PricedParams};
use std::alloc::Global;
use toml::Table;

#[tactic(auto, unfolding(crate::specs::Classes::class_buckets))]
fn class_buckets(
    alloc: Global,
    class: &str,
    table: &Table,
    form: BucketForm,
) -> Result<Buckets, ValueFault>
    ensures value { Gives (λ b. b) result
        (class_buckets class.now form.own form.residual (table_view table.now)) }
    ensures within { IfOk result (AreClassBuckets form.own) }
{
    let path = [Part::Key(class), Part::Key("bucket")];
    read_buckets(alloc, &path, member(table, "bucket"), form)
}

/// The correlations of the numbered ones of these buckets.
#[tactic(auto, unfolding(crate::specs::Classes::class_gamma))]
fn class_gamma(
    alloc: Global,
    class: &str,
    table: &Table,
    buckets: &Buckets,
) -> Result<Matrix, ValueFault>
    ensures value { Gives (λ m. m) result
        (class_gamma class.now buckets.now (table_view table.now)) }
    ensures matrix { IfOk result (IsMatrix (numbered_count buckets.now) correlations) }
    ensures in_order { AreInOrder (ids_of buckets.now) }
{
    let path = [Part::Key(class), Part::Key("gamma")];
    let size = buckets.numbered_count();
    read_matrix(alloc, &path, member(table, "gamma"), size, CORRELATION)
}

/// The parameters of the class of credit of this name in its table.
#[tactic(auto, unfolding(crate::specs::Classes::credit_of))]
pub fn read_credit(alloc: Global, class: &str, table: &Table) -> Result<CreditParams, ValueFault>
    ensures value { Gives credit_view result (credit_of class.now (table_view table.now)) }
    ensures ranged { IfOk result (λ c. IsRangedCredit (credit_view c)) }
{
    let form = BucketForm {
        own: OwnRate::Same,
        residual: true,
    };
    let buckets = class_buckets(alloc, class, table, form)?;
    let gamma = class_gamma(alloc, class, table, &buckets)?;
    Ok(CreditParams { buckets, gamma })
}

/// The parameters of equity or of commodities, by the class's name, in its table. Commodities have
/// no residual bucket.
#[tactic(auto, unfolding(crate::specs::Classes::priced_of))]
pub fn read_priced(
    alloc: Global,
    class: &str,
    residual: bool,
    table: &Table,
) -> Result<PricedParams, ValueFault>
    ensures value { Gives priced_view result (priced_of class.now residual (table_view table.now)) }
    ensures ranged { IfOk result (λ c. IsRangedPriced (priced_view c)) }
{
    let form = BucketForm {
        own: OwnRate::Sigma,
        residual,
    };
    let buckets = class_buckets(alloc, class, table, form)?;
    let hvr = key_rate(alloc, &[Part::Key(class)], table, "hvr", HVR)?;
    let gamma = class_gamma(alloc, class, table, &buckets)?;
    Ok(PricedParams {
        buckets,
        hvr,
        gamma,
    })
}

/// The parameters of base correlations in the table of `credit_q`.
#[tactic(auto, unfolding(crate::specs::Classes::base_of))]
pub fn read_base(alloc: Global, credit_q: &Table) -> Result<BaseParams, ValueFault>
    ensures value { Gives base_view result (base_of (table_view credit_q.now)) }
    ensures weight { IfOk result (λ b. IsWithin weights b.weight.0) }
    ensures rho { IfOk result (λ b. IsWithin correlations b.rho.0) }
{
    let path = [Part::Key("credit_q")];
    let weight = key_rate(alloc, &path, credit_q, "base_weight", WEIGHT)?;
    let rho = key_rate(alloc, &path, credit_q, "base_rho", CORRELATION)?;
    Ok(BaseParams { weight, rho })
}
