ghost use Rattle.std.specs.Prelude.{◌≡◌, true, IfOk, IfSome, map};
ghost use Rattle.toml.specs.View.{table_view};
ghost use Rattle.simm_params.specs.TomlValues.Answers.{Gives};
ghost use Rattle.simm_params.specs.TomlValues.Paths.{word_of};
ghost use Rattle.simm_params.specs.BucketView.{bucket_view};
ghost use Rattle.simm_params.specs.Buckets.{is_behind, ids_of};
ghost use Rattle.params_file.specs.ClassRanges.{IsClassBucket};
ghost use Rattle.params_file.specs.Classes.{id_named, may_stand, next_id, id_of};
ghost use Rattle.params_file.specs.Classes.{curvature_of, bucket_of_id, bucket_of_table};

use crate::bucket_form::OwnRate;
use crate::key_rate::key_rate;
use crate::place::key_path;
use crate::range::{CORRELATION, VEGA_WEIGHT, WEIGHT};
use crate::threshold_table::read_thresholds;
use simm_params::simm_kinds::{Bucket, BucketNumber};
use simm_params::toml_values::{Part, ValueFault, flag, member, path_text, text};
use simm_params::{BucketTerms, Buckets, ClassBucket};
use std::alloc::Global;
use toml::Table;

/// The bucket of an id: `Residual`, spelled so, or a number.
fn id_named(text: &str) -> Option<Bucket>
    ensures { result ≡ id_named text.now }
{
    if text == "Residual" {
        Some(Bucket::Residual)
    } else {
        BucketNumber::read(text.as_bytes()).map(Bucket::Number)
    }
}

fn may_stand(residual: bool, id: &Bucket) -> bool
    ensures { result ≡ may_stand residual id.now }
{
    match id {
        Bucket::Number(_) => true,
        Bucket::Residual => residual,
    }
}

/// The bucket of an id, where it may stand behind those before it.
fn next_id(residual: bool, before: &Buckets, text: &str) -> Option<Bucket>
    ensures value { result ≡ next_id residual before.now text.now }
    ensures behind { IfSome result (λ id. is_behind (ids_of before.now) id ≡ true) }
{
    let id = id_named(text)?;
    if may_stand(residual, &id) && before.are_before(&id) {
        Some(id)
    } else {
        None
    }
}

/// The id in the table of a bucket.
#[tactic(auto, unfolding(crate::specs::Classes::id_of))]
fn read_id(
    alloc: Global,
    path: &[Part<'_>],
    table: &Table,
    residual: bool,
    before: &Buckets,
) -> Result<Bucket, ValueFault>
    ensures value { Gives (λ id. id) result
        (id_of (map word_of path.now) residual before.now (table_view table.now)) }
    ensures behind { IfOk result (λ id. is_behind (ids_of before.now) id ≡ true) }
{
    let path = key_path(alloc, path, "id")?;
    let text = text(alloc, path.as_slice(), member(table, "id"))?;
    match next_id(residual, before, text) {
        Some(id) => Ok(id),
        None => Err(ValueFault::BadNumber(path_text(alloc, path.as_slice())?)),
    }
}

#[tactic(auto, unfolding(crate::specs::Classes::curvature_of))]
fn curvature(alloc: Global, path: &[Part<'_>], table: &Table) -> Result<bool, ValueFault>
    ensures { Gives (λ b. b) result (curvature_of (map word_of path.now) (table_view table.now)) }
{
    let path = key_path(alloc, path, "curvature")?;
    flag(alloc, path.as_slice(), member(table, "curvature"))
}

/// What the table of a bucket has behind the id.
#[tactic(auto, unfolding(crate::specs::Classes::bucket_of_id))]
fn read_bucket_of(
    alloc: Global,
    path: &[Part<'_>],
    table: &Table,
    own: OwnRate,
    id: Bucket,
) -> Result<ClassBucket, ValueFault>
    ensures value { Gives bucket_view result
        (bucket_of_id (map word_of path.now) own id (table_view table.now)) }
    ensures within { IfOk result (λ b. IsClassBucket own (bucket_view b)) }
    ensures id { IfOk result (λ b. b.terms.id ≡ id) }
{
    let weight = key_rate(alloc, path, table, "weight", WEIGHT)?;
    let thresholds = read_thresholds(alloc, path, table)?;
    let rho = key_rate(alloc, path, table, "rho", CORRELATION)?;
    let rate = key_rate(alloc, path, table, own.key(), own.range())?;
    let vrw = key_rate(alloc, path, table, "vrw", VEGA_WEIGHT)?;
    let curvature = curvature(alloc, path, table)?;
    let terms = BucketTerms {
        id,
        weight,
        thresholds,
        rho,
        vrw,
        curvature,
    };
    Ok(ClassBucket { terms, own: rate })
}

/// The bucket in its table, behind those before it. The residual bucket is one only where it
/// may stand.
#[tactic(auto, unfolding(crate::specs::Classes::bucket_of_table))]
pub fn read_bucket(
    alloc: Global,
    path: &[Part<'_>],
    table: &Table,
    own: OwnRate,
    residual: bool,
    before: &Buckets,
) -> Result<ClassBucket, ValueFault>
    ensures value { Gives bucket_view result
        (bucket_of_table (map word_of path.now) own residual before.now (table_view table.now)) }
    ensures within { IfOk result (λ b. IsClassBucket own (bucket_view b)) }
    ensures behind { IfOk result (λ b. is_behind (ids_of before.now) b.terms.id ≡ true) }
{
    let id = read_id(alloc, path, table, residual, before)?;
    read_bucket_of(alloc, path, table, own, id)
}
