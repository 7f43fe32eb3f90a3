ghost use Rattle.std.specs.Prelude.{◌≡◌, true, ◌<◌, ◌≤◌, [], length, IfOk, map};
ghost use Rattle.std.specs.List.{All};
ghost use Rattle.toml.specs.View.{view, items_view};
ghost use Rattle.simm_params.specs.TomlValues.Answers.{Gives};
ghost use Rattle.simm_params.specs.TomlValues.Paths.{word_of};
ghost use Rattle.simm_params.specs.TomlValues.Places.{each_of};
ghost use Rattle.simm_params.specs.TomlValues.Values.{found, items_count};
ghost use Rattle.simm_params.specs.BucketView.{bucket_view};
ghost use Rattle.simm_params.specs.Buckets.{is_behind, ids_of};
ghost use Rattle.params_file.specs.ClassRanges.{IsClassBucket, AreClassBuckets};
ghost use Rattle.params_file.specs.Classes.{bucket_at, is_bucket_count, bucket_places, buckets_of};

use crate::bucket_form::BucketForm;
use crate::bucket_table::read_bucket;
use crate::place::place_path;
use simm_params::toml_values::{Part, ValueFault, array, path_text, place_count, table};
use simm_params::{Buckets, ClassBucket, MOST_BUCKETS};
use std::alloc::Global;
use toml::Value;

/// The bucket at a place, counted from 1, of the array of `count` at a path.
#[tactic(auto, unfolding(crate::specs::Classes::bucket_at))]
fn bucket_at(
    alloc: Global,
    path: &[Part<'_>],
    form: BucketForm,
    count: usize,
    number: usize,
    before: &Buckets,
    value: &Value,
) -> Result<ClassBucket, ValueFault>
    ensures value { Gives bucket_view result (bucket_at (map word_of path.now) form.own
        form.residual count number before.now (view value.now)) }
    ensures within { IfOk result (λ b. IsClassBucket form.own (bucket_view b)) }
    ensures behind { IfOk result (λ b. is_behind (ids_of before.now) b.terms.id ≡ true) }
{
    let path = place_path(alloc, path, number)?;
    let table = table(alloc, path.as_slice(), Some(value))?;
    let residual = form.residual && number == count;
    read_bucket(alloc, path.as_slice(), table, form.own, residual, before)
}

/// The buckets at the places of the array at a path.
fn read_places(
    alloc: Global,
    path: &[Part<'_>],
    form: BucketForm,
    places: &[Value],
) -> Result<Buckets, ValueFault>
    requires { length places.now ≤ 65 }
    ensures value { Gives (λ b. b) result (each_of (bucket_at (map word_of path.now) form.own
        form.residual (items_count (items_view places.now))) 1 [] (items_view places.now)) }
    ensures count { IfOk result (λ b. length b ≡ length places.now) }
    ensures each { IfOk result (All (IsClassBucket form.own)) }
{
    let count = place_count(places);
    let mut buckets = Buckets::with_capacity(alloc, count)?;
    for (index, value) in places.iter().enumerate() {
        let bucket = bucket_at(alloc, path, form, count, index + 1, &buckets, value)?;
        buckets.push(bucket)?;
    }
    Ok(buckets)
}

fn is_bucket_count(count: usize) -> bool
    ensures { result ≡ is_bucket_count count }
{
    1 <= count && count <= MOST_BUCKETS
}

/// The places of an array of buckets. An array of none, and one of too many, is `Missing`.
#[tactic(auto, unfolding(crate::specs::Classes::bucket_places))]
fn bucket_places<'a>(
    alloc: Global,
    path: &[Part<'_>],
    value: Option<&'a Value>,
) -> Result<&'a [Value], ValueFault>
    ensures value { Gives (λ a. items_view a.now) result
        (bucket_places (map word_of path.now) (found value.entry)) }
    ensures some { IfOk result (λ a. 0 < length a.now) }
    ensures few { IfOk result (λ a. length a.now ≤ 65) }
{
    let places = array(alloc, path, value)?;
    if is_bucket_count(place_count(places)) {
        Ok(places)
    } else {
        Err(ValueFault::Missing(path_text(alloc, path)?))
    }
}

/// The buckets of a class: an array of tables at a path, in the order of their ids.
#[tactic(auto, unfolding(crate::specs::Classes::buckets_of))]
pub fn read_buckets(
    alloc: Global,
    path: &[Part<'_>],
    value: Option<&Value>,
    form: BucketForm,
) -> Result<Buckets, ValueFault>
    ensures value { Gives (λ b. b) result
        (buckets_of (map word_of path.now) form.own form.residual (found value.entry)) }
    ensures within { IfOk result (AreClassBuckets form.own) }
{
    let places = bucket_places(alloc, path, value)?;
    read_places(alloc, path, form, places)
}
