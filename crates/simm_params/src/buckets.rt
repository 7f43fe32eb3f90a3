ghost use Rattle.std.specs.Prelude.{◌≡◌, true, ◌<◌, [], ◌∷◌, ◌++◌};
ghost use Rattle.std.specs.Prelude.{length, map, replicate, option_map, is_some, Some, None};
ghost use Rattle.std.specs.Prelude.{slice_set, slice_index_or, IfOk, OnOk, OnErr};
ghost use Rattle.simm_params.specs.BucketView.{bucket_view};
ghost use Rattle.simm_params.specs.Buckets.{AreInOrder, is_behind, numbered_count};
ghost use Rattle.simm_params.specs.Buckets.{ids_of, place_of, bucket_of};
ghost use Rattle.simm_rules.specs.Admits.{lists};
ghost use Rattle.simm_params.specs.ListedBuckets.{listed_place};

use crate::bucket::{ClassBucket, MOST_BUCKETS, bucket_slot, precedes};
use simm_rules::simm_kinds::Bucket;
use std::alloc::{AllocError, Global};
use std::marker::Model;

/// The buckets of a class in their order, which contracts see as just that list. A bucket is found
/// by its id in one step.
#[derive(Drop)]
pub struct Buckets {
    buckets: Vec<ClassBucket>,
    /// For each bucket that a class may have, its place in the list.
    index: [Option<u8>; MOST_BUCKETS],
}

impl Model for Buckets {
    ghost use Rattle.std.specs.Prelude.{List};
    ghost use Rattle.simm_params.specs.Buckets.{ClassBucket as BucketValue};
    ghost use Rattle.simm_params.specs.BucketView.{buckets_view};
    ghost use Rattle.simm_params.specs.BucketIndex.{AreIndexed};

    ghost Value = { List BucketValue };

    ghost view = { λ b. buckets_view b.buckets.items };

    ghost invariant = { λ b. AreIndexed (buckets_view b.buckets.items) b.index };
}

fn no_places() -> [Option<u8>; MOST_BUCKETS]
    ensures { result ≡ replicate 65 None }
{
    [None; MOST_BUCKETS]
}

fn set_place(index: &mut [Option<u8>; MOST_BUCKETS], slot: usize, place: u8)
    requires { slot < 65 }
    ensures { index.new ≡ slice_set index.old slot (Some place) }
{
    index[slot] = Some(place);
}

impl Buckets {
    /// No bucket, with room for `count`. The only error is want of memory.
    pub fn with_capacity(alloc: Global, count: usize) -> Result<Buckets, AllocError>
        ensures { IfOk result (λ b. b ≡ []) }
    {
        Ok(Buckets {
            buckets: Vec::with_capacity(alloc, count)?,
            index: no_places(),
        })
    }

    /// Adds a bucket behind all others. The only error is want of memory, and then nothing changes.
    pub fn push(&mut self, bucket: ClassBucket) -> Result<(), AllocError>
        requires few { length self.old < 65 }
        requires behind { is_behind (ids_of self.old) bucket.terms.id ≡ true }
        ensures ok { OnOk result (self.new ≡ self.old ++ bucket_view bucket ∷ []) }
        ensures err { OnErr result (self.new ≡ self.old) }
    {
        let terms = &bucket.terms;
        let slot = bucket_slot(terms.id);
        let place = self.buckets.len() as u8;
        // Room comes first: what follows doesn't fail.
        self.buckets.push(bucket)?;
        set_place(&mut self.index, slot, place);
        Ok(())
    }

    /// How many there are.
    pub fn count(&self) -> usize
        ensures { result ≡ length self.now }
    {
        self.buckets.len()
    }

    /// The bucket at a place, counted from 0.
    pub fn at(&self, place: usize) -> &ClassBucket
        requires { place < length self.now }
        ensures { bucket_view result.now ≡ slice_index_or self.now place (bucket_view result.now) }
    {
        &self.buckets[place]
    }

    /// Whether a bucket comes behind all of these.
    pub fn are_before(&self, id: &Bucket) -> bool
        ensures { result ≡ is_behind (ids_of self.now) id.now }
    {
        match self.buckets.last() {
            Some(last) => precedes(last.terms.id, *id),
            None => true,
        }
    }

    /// How many of them are numbered.
    pub fn numbered_count(&self) -> usize
        ensures value { result ≡ numbered_count self.now }
        ensures in_order { AreInOrder (ids_of self.now) }
    {
        self.buckets
            .iter()
            .filter(|bucket| bucket.terms.id != Bucket::Residual)
            .count()
    }

    /// The place of a bucket, counted from 0, where it is listed.
    pub fn place(&self, id: Bucket) -> Option<usize>
        ensures value { result ≡ place_of (ids_of self.now) id }
        ensures listed { result ≡ listed_place (ids_of self.now) id }
    {
        self.index[bucket_slot(id)].map(usize::from)
    }

    /// Whether a bucket is listed.
    pub fn lists(&self, id: Bucket) -> bool
        ensures { result ≡ lists (ids_of self.now) id }
    {
        self.index[bucket_slot(id)].is_some()
    }

    /// The bucket of an id, where it is listed.
    pub fn get(&self, id: Bucket) -> Option<&ClassBucket>
        ensures { option_map (λ b. bucket_view b.now) result ≡ bucket_of id self.now }
    {
        match self.place(id) {
            Some(place) => Some(&self.buckets[place]),
            None => None,
        }
    }

    /// Lends the buckets.
    pub fn as_slice(&self) -> &[ClassBucket]
        ensures { map bucket_view result.now ≡ self.now }
    {
        self.buckets.as_slice()
    }
}
