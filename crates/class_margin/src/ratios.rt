//! The ratios of the concentration factors of buckets.
ghost use Rattle.std.specs.Prelude.{◌≡◌, ◌<◌, ◌≤◌, All, length, map, pos, ◌≤ℤ◌, ◌<ℤ◌, unsigned_abs};
ghost use Rattle.class_rates.specs.SimmRules.Concentration.{one, ratio};
ghost use Rattle.class_rates.specs.WeightedBucket.Correlated.{cr_at};
ghost use Rattle.class_margin.specs.rates_delta.Gamma.{as_factor};

use class_rates::concentration::ratio;
use class_rates::mh_units::Corr6;
use class_rates::simm_rules::BucketMargin;

/// Buckets whose concentration factors have ratios.
#[derive(Drop)]
pub struct Ratios<'a> {
    /// The values of the buckets.
    pub buckets: &'a [BucketMargin],
    ghost from_one: { All (λ b. one ≤ℤ b.cr.0) buckets.now },
    ghost below: { All (λ b. b.cr.0 <ℤ pos 347000000) buckets.now },
}

impl Ratios<'_> {
    /// That of the buckets at two places: the lesser of both factors over the greater.
    pub fn between(&self, i: usize, j: usize) -> Corr6
        requires row { i < length self.now.buckets.now }
        requires column { j < length self.now.buckets.now }
        ensures value { let factors = map as_factor self.now.buckets.now in
            result.0 ≡ ratio (cr_at factors i) (cr_at factors j) }
        ensures size { unsigned_abs result.0 ≤ 1000000 }
    {
        ratio(self.buckets[i].cr, self.buckets[j].cr)
    }
}
