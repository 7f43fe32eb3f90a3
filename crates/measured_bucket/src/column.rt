ghost use Rattle.std.specs.Prelude.{◌≡◌, ◌*◌, ◌^◌, ◌<◌, All, length, sum_by, pos};
ghost use Rattle.std.specs.Prelude.{◌≤ℤ◌, ◌<ℤ◌, unsigned_abs};
ghost use Rattle.simm_params.specs.SimmRules.Concentration.{one};

use simm_params::mh_units::Corr6;
use weighted_bucket::{Rho, Weighed};

/// The factors of a bucket, weighed, and their correlations: what the engine takes.
#[derive(Drop)]
pub struct Column<R: Rho> {
    /// The factors, in the order of the rule's list.
    pub factors: Vec<Weighed>,
    /// The correlations of any two, by their places.
    pub rho: R,
    /// The concentration factor of the bucket; 1 where it has none of its own.
    pub cr: Corr6,
    ghost sized: { R.size rho ≡ length factors.items },
    ghost from_one: { All (λ factor. one ≤ℤ factor.cr.0) factors.items },
    ghost below: { All (λ factor. factor.cr.0 <ℤ pos 347000000) factors.items },
    ghost in_range: { sum_by (λ factor. unsigned_abs factor.w) factors.items < 84 * 10 ^ 14 },
    ghost cr_low: { one ≤ℤ cr.0 },
    ghost cr_high: { cr.0 <ℤ pos 347000000 },
}
