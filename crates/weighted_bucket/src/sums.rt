ghost use Rattle.std.specs.Prelude.{◌≡◌, ◌*◌, ◌^◌, ◌<◌, ◌≤◌, sum_by, pos, unsigned_abs};
ghost use Rattle.weighted_bucket.specs.Bucket.{gross_of, sum_of};

use crate::weighed::Weighed;

/// The sum of the weighted values, in cents.
pub fn sum(factors: &[Weighed]) -> i128
    requires { sum_by (λ factor. unsigned_abs factor.w) factors.now < 84 * 10 ^ 14 }
    ensures value { result ≡ sum_of factors.now }
    ensures size { unsigned_abs result ≤ sum_by (λ factor. unsigned_abs factor.w) factors.now }
{
    let mut sum = 0;
    for factor in factors {
        sum += factor.w;
    }
    sum
}

/// The sum of their sizes, in cents.
pub fn gross(factors: &[Weighed]) -> i128
    requires { sum_by (λ factor. unsigned_abs factor.w) factors.now < 84 * 10 ^ 14 }
    ensures value { result ≡ gross_of factors.now }
    ensures size { result ≡ pos (sum_by (λ factor. unsigned_abs factor.w) factors.now) }
{
    let gross: u128 = factors.iter().map(|factor| factor.w.unsigned_abs()).sum();
    gross as i128
}
