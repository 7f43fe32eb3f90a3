ghost use Rattle.std.specs.Prelude.{◌≡◌, ◌≤◌, ◌<◌, length};
ghost use Rattle.weighted_bucket.specs.Changed.{changed, changed_at};

use crate::weighed::Weighed;
use pair_sum::Marks;

/// Two lists of factors over the same places, of which those are marked where the factors differ.
#[derive(Drop)]
pub struct Changes<'a> {
    /// The factors before a change.
    pub before: &'a [Weighed],
    /// Those after it.
    pub after: &'a [Weighed],
    ghost same_places: { length before.now ≡ length after.now },
}

impl Marks for Changes<'_> {
    ghost size = { λ x. length x.after.now };

    ghost is_marked = { λ x. changed_at x.before.now x.after.now };

    fn is_marked(&self, place: usize) -> bool {
        differ_at(self.before, self.after, place)
    }
}

/// At how many places the factors differ.
pub fn changed_count(before: &[Weighed], after: &[Weighed]) -> usize
    requires { length before.now ≡ length after.now }
    ensures count { result ≡ changed before.now after.now }
    ensures most { result ≤ length after.now }
{
    let mut count = 0;
    for place in 0..after.len() {
        if differ_at(before, after, place) {
            count += 1;
        }
    }
    count
}

fn differ_at(before: &[Weighed], after: &[Weighed], place: usize) -> bool
    requires same_places { length before.now ≡ length after.now }
    requires within { place < length after.now }
    ensures { result ≡ changed_at before.now after.now place }
{
    let was = before[place];
    let is = after[place];
    was.w != is.w || was.cr.0 != is.cr.0
}
