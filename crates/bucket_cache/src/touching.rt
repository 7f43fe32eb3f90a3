//! Marks of what rows touch.
ghost use Rattle.book_margin.specs.KeptBuckets.Touched.{Forgets};
ghost use Rattle.bucket_cache.specs.Lent.{all_rows};

use crate::lent::LentRows;
use book_margin::kept_buckets::{KeptBuckets, touches_add_up};

/// Forgets what is kept of the places in which the rows lie, and of their classes. It takes
/// no memory.
pub fn touch_lent(kept: &mut KeptBuckets, lent: &[LentRows])
    ensures { Forgets (all_rows lent.now) kept.old kept.new }
{
    touches_add_up();
    for trade in lent {
        kept.touch(trade.rows);
    }
}
