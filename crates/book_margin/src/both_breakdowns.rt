ghost use Rattle.std.specs.Prelude.{◌≡◌};
ghost use Rattle.book_margin.specs.Sides.{breakdown_on};

use kept_buckets::simm_kinds::MarginSide;
use kept_buckets::simm_rules::Breakdown;

/// The margins of a book, each with all of its parts.
#[derive(Clone, Copy)]
pub struct BothBreakdowns {
    /// That which is collected.
    pub collect: Breakdown,
    /// That which is posted: the margin of the negated book.
    pub post: Breakdown,
}

impl BothBreakdowns {
    /// That of a side.
    pub fn on(self, side: MarginSide) -> Breakdown
        ensures { result ≡ breakdown_on self side }
    {
        match side {
            MarginSide::Collect => self.collect,
            MarginSide::Post => self.post,
        }
    }
}
