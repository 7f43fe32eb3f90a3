ghost use Rattle.std.specs.Prelude.{◌≡◌};
ghost use Rattle.kept_buckets.specs.Kept.{margin_on};

use factor_book::mh_units::Cents;
use factor_book::simm_kinds::MarginSide;

/// The margins of a risk class in a product class, in cents.
#[derive(Clone, Copy)]
pub struct BothMargins {
    /// That which is collected.
    pub collect: Cents,
    /// That which is posted.
    pub post: Cents,
}

impl BothMargins {
    /// That of a side.
    pub fn on(self, side: MarginSide) -> Cents
        ensures { result ≡ margin_on self side }
    {
        match side {
            MarginSide::Collect => self.collect,
            MarginSide::Post => self.post,
        }
    }
}
