ghost use Rattle.std.specs.Prelude.{◌≡◌, ℤ};

use simm_rules::BucketMargin;

/// The weighted sensitivity to one factor, in cents.
#[derive(Clone, Copy)]
pub struct Item {
    pub w: i128,
}

/// What has an amount in cents that is multiplied pair by pair.
pub trait Weighted {
    ghost weight: { Self → ℤ };

    /// The amount, in cents.
    fn weight(&self) -> i128
        ensures { result ≡ weight self.now };
}

impl Weighted for Item {
    ghost weight = { λ item. item.w };

    fn weight(&self) -> i128 {
        self.w
    }
}

impl Weighted for BucketMargin {
    ghost weight = { λ part. part.s };

    fn weight(&self) -> i128 {
        self.s
    }
}
