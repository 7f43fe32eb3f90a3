ghost use Rattle.std.specs.Prelude.{◌≡◌};
ghost use Rattle.params_file.specs.Classes.{own_key, own_range};

use crate::range::{CORRELATION, SIGMA};
use simm_params::toml_values::Range;

/// The rate that only classes of one kind have for a bucket.
#[derive(Clone, Copy)]
pub enum OwnRate {
    /// Credit: the correlation of the factors of one name.
    Same,
    /// Equity and commodities: the volatility.
    Sigma,
}

impl OwnRate {
    /// The key at which it stands.
    pub fn key(self) -> &'static str
        ensures { result.now ≡ own_key self }
    {
        match self {
            OwnRate::Same => "same",
            OwnRate::Sigma => "sigma",
        }
    }

    /// The range that it is in.
    pub fn range(self) -> Range
        ensures { result ≡ own_range self }
    {
        match self {
            OwnRate::Same => CORRELATION,
            OwnRate::Sigma => SIGMA,
        }
    }
}

/// How the buckets of a class are read.
#[derive(Clone, Copy)]
pub struct BucketForm {
    /// The rate that its buckets have beside those of each class.
    pub own: OwnRate,
    /// Whether it may have a residual bucket.
    pub residual: bool,
}
