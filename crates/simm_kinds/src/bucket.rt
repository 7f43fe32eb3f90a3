//! The buckets of credit, equity and commodity.
ghost use Rattle.std.specs.Prelude.{◌≡◌};
ghost use Rattle.simm_kinds.specs.Bucket.{bucket_named};
ghost use Rattle.simm_kinds.specs.Factors.{bucket_id_of};

use crate::words::is_word;
use crate::{BucketId, BucketNumber};

/// The bucket of an issuer or an index: one of the numbered ones, or the residual one, which
/// comes last.
#[derive(Clone, Copy, PartialEq, Eq, PartialOrd, Ord, Hash)]
pub enum Bucket {
    /// A bucket with a number, from 1.
    Number(BucketNumber),
    /// The bucket of what fits in no other.
    Residual,
}

impl Bucket {
    /// The bucket that a text names: `Residual` in any case, or a number as `BucketNumber::read`
    /// takes it. `None` for another text.
    pub fn read(text: &[u8]) -> Option<Bucket>
        ensures { result ≡ bucket_named text.now }
    {
        if is_word("Residual", text) {
            Some(Bucket::Residual)
        } else {
            BucketNumber::read(text).map(Bucket::Number)
        }
    }

    /// Its id among the buckets of all classes.
    pub fn id(self) -> BucketId
        ensures { result ≡ bucket_id_of self }
    {
        match self {
            Bucket::Number(number) => BucketId::Number(number),
            Bucket::Residual => BucketId::Residual,
        }
    }
}
