use crate::place::BookSide;
use simm_rules::simm_kinds::{BucketId, ProductClass, RiskClass};

/// What the places of a book are sorted by: product class, risk class, side and bucket, in this
/// order. Base correlation is sorted in as the bucket `Single` of the delta side of `CreditQ`. An
/// address is made of a place, and no place of an address.
#[derive(Clone, Copy, PartialEq, Eq, PartialOrd, Ord)]
pub struct Address {
    /// The product class.
    pub product: ProductClass,
    /// The risk class.
    pub class: RiskClass,
    /// The side.
    pub side: BookSide,
    /// The bucket.
    pub bucket: BucketId,
}
