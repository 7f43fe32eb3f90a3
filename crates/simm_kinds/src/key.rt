ghost use Rattle.std.specs.Prelude.{◌≡◌, IfOk};
ghost use Rattle.simm_kinds.specs.Factors.{kind_of, class_of, side_of, bucket_of};

use crate::{BucketId, Factor, ProductClass, RiskClass, RiskType, Side};
use std::alloc::{AllocError, Global};

/// The key of a sensitivity: what it is to, in a trade of which product class. Sensitivities with
/// equal keys net. Keys are ordered by the product class, and then by the factor.
#[derive(Drop, PartialEq, Eq, PartialOrd, Ord, Hash)]
pub struct FactorKey {
    /// The product class of the trade.
    pub product: ProductClass,
    /// What the sensitivity is to.
    pub factor: Factor,
}

impl FactorKey {
    /// The risk type. It takes no memory.
    pub fn kind(&self) -> RiskType
        ensures { result ≡ kind_of self.now.factor }
    {
        self.factor.kind()
    }

    /// The risk class. It takes no memory.
    pub fn class(&self) -> RiskClass
        ensures { result ≡ class_of self.now.factor }
    {
        self.factor.class()
    }

    /// The side of the class. It takes no memory.
    pub fn side(&self) -> Side
        ensures { result ≡ side_of self.now.factor }
    {
        self.factor.side()
    }

    /// The bucket. It takes no memory.
    pub fn bucket(&self) -> BucketId
        ensures { result ≡ bucket_of self.now.factor }
    {
        self.factor.bucket()
    }

    /// An equal key. The only error is want of memory, and a key of interest or exchange rates
    /// takes none.
    pub fn copy(&self, alloc: Global) -> Result<FactorKey, AllocError>
        ensures { IfOk result (λ copy. copy ≡ self.now) }
    {
        let factor = self.factor.copy(alloc)?;
        Ok(FactorKey {
            product: self.product,
            factor,
        })
    }
}
