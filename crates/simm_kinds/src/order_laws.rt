//! The laws of the derived orders.
ghost use Rattle.std.specs.Prelude.{◌≡◌, ◌↔◌, List, ℕ, true};
ghost use Rattle.std.specs.Ordering.{nat_cmp, is_eq};
ghost use Rattle.std.specs.Cmp.{IsTotalOrder};
ghost use Rattle.simm_kinds.specs.declared.kinds.ProductClass.{ProductClass};
ghost use Rattle.simm_kinds.specs.declared.kinds.RiskClass.{RiskClass};
ghost use Rattle.simm_kinds.specs.declared.kinds.RiskType.{RiskType};
ghost use Rattle.simm_kinds.specs.declared.kinds.Tenor.{Tenor};
ghost use Rattle.simm_kinds.specs.declared.kinds.SubCurve.{SubCurve};
ghost use Rattle.simm_kinds.specs.declared.kinds.BucketId.{BucketId};
ghost use Rattle.simm_kinds.specs.declared.credit_tenor.CreditTenor.{CreditTenor};
ghost use Rattle.simm_kinds.specs.declared.bucket.Bucket.{Bucket};
ghost use Rattle.simm_kinds.specs.declared.factor.Factor.{Factor};
ghost use Rattle.simm_kinds.specs.declared.key.FactorKey.{FactorKey};
ghost use Rattle.simm_kinds.specs.Pair.{Pair};
ghost use Rattle.simm_kinds.specs.Order.{product_place, class_place, kind_place};
ghost use Rattle.simm_kinds.specs.Order.{tenor_place, sub_place, credit_tenor_place};
ghost use Rattle.simm_kinds.specs.Order.{name_cmp, bucket_cmp, bucket_id_cmp, pair_cmp};
ghost use Rattle.simm_kinds.specs.Order.{factor_cmp, key_cmp, same_factor, same_key};

/// The order of each type is that of its definition: an enum by its variants' places, a name byte
/// by byte, a bucket, a factor and a key by their places and then part by part. Factors and keys
/// are ordered totally, and only equal ones compare as equal, and are equal by `==`.
pub fn orders_are_defined()
    ensures products { (a b : ProductClass)
        → ⟦<crate::ProductClass as Ord>⟧.cmp a b ≡ nat_cmp (product_place a) (product_place b) }
    ensures classes { (a b : RiskClass)
        → ⟦<crate::RiskClass as Ord>⟧.cmp a b ≡ nat_cmp (class_place a) (class_place b) }
    ensures kinds { (a b : RiskType)
        → ⟦<crate::RiskType as Ord>⟧.cmp a b ≡ nat_cmp (kind_place a) (kind_place b) }
    ensures tenors { (a b : Tenor)
        → ⟦<crate::Tenor as Ord>⟧.cmp a b ≡ nat_cmp (tenor_place a) (tenor_place b) }
    ensures sub_curves { (a b : SubCurve)
        → ⟦<crate::SubCurve as Ord>⟧.cmp a b ≡ nat_cmp (sub_place a) (sub_place b) }
    ensures credit_tenors { (a b : CreditTenor) → ⟦<crate::CreditTenor as Ord>⟧.cmp a b
        ≡ nat_cmp (credit_tenor_place a) (credit_tenor_place b) }
    ensures numbers { (a b : ℕ) → ⟦<crate::BucketNumber as Ord>⟧.cmp a b ≡ nat_cmp a b }
    ensures buckets { (a b : Bucket) → ⟦<crate::Bucket as Ord>⟧.cmp a b ≡ bucket_cmp a b }
    ensures bucket_ids { (a b : BucketId) → ⟦<crate::BucketId as Ord>⟧.cmp a b ≡ bucket_id_cmp a b }
    ensures names { (a b : List ℕ) → ⟦<crate::Name as Ord>⟧.cmp a b ≡ name_cmp a b }
    ensures full_names { (a b : List ℕ) → ⟦<crate::FullName as Ord>⟧.cmp a b ≡ name_cmp a b }
    ensures currencies { (a b : List ℕ) → ⟦<crate::Currency as Ord>⟧.cmp a b ≡ name_cmp a b }
    ensures pairs { (a b : Pair) → ⟦<crate::CurrencyPair as Ord>⟧.cmp a b ≡ pair_cmp a b }
    ensures factors { (a b : Factor) → ⟦<crate::Factor as Ord>⟧.cmp a b ≡ factor_cmp a b }
    ensures keys { (a b : FactorKey) → ⟦<crate::FactorKey as Ord>⟧.cmp a b ≡ key_cmp a b }
    ensures factor_total { IsTotalOrder factor_cmp }
    ensures factor_exact { (a b : Factor) → (same_factor a b ≡ true) ↔ (a ≡ b) }
    ensures factor_equal { (a b : Factor)
        → (⟦<crate::Factor as PartialEq>⟧.eq a b ≡ true) ↔ (a ≡ b) }
    ensures key_total { IsTotalOrder key_cmp }
    ensures key_exact { (a b : FactorKey) → (same_key a b ≡ true) ↔ (a ≡ b) }
    ensures key_equal { (a b : FactorKey)
        → (⟦<crate::FactorKey as PartialEq>⟧.eq a b ≡ true) ↔ (a ≡ b) }
{
    equals_tie::<crate::Factor>();
    equals_tie::<crate::FactorKey>();
}

/// Values are equal just where they compare as equal.
fn equals_tie<K: Ord>()
    ensures { (a b : K) → K.eq a b ≡ is_eq (K.cmp a b) }
{}
