//! The addresses of a side stand together among all addresses: where they begin and end.
ghost use Rattle.std.specs.Prelude.{◌≡◌, ◌+◌, MatchOption};
ghost use Rattle.std.specs.BTreeMap.Range.{IsLeBy, IsLtBy, range_contains};
ghost use Rattle.std.specs.Bound.{IsForward};
ghost use Rattle.simm_rules.specs.SimmKinds.Order.{product_place, class_place};
ghost use Rattle.factor_book.specs.declared.address.Address.{Address as At};
ghost use Rattle.factor_book.specs.Address.{address_cmp};
ghost use Rattle.factor_book.specs.Filing.{is_of, last_of, sides_before};

use crate::address::Address;
use crate::place::BookSide;
use simm_rules::simm_kinds::{BucketId, ProductClass, RiskClass};
use std::ops::Bound;

/// The bounds of the addresses of the side that an address is of.
pub fn side_bounds(at: &Address) -> (Bound<Address>, Bound<Address>)
    ensures between { (place : At)
        → range_contains address_cmp result.0 result.1 place ≡ is_of at.now place }
    ensures forward { IsForward (IsLeBy address_cmp) (IsLtBy address_cmp) result.0 result.1 }
{
    let end = Bound::Included(last_place(at));
    match side_before(at) {
        Some(before) => (Bound::Excluded(last_place(&before)), end),
        None => (Bound::Unbounded, end),
    }
}

/// The last address that a side may have: no bucket comes after `Single`.
fn last_place(at: &Address) -> Address
    ensures { result ≡ last_of at.now }
{
    Address {
        product: at.product,
        class: at.class,
        side: at.side,
        bucket: BucketId::Single,
    }
}

/// An address of the side just before; `None` of the first.
fn side_before(at: &Address) -> Option<Address>
    ensures { MatchOption result (sides_before at.now ≡ 0)
        (λ before. sides_before at.now ≡ sides_before before + 1) }
{
    match at.side {
        BookSide::Volatility => Some(Address {
            product: at.product,
            class: at.class,
            side: BookSide::Delta,
            bucket: BucketId::Single,
        }),
        BookSide::Delta => match class_before(at.class) {
            Some(class) => Some(Address {
                product: at.product,
                class,
                side: BookSide::Volatility,
                bucket: BucketId::Single,
            }),
            None => Some(Address {
                product: product_before(at.product)?,
                class: RiskClass::FX,
                side: BookSide::Volatility,
                bucket: BucketId::Single,
            }),
        },
    }
}

fn class_before(class: RiskClass) -> Option<RiskClass>
    ensures { MatchOption result (class_place class ≡ 0)
        (λ before. class_place class ≡ class_place before + 1) }
{
    match class {
        RiskClass::IR => None,
        RiskClass::CreditQ => Some(RiskClass::IR),
        RiskClass::CreditNonQ => Some(RiskClass::CreditQ),
        RiskClass::Equity => Some(RiskClass::CreditNonQ),
        RiskClass::Commodity => Some(RiskClass::Equity),
        RiskClass::FX => Some(RiskClass::Commodity),
    }
}

fn product_before(product: ProductClass) -> Option<ProductClass>
    ensures { MatchOption result (product_place product ≡ 0)
        (λ before. product_place product ≡ product_place before + 1) }
{
    match product {
        ProductClass::RatesFX => None,
        ProductClass::Credit => Some(ProductClass::RatesFX),
        ProductClass::Equity => Some(ProductClass::Credit),
        ProductClass::Commodity => Some(ProductClass::Equity),
    }
}
