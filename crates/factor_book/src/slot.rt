ghost use Rattle.std.specs.Prelude.{◌≡◌};
ghost use Rattle.factor_book.specs.Place.{credit_slot, exchange_slot, priced_slot};
ghost use Rattle.factor_book.specs.Place.{rates_slot, slot_bucket, slot_class, slot_named};

use simm_rules::simm_kinds::{Bucket, BucketId, Currency, RiskClass};
use simm_rules::{CreditClass, PricedClass};

/// A bucket of a risk class, by what stands in it.
#[derive(Clone, Copy)]
pub enum Slot {
    /// Interest rates: that of a currency.
    Rates(Currency),
    /// Credit that qualifies or that does not: one that files list.
    Credit(CreditClass, Bucket),
    /// Equity or commodities: one that files list.
    Priced(PricedClass, Bucket),
    /// Foreign exchange: the one of all currencies, and of all pairs.
    Exchange,
}

impl Slot {
    /// The slot of a bucket that a risk class and an id name; `None` where the class has no
    /// such bucket.
    pub fn read(class: RiskClass, bucket: BucketId) -> Option<Slot>
        ensures { result ≡ slot_named class bucket }
    {
        match class {
            RiskClass::IR => rates_slot(bucket),
            RiskClass::CreditQ => credit_slot(CreditClass::Qualifying, bucket),
            RiskClass::CreditNonQ => credit_slot(CreditClass::NonQualifying, bucket),
            RiskClass::Equity => priced_slot(PricedClass::Equities, bucket),
            RiskClass::Commodity => priced_slot(PricedClass::Commodities, bucket),
            RiskClass::FX => exchange_slot(bucket),
        }
    }

    /// Its risk class.
    pub fn class(self) -> RiskClass
        ensures { result ≡ slot_class self }
    {
        match self {
            Slot::Rates(_) => RiskClass::IR,
            Slot::Credit(class, _) => class.risk_class(),
            Slot::Priced(class, _) => class.risk_class(),
            Slot::Exchange => RiskClass::FX,
        }
    }

    /// The id of its bucket.
    pub fn bucket(self) -> BucketId
        ensures { result ≡ slot_bucket self }
    {
        match self {
            Slot::Rates(currency) => BucketId::Currency(currency),
            Slot::Credit(_, bucket) | Slot::Priced(_, bucket) => bucket.id(),
            Slot::Exchange => BucketId::Single,
        }
    }
}

fn rates_slot(bucket: BucketId) -> Option<Slot>
    ensures { result ≡ rates_slot bucket }
{
    match bucket {
        BucketId::Currency(currency) => Some(Slot::Rates(currency)),
        BucketId::Number(_) | BucketId::Residual | BucketId::Single => None,
    }
}

fn credit_slot(class: CreditClass, bucket: BucketId) -> Option<Slot>
    ensures { result ≡ credit_slot class bucket }
{
    Some(Slot::Credit(class, bucket.listed()?))
}

fn priced_slot(class: PricedClass, bucket: BucketId) -> Option<Slot>
    ensures { result ≡ priced_slot class bucket }
{
    Some(Slot::Priced(class, bucket.listed()?))
}

fn exchange_slot(bucket: BucketId) -> Option<Slot>
    ensures { result ≡ exchange_slot bucket }
{
    match bucket {
        BucketId::Single => Some(Slot::Exchange),
        BucketId::Number(_) | BucketId::Residual | BucketId::Currency(_) => None,
    }
}
