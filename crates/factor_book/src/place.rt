ghost use Rattle.std.specs.Prelude.{◌≡◌};
ghost use Rattle.std.specs.Ordering.{is_lt};
ghost use Rattle.factor_book.specs.Place.{address_of, base_stand, place_cmp};
ghost use Rattle.factor_book.specs.Place.{place_named, place_of, stand_bucket};
ghost use Rattle.factor_book.specs.Place.{stand_class, stand_named, stand_of, stand_side};
ghost use Rattle.factor_book.specs.declared.slot.Slot.TheVariants as slot;
ghost use Rattle.simm_rules.specs.Risks.{risk};
ghost use Rattle.simm_rules.specs.SimmKinds.declared.bucket.Bucket.TheVariants as bucket;
ghost use Rattle.simm_rules.specs.declared.classes.PricedClass.TheVariants as priced;

use crate::address::Address;
use crate::slot::Slot;
use simm_rules::simm_kinds::{
    Bucket, BucketId, BucketNumber, Factor, FactorKey, Measure, ProductClass, RiskClass,
};
use simm_rules::{CreditClass, PricedClass};

/// A side of a risk class, whose sensitivities are counted and sized together.
#[derive(Clone, Copy, PartialEq, Eq, PartialOrd, Ord)]
pub enum BookSide {
    /// Delta, with base correlation.
    Delta,
    /// Volatility, from which vega and curvature come.
    Volatility,
}

/// What stands together in each product class of a book.
#[derive(Clone, Copy)]
pub enum Stand {
    /// The factors of delta of a bucket.
    Delta(Slot),
    /// The index families of base correlation, which belong to credit that qualifies.
    BaseCorrelation,
    /// The volatilities of a bucket, from which its vega and its curvature come.
    Volatility(Slot),
}

impl Stand {
    /// Where a factor stands.
    pub fn of(factor: &Factor) -> Stand
        ensures { result ≡ stand_of (risk factor.now) }
    {
        match factor {
            Factor::IrCurve { currency, .. }
            | Factor::Inflation { currency }
            | Factor::XccyBasis { currency } => Stand::Delta(Slot::Rates(*currency)),
            Factor::IrVol { currency, .. } | Factor::InflationVol { currency, .. } => {
                Stand::Volatility(Slot::Rates(*currency))
            }
            Factor::CreditQ { bucket, .. } => {
                Stand::Delta(Slot::Credit(CreditClass::Qualifying, *bucket))
            }
            Factor::CreditVol { bucket, .. } => {
                Stand::Volatility(Slot::Credit(CreditClass::Qualifying, *bucket))
            }
            Factor::CreditNonQ { bucket, .. } => {
                Stand::Delta(Slot::Credit(CreditClass::NonQualifying, *bucket))
            }
            Factor::CreditVolNonQ { bucket, .. } => {
                Stand::Volatility(Slot::Credit(CreditClass::NonQualifying, *bucket))
            }
            Factor::BaseCorr { .. } => Stand::BaseCorrelation,
            Factor::Equity { bucket, .. } => {
                Stand::Delta(Slot::Priced(PricedClass::Equities, *bucket))
            }
            Factor::EquityVol { bucket, .. } => {
                Stand::Volatility(Slot::Priced(PricedClass::Equities, *bucket))
            }
            Factor::Commodity { bucket, .. } => Stand::Delta(commodities(*bucket)),
            Factor::CommodityVol { bucket, .. } => Stand::Volatility(commodities(*bucket)),
            Factor::Fx { .. } => Stand::Delta(Slot::Exchange),
            Factor::FxVol { .. } => Stand::Volatility(Slot::Exchange),
        }
    }

    /// Its risk class.
    pub fn class(self) -> RiskClass
        ensures { result ≡ stand_class self }
    {
        match self {
            Stand::Delta(slot) | Stand::Volatility(slot) => slot.class(),
            Stand::BaseCorrelation => RiskClass::CreditQ,
        }
    }

    /// Its side.
    pub fn side(self) -> BookSide
        ensures { result ≡ stand_side self }
    {
        match self {
            Stand::Delta(_) | Stand::BaseCorrelation => BookSide::Delta,
            Stand::Volatility(_) => BookSide::Volatility,
        }
    }

    /// The id of its bucket, as it is printed and named: base correlation has the only one.
    pub fn bucket(self) -> BucketId
        ensures { result ≡ stand_bucket self }
    {
        match self {
            Stand::Delta(slot) | Stand::Volatility(slot) => slot.bucket(),
            Stand::BaseCorrelation => BucketId::Single,
        }
    }

    // That of a measure of a bucket, by names; `None` where there is none.
    fn read(class: RiskClass, measure: Measure, bucket: BucketId) -> Option<Stand>
        ensures { result ≡ stand_named class measure bucket }
    {
        match measure {
            Measure::Delta => Some(Stand::Delta(Slot::read(class, bucket)?)),
            Measure::Vega | Measure::Curvature => {
                Some(Stand::Volatility(Slot::read(class, bucket)?))
            }
            Measure::BaseCorr => base_stand(class, bucket),
        }
    }
}

/// Where a factor stands in a book: the factors of one product class that stand together there.
#[derive(Clone, Copy)]
pub struct Place {
    /// The product class.
    pub product: ProductClass,
    /// What stands there.
    pub stand: Stand,
}

impl Place {
    /// The place of a key.
    pub fn of(key: &FactorKey) -> Place
        ensures { result ≡ place_of key.now }
    {
        Place {
            product: key.product,
            stand: Stand::of(&key.factor),
        }
    }

    /// The place whose value a caller names by product class, risk class, measure and bucket;
    /// `None` where the class has no such bucket. Base correlation is named by the bucket `Single`
    /// of credit that qualifies, which has no other measure.
    pub fn read(
        product: ProductClass,
        class: RiskClass,
        measure: Measure,
        bucket: BucketId,
    ) -> Option<Place>
        ensures { result ≡ place_named product class measure bucket }
    {
        Some(Place {
            product,
            stand: Stand::read(class, measure, bucket)?,
        })
    }

    /// What a book sorts it by.
    pub fn address(&self) -> Address
        ensures { result ≡ address_of self.now }
    {
        Address {
            product: self.product,
            class: self.stand.class(),
            side: self.stand.side(),
            bucket: self.stand.bucket(),
        }
    }

    /// Whether it stands before another in the order of places: by product class, risk class, side
    /// and bucket.
    pub fn is_before(&self, other: &Place) -> bool
        ensures { result ≡ is_lt (place_cmp self.now other.now) }
    {
        self.address().cmp(&other.address()).is_lt()
    }
}

fn commodities(number: BucketNumber) -> Slot
    ensures { result ≡ slot.Priced priced.Commodities (bucket.Number number) }
{
    Slot::Priced(PricedClass::Commodities, Bucket::Number(number))
}

fn base_stand(class: RiskClass, bucket: BucketId) -> Option<Stand>
    ensures { result ≡ base_stand class bucket }
{
    match (class, bucket) {
        (RiskClass::CreditQ, BucketId::Single) => Some(Stand::BaseCorrelation),
        _ => None,
    }
}
