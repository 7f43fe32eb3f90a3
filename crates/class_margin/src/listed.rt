//! What the buckets of a class are; and of a class of which the file lists them, the numbered ones
//! side by side.
ghost use Rattle.std.specs.Prelude.{◌≡◌, ◌≤◌, true, unsigned_abs, IfOk};
ghost use Rattle.class_rates.specs.SimmParams.ListedBuckets.{listed_place};
ghost use Rattle.class_rates.specs.SimmParams.Weighed.{AreCorrelations};
ghost use Rattle.class_rates.specs.SimmRules.Across.{numbered, place_among};
ghost use Rattle.class_rates.specs.SimmRules.Admits.{lists};
ghost use Rattle.class_rates.specs.SimmRules.Lookups.{at_row};
ghost use Rattle.class_margin.specs.Across.{buckets_of};
ghost use Rattle.class_margin.specs.Parts.{as_parts};
ghost use Rattle.class_margin.specs.names_delta.Combine.{listed_in, gamma_in, AreListed};
ghost use Rattle.class_margin.specs.names_delta.Combine.{margins_of, places_of, number_place};

use class_rates::mh_units::Rate4;
use class_rates::simm_kinds::{Bucket, RiskClass};
use class_rates::simm_params::Params;
use class_rates::simm_rules::{BucketMargin, CreditClass, PricedClass};
use std::alloc::{AllocError, Global};

/// A class of which the file lists buckets.
#[derive(Clone, Copy)]
pub enum ListedClass {
    /// A class of credit.
    Credit(CreditClass),
    /// Equity or commodities.
    Priced(PricedClass),
}

/// What the buckets of a class are.
#[derive(Clone, Copy)]
pub enum ClassBuckets {
    /// Those of interest rates: currencies.
    Currencies,
    /// Buckets that the file lists.
    Listed(ListedClass),
    /// That of foreign exchange: one.
    Single,
}

impl ClassBuckets {
    /// Those of a risk class.
    pub fn of(class: RiskClass) -> ClassBuckets
        ensures { result ≡ buckets_of class }
    {
        match class {
            RiskClass::IR => ClassBuckets::Currencies,
            RiskClass::CreditQ => {
                ClassBuckets::Listed(ListedClass::Credit(CreditClass::Qualifying))
            }
            RiskClass::CreditNonQ => {
                ClassBuckets::Listed(ListedClass::Credit(CreditClass::NonQualifying))
            }
            RiskClass::Equity => ClassBuckets::Listed(ListedClass::Priced(PricedClass::Equities)),
            RiskClass::Commodity => {
                ClassBuckets::Listed(ListedClass::Priced(PricedClass::Commodities))
            }
            RiskClass::FX => ClassBuckets::Single,
        }
    }
}

impl ListedClass {
    /// What the correlations of its buckets keep. It does nothing.
    pub fn facts(self, params: &Params)
        ensures { AreCorrelations (gamma_in params.now self) }
    {
        match self {
            ListedClass::Credit(_) => params.credit_facts(),
            ListedClass::Priced(_) => params.priced_facts(),
        }
    }

    /// The place of a bucket among those that the file lists, counted from 0.
    pub fn place(self, params: &Params, bucket: Bucket) -> usize
        requires { lists (listed_in params.now self) bucket ≡ true }
        ensures { result ≡ place_among (listed_in params.now self) bucket }
    {
        self.find(params, bucket).unwrap()
    }

    // The same, where the file lists it.
    fn find(self, params: &Params, bucket: Bucket) -> Option<usize>
        ensures { result ≡ listed_place (listed_in params.now self) bucket }
    {
        match self {
            ListedClass::Credit(class) => params.credit_place(class, bucket),
            ListedClass::Priced(class) => params.priced_place(class, bucket),
        }
    }

    /// The correlation of the numbered buckets at two places, in ten-thousandths.
    pub fn gamma(self, params: &Params, row: usize, column: usize) -> Rate4
        ensures value { result.0 ≡ at_row (gamma_in params.now self) row column }
        ensures size { unsigned_abs result.0 ≤ 10000 }
    {
        match self {
            ListedClass::Credit(class) => params.credit_gamma(class, row, column),
            ListedClass::Priced(class) => params.priced_gamma(class, row, column),
        }
    }
}

/// The values of the numbered buckets of a class, and the place of each among the buckets that the
/// file lists.
#[derive(Drop)]
pub struct Numbered {
    /// The values.
    pub margins: Vec<BucketMargin>,
    /// The places.
    pub places: Vec<usize>,
}

/// Those of these parts. Want of memory is the only error.
pub fn number_parts(
    alloc: Global,
    params: &Params,
    class: ListedClass,
    parts: &[(Bucket, BucketMargin)],
) -> Result<Numbered, AllocError>
    requires { AreListed (listed_in params.now class) parts.now }
    ensures margins { IfOk result (λ n.
        n.margins.items ≡ margins_of (numbered (as_parts parts.now))) }
    ensures places { IfOk result (λ n.
        n.places.items ≡ places_of (listed_in params.now class) (numbered (as_parts parts.now))) }
{
    let mut margins = Vec::with_capacity(alloc, parts.len())?;
    let mut places = Vec::with_capacity(alloc, parts.len())?;
    for part in parts {
        if let Some(place) = number_place(params, class, part.0) {
            margins.push(part.1)?;
            places.push(place)?;
        }
    }
    Ok(Numbered { margins, places })
}

// The place of a numbered bucket among those that the file lists.
fn number_place(params: &Params, class: ListedClass, bucket: Bucket) -> Option<usize>
    requires { lists (listed_in params.now class) bucket ≡ true }
    ensures { result ≡ number_place (listed_in params.now class) bucket }
{
    match bucket {
        Bucket::Number(_) => Some(class.place(params, bucket)),
        Bucket::Residual => None,
    }
}
