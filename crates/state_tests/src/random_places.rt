//! The places at which random rows lie.
use crif_reader::simm_kinds::{BucketId, BucketNumber, Currency, Measure, ProductClass, RiskClass};
use std::process::Abort;

/// Factors whose rows lie in one bucket on one side, and the measures that such a row touches.
pub struct Place {
    pub product: ProductClass,
    pub class: RiskClass,
    /// The currency or the number of the bucket; neither for a single one.
    pub bucket: &'static str,
    pub measures: &'static [Measure],
    /// The risk type, qualifier, bucket and labels of each.
    pub factors: &'static [&'static str],
}

const DELTA: &[Measure] = &[Measure::Delta];

const VOLATILITY: &[Measure] = &[Measure::Vega, Measure::Curvature];

const BASE_CORRELATION: &[Measure] = &[Measure::BaseCorr];

pub static PLACES: [Place; 13] = [
    Place {
        product: ProductClass::RatesFX,
        class: RiskClass::IR,
        bucket: "EUR",
        measures: DELTA,
        factors: &[
            "Risk_IRCurve,EUR,,10y,OIS",
            "Risk_IRCurve,EUR,,2y,Libor3m",
            "Risk_Inflation,EUR,,,",
            "Risk_XCcyBasis,EUR,,,",
        ],
    },
    Place {
        product: ProductClass::RatesFX,
        class: RiskClass::IR,
        bucket: "EUR",
        measures: VOLATILITY,
        factors: &["Risk_IRVol,EUR,,5y,", "Risk_InflationVol,EUR,,1y,"],
    },
    Place {
        product: ProductClass::RatesFX,
        class: RiskClass::IR,
        bucket: "GBP",
        measures: DELTA,
        factors: &["Risk_IRCurve,GBP,,10y,OIS", "Risk_IRCurve,GBP,,30y,OIS"],
    },
    Place {
        product: ProductClass::RatesFX,
        class: RiskClass::FX,
        bucket: "",
        measures: DELTA,
        factors: &["Risk_FX,EUR,,,", "Risk_FX,BRL,,,", "Risk_FX,USD,,,"],
    },
    Place {
        product: ProductClass::RatesFX,
        class: RiskClass::FX,
        bucket: "",
        measures: VOLATILITY,
        factors: &["Risk_FXVol,EURUSD,,1y,", "Risk_FXVol,BRLGBP,,5y,"],
    },
    Place {
        product: ProductClass::Credit,
        class: RiskClass::IR,
        bucket: "EUR",
        measures: DELTA,
        factors: &["Risk_IRCurve,EUR,,10y,OIS"],
    },
    Place {
        product: ProductClass::Credit,
        class: RiskClass::CreditQ,
        bucket: "1",
        measures: DELTA,
        factors: &["Risk_CreditQ,ACME,1,5y,", "Risk_CreditQ,BOLT,1,2y,USD"],
    },
    Place {
        product: ProductClass::Credit,
        class: RiskClass::CreditQ,
        bucket: "1",
        measures: VOLATILITY,
        factors: &["Risk_CreditVol,ACME,1,5y,", "Risk_CreditVol,BOLT,1,1y,"],
    },
    Place {
        product: ProductClass::Credit,
        class: RiskClass::CreditQ,
        bucket: "",
        measures: BASE_CORRELATION,
        factors: &["Risk_BaseCorr,CDX,,,", "Risk_BaseCorr,ITRAXX,,,"],
    },
    Place {
        product: ProductClass::Credit,
        class: RiskClass::CreditNonQ,
        bucket: "1",
        measures: DELTA,
        factors: &["Risk_CreditNonQ,LOAN,1,3y,"],
    },
    Place {
        product: ProductClass::Equity,
        class: RiskClass::Equity,
        bucket: "1",
        measures: DELTA,
        factors: &["Risk_Equity,ACME,1,,", "Risk_Equity,BOLT,1,,"],
    },
    Place {
        product: ProductClass::Equity,
        class: RiskClass::Equity,
        bucket: "1",
        measures: VOLATILITY,
        factors: &["Risk_EquityVol,ACME,1,1y,", "Risk_EquityVol,BOLT,1,2w,"],
    },
    Place {
        product: ProductClass::Commodity,
        class: RiskClass::Commodity,
        bucket: "1",
        measures: VOLATILITY,
        factors: &["Risk_CommodityVol,COAL,1,6m,"],
    },
];

pub fn place_at(rt: &impl Abort, index: usize) -> &'static Place {
    PLACES.get(index).expect(rt, "a place")
}

pub fn bucket(text: &[u8]) -> BucketId {
    match (Currency::read(text), BucketNumber::read(text)) {
        (Some(currency), _) => BucketId::Currency(currency),
        (None, Some(number)) => BucketId::Number(number),
        (None, None) => BucketId::Single,
    }
}
