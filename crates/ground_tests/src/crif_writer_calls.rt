use crate::makers::{is_rewritten, trade, written};
use crif_writer::simm_kinds::{Batch, Listed};
use std::process::Abort;

/// A batch as it is written: the name of one of its two trades has a quote, which csv doubles
/// between quotes.
const TEXT: &[u8] =
    b"TradeID\tProductClass\tRiskType\tQualifier\tBucket\tLabel1\tLabel2\tAmount\tAmountCurrency\tAmountUSD\n\
\"the \"\"first\"\"\"\tRatesFX\tRisk_FX\tEUR\t\t\t\t1000.00\tUSD\t1000.00\n\
\"the \"\"first\"\"\"\tRatesFX\tRisk_FX\tEUR\t\t\t\t1000.00\tUSD\t1000.00\n\
a, b\tRatesFX\tRisk_FX\tJPY\t\t\t\t-0.05\tUSD\t-0.05\n";

/// The trades of the text: the name, the currency, the cents of each row, and how many rows
/// there are.
static TRADES: [(&str, &str, i64, usize); 2] = [
    ("the \"first\"", "EUR", 100_000, 2),
    ("a, b", "JPY", -5, 1),
];

fn batch(rt: &(impl Abort + AllocGlobal)) -> Batch {
    let mut trades = Listed::new(rt.alloc());
    for (name, currency, cents, count) in &TRADES {
        let trade = trade(rt, name, currency, *cents, *count);
        trades.push(trade).ok().expect(rt, "memory");
    }
    Batch::make(rt.alloc(), trades).ok().expect(rt, "a batch")
}

#[test]
fn a_batch_is_written(rt: HostRuntime) {
    let batch = batch(&rt);
    assert!(rt; written(&rt, &batch).as_slice() == TEXT);
    drop(batch);
}

#[test]
fn a_written_batch_reads_back(rt: HostRuntime) {
    assert!(rt; is_rewritten(&rt, TEXT, 0, TEXT));
}

/// A row of each risk type, as it is written.
const EVERY_TYPE: &[u8] =
    b"TradeID\tProductClass\tRiskType\tQualifier\tBucket\tLabel1\tLabel2\tAmount\tAmountCurrency\tAmountUSD\n\
T1\tRatesFX\tRisk_IRCurve\tEUR\t\t1y\tLibor3m\t1.00\tUSD\t1.00\n\
T1\tRatesFX\tRisk_Inflation\tEUR\t\t\t\t-2.00\tUSD\t-2.00\n\
T1\tRatesFX\tRisk_XCcyBasis\tEUR\t\t\t\t3.00\tUSD\t3.00\n\
T1\tRatesFX\tRisk_IRVol\tEUR\t\t2w\t\t3.10\tUSD\t3.10\n\
T1\tRatesFX\tRisk_InflationVol\tEUR\t\t30y\t\t3.20\tUSD\t3.20\n\
T1\tCredit\tRisk_CreditQ\tISIN:X\t1\t5y\tEUR\t4.00\tUSD\t4.00\n\
T1\tCredit\tRisk_CreditVol\tISIN:X\tResidual\t1y\tISIN:X\t4.10\tUSD\t4.10\n\
T1\tCredit\tRisk_CreditNonQ\tRMBS A\tResidual\t10y\t\t5.00\tUSD\t5.00\n\
T1\tCredit\tRisk_CreditVolNonQ\tRMBS A\t2\t3y\t\t5.10\tUSD\t5.10\n\
T1\tCredit\tRisk_BaseCorr\tCDX IG\t\t\t\t6.00\tUSD\t6.00\n\
\t\tParam_ProductClassMultiplier\tRatesFX\t\t\t\t1.5000\tUSD\t\n\
\t\tParam_AddOnNotionalFactor\tExotics\t\t\t\t0.0025\tUSD\t\n\
\t\tParam_AddOnFixedAmount\t\t\t\t\t0.50\tUSD\t0.50\n\
\t\tParam_AddOnFixedAmount\t\t\t\t\t0.50\tUSD\t0.50\n\
T2\tEquity\tRisk_Equity\tISIN:A\tResidual\t\t\t7.00\tUSD\t7.00\n\
T2\tEquity\tRisk_EquityVol\tISIN:A\t12\t6m\t\t7.10\tUSD\t7.10\n\
T2\tCommodity\tRisk_Commodity\tCrude\t64\t\t\t8.00\tUSD\t8.00\n\
T2\tCommodity\tRisk_CommodityVol\tCrude\t1\t20y\t\t8.10\tUSD\t8.10\n\
T2\tRatesFX\tRisk_FX\tEUR\t\t\t\t9.00\tUSD\t9.00\n\
T2\tRatesFX\tRisk_FXVol\tEURUSD\t\t5y\t\t9.10\tUSD\t9.10\n\
T2\t\tNotional\tExotics\t\t\t\t-9.20\tUSD\t-9.20\n\
T2\t\tNotional\t\t\t\t\t9.30\tUSD\t9.30\n";

#[test]
fn a_batch_of_every_type_is_written_as_it_is_read(rt: HostRuntime) {
    assert!(rt; is_rewritten(&rt, EVERY_TYPE, 0, EVERY_TYPE));
}
