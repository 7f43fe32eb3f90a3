//! A portfolio with a record or more of each risk type, read and written back.
use crate::makers::is_rewritten;

/// 38 records as a dealer sends them: more columns, in other words and cases. Three are
/// passed over.
const SENT: &[u8] =
    b"TradeID\tPortfolioID\tproductclass\tRisk_Type\tQualifier\tBucket\tLabel1\tLabel2\tAmount\tAmountCurrency\tAmountUSD\tIMModel\tvaluation_date\n\
R1\tP1\tRatesFX\tRisk_IRCurve\tEUR\t1\t10Y\tOIS\t6.00\tUSD\t6.00\tSIMM\t2024-03-01\n\
R1\tP1\tRatesFX\tRisk_IRCurve\tEUR\t1\t12m\tois\t2.00\tUSD\t2.00\tSIMM\t2024-03-01\n\
R2\tP1\tRatesFX\tRisk_IRCurve\tEUR\t1\t1y\tOIS\t-2.00\tUSD\t-2.00\tSIMM\t2024-03-01\n\
R2\tP1\tRatesFX\tRisk_IRVol\tEUR\t\t5y\t\t40.00\tUSD\t40.00\tSIMM\t2024-03-01\n\
R3\tP1\tRatesFX\tRisk_IRVol\tEUR\t\t5Y\t\t-40.00\tUSD\t-40.00\tSIMM\t2024-03-01\n\
R2\tP1\tRatesFX\tRisk_Inflation\tEUR\t\t\t\t3.00\tUSD\t3.00\tSIMM\t2024-03-01\n\
R3\tP1\tRatesFX\tRisk_Inflation\tEUR\t\t\t\t-3.00\tUSD\t-3.00\tSIMM\t2024-03-01\n\
R2\tP1\tRatesFX\tRisk_InflationVol\tEUR\t\t2y\t\t1.00\tUSD\t1.00\tSIMM\t2024-03-01\n\
R3\tP1\tRatesFX\tRisk_InflationVol\tEUR\t\t2y\t\t-1.00\tUSD\t-1.00\tSIMM\t2024-03-01\n\
R2\tP1\tRatesFX\tRisk_XCcyBasis\tEUR\t\t\t\t7.00\tUSD\t7.00\tSIMM\t2024-03-01\n\
R3\tP1\tRatesFX\tRisk_XCcyBasis\tEUR\t\t\t\t-7.00\tUSD\t-7.00\tSIMM\t2024-03-01\n\
R4\tP1\tRatesFX\tRisk_FX\tBRL\t\t\t\t50.00\tUSD\t50.00\tSIMM\t2024-03-01\n\
R4\tP1\tRatesFX\tRisk_FX\tUSD\t\t\t\t77.00\tUSD\t77.00\tSIMM\t2024-03-01\n\
R4\tP1\tRatesFX\tRisk_FXVol\tUSDEUR\t\t3m\t\t5.00\tUSD\t5.00\tSIMM\t2024-03-01\n\
R5\tP1\tRatesFX\tRisk_FXVol\tEURUSD\t\t3m\t\t-5.00\tUSD\t-5.00\tSIMM\t2024-03-01\n\
C1\tP1\tCredit\tRisk_CreditQ\tISIN:X\t1\t5y\tEUR\t2.75\tEUR\t3.00\tSIMM\t2024-03-01\n\
C1\tP1\tCredit\tRisk_CreditQ\tISIN:X\t1\t1y\tEUR\t5.00\tUSD\t5.00\tSIMM\t2024-03-01\n\
C2\tP1\tCredit\tRisk_CreditQ\tISIN:Y\tresidual\t3y\tUSD\t2.00\tUSD\t2.00\tSIMM\t2024-03-01\n\
C2\tP1\tCredit\tRisk_CreditVol\tISIN:X\t1\t5y\tEUR\t9.00\tUSD\t9.00\tSIMM\t2024-03-01\n\
C1\tP1\tCredit\tRisk_CreditVol\tISIN:X\t1\t5y\tEUR\t-9.00\tUSD\t-9.00\tSIMM\t2024-03-01\n\
C3\tP1\tCredit\tRisk_BaseCorr\tCDX IG\t\t\t\t4.00\tUSD\t4.00\tSIMM\t2024-03-01\n\
C4\tP1\tCredit\tRisk_CreditNonQ\tRMBS A\t1\t5y\t\t3.50\tUSD\t3.50\tSIMM\t2024-03-01\n\
C4\tP1\tCredit\tRisk_CreditVolNonQ\tRMBS A\t1\t5y\t\t6.00\tUSD\t6.00\tSIMM\t2024-03-01\n\
C5\tP1\tCredit\tRisk_CreditVolNonQ\tRMBS A\t1\t5y\t\t-6.00\tUSD\t-6.00\tSIMM\t2024-03-01\n\
E1\tP1\tequity\tRisk_Equity\tISIN:A\t1\t\t\t3.00\tUSD\t3.00\tSIMM\t2024-03-01\n\
E1\tP1\tequity\tRisk_Equity\tISIN:B\t1\t\t\t5.00\tUSD\t5.00\tSIMM\t2024-03-01\n\
E2\tP1\tEquity\tRisk_EquityVol\tVIX\t2\t6m\t\t4.00\tUSD\t4.00\tSIMM\t2024-03-01\n\
E2\tP1\tEquity\tRisk_EquityVol\tVIX\t2\t1y\t\t6.00\tUSD\t6.00\tSIMM\t2024-03-01\n\
M1\tP1\tCommodity\tRisk_Commodity\tCrude\t1\t\t\t2.00\tUSD\t\tSIMM\t2024-03-01\n\
M1\tP1\tCommodity\tRisk_CommodityVol\tCrude\t1\t1y\t\t8.00\tUSD\t8.00\tSIMM\t2024-03-01\n\
M2\tP1\tCommodity\tRisk_CommodityVol\tCrude\t1\t1y\t\t-8.00\tUSD\t-8.00\tSIMM\t2024-03-01\n\
N1\tP1\tRatesFX\tNotional\tXYZ\t\t\t\t-1000.00\tUSD\t-1000.00\tSIMM\t2024-03-01\n\
\tP1\t\tParam_AddOnNotionalFactor\tXYZ\t\t\t\t2\t\t\tSIMM\t2024-03-01\n\
\tP1\t\tParam_AddOnFixedAmount\t\t\t\t\t10.00\tUSD\t10.00\tSIMM\t2024-03-01\n\
\tP1\t\tParam_ProductClassMultiplier\tEquity\t\t\t\t1.5\t\t\tSIMM\t2024-03-01\n\
R1\tP1\tRatesFX\tPV\t\t\t\t\t12.00\tUSD\t12.00\tSIMM\t2024-03-01\n\
S1\tP1\tRates\tNotional\t\t\t\t\t5000.00\tUSD\t5000.00\tSchedule\t2024-03-01\n\
S1\tP1\tRates\tPV\t\t\t\t\t9.00\tUSD\t9.00\tSchedule\t2024-03-01\n";

/// Its 35 rows as they are written: gathered by their 16 trades, each in its standard words,
/// in USD.
const WRITTEN: &[u8] =
    b"TradeID\tProductClass\tRiskType\tQualifier\tBucket\tLabel1\tLabel2\tAmount\tAmountCurrency\tAmountUSD\n\
R1\tRatesFX\tRisk_IRCurve\tEUR\t\t10y\tOIS\t6.00\tUSD\t6.00\n\
R1\tRatesFX\tRisk_IRCurve\tEUR\t\t1y\tOIS\t2.00\tUSD\t2.00\n\
R2\tRatesFX\tRisk_IRCurve\tEUR\t\t1y\tOIS\t-2.00\tUSD\t-2.00\n\
R2\tRatesFX\tRisk_IRVol\tEUR\t\t5y\t\t40.00\tUSD\t40.00\n\
R2\tRatesFX\tRisk_Inflation\tEUR\t\t\t\t3.00\tUSD\t3.00\n\
R2\tRatesFX\tRisk_InflationVol\tEUR\t\t2y\t\t1.00\tUSD\t1.00\n\
R2\tRatesFX\tRisk_XCcyBasis\tEUR\t\t\t\t7.00\tUSD\t7.00\n\
R3\tRatesFX\tRisk_IRVol\tEUR\t\t5y\t\t-40.00\tUSD\t-40.00\n\
R3\tRatesFX\tRisk_Inflation\tEUR\t\t\t\t-3.00\tUSD\t-3.00\n\
R3\tRatesFX\tRisk_InflationVol\tEUR\t\t2y\t\t-1.00\tUSD\t-1.00\n\
R3\tRatesFX\tRisk_XCcyBasis\tEUR\t\t\t\t-7.00\tUSD\t-7.00\n\
R4\tRatesFX\tRisk_FX\tBRL\t\t\t\t50.00\tUSD\t50.00\n\
R4\tRatesFX\tRisk_FX\tUSD\t\t\t\t77.00\tUSD\t77.00\n\
R4\tRatesFX\tRisk_FXVol\tEURUSD\t\t3m\t\t5.00\tUSD\t5.00\n\
R5\tRatesFX\tRisk_FXVol\tEURUSD\t\t3m\t\t-5.00\tUSD\t-5.00\n\
C1\tCredit\tRisk_CreditQ\tISIN:X\t1\t5y\tEUR\t3.00\tUSD\t3.00\n\
C1\tCredit\tRisk_CreditQ\tISIN:X\t1\t1y\tEUR\t5.00\tUSD\t5.00\n\
C1\tCredit\tRisk_CreditVol\tISIN:X\t1\t5y\tEUR\t-9.00\tUSD\t-9.00\n\
C2\tCredit\tRisk_CreditQ\tISIN:Y\tResidual\t3y\tUSD\t2.00\tUSD\t2.00\n\
C2\tCredit\tRisk_CreditVol\tISIN:X\t1\t5y\tEUR\t9.00\tUSD\t9.00\n\
C3\tCredit\tRisk_BaseCorr\tCDX IG\t\t\t\t4.00\tUSD\t4.00\n\
C4\tCredit\tRisk_CreditNonQ\tRMBS A\t1\t5y\t\t3.50\tUSD\t3.50\n\
C4\tCredit\tRisk_CreditVolNonQ\tRMBS A\t1\t5y\t\t6.00\tUSD\t6.00\n\
C5\tCredit\tRisk_CreditVolNonQ\tRMBS A\t1\t5y\t\t-6.00\tUSD\t-6.00\n\
E1\tEquity\tRisk_Equity\tISIN:A\t1\t\t\t3.00\tUSD\t3.00\n\
E1\tEquity\tRisk_Equity\tISIN:B\t1\t\t\t5.00\tUSD\t5.00\n\
E2\tEquity\tRisk_EquityVol\tVIX\t2\t6m\t\t4.00\tUSD\t4.00\n\
E2\tEquity\tRisk_EquityVol\tVIX\t2\t1y\t\t6.00\tUSD\t6.00\n\
M1\tCommodity\tRisk_Commodity\tCrude\t1\t\t\t2.00\tUSD\t2.00\n\
M1\tCommodity\tRisk_CommodityVol\tCrude\t1\t1y\t\t8.00\tUSD\t8.00\n\
M2\tCommodity\tRisk_CommodityVol\tCrude\t1\t1y\t\t-8.00\tUSD\t-8.00\n\
N1\t\tNotional\tXYZ\t\t\t\t-1000.00\tUSD\t-1000.00\n\
\t\tParam_AddOnNotionalFactor\tXYZ\t\t\t\t2.0000\tUSD\t\n\
\t\tParam_AddOnFixedAmount\t\t\t\t\t10.00\tUSD\t10.00\n\
\t\tParam_ProductClassMultiplier\tEquity\t\t\t\t1.5000\tUSD\t\n";

#[test]
fn a_portfolio_is_read_and_written_back(rt: HostRuntime) {
    assert!(rt; is_rewritten(&rt, SENT, 3, WRITTEN));
    assert!(rt; is_rewritten(&rt, WRITTEN, 0, WRITTEN));
}
