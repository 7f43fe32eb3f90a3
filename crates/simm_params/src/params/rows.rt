//! Which rows the parameters admit.
ghost use Rattle.std.specs.Prelude.{◌≡◌};
ghost use Rattle.simm_rules.specs.Admits.{admits_factor, admits};

use super::Params;
use simm_rules::simm_kinds::{Bucket, CrifRow, Factor};

impl Params {
    /// Whether the file lists the bucket of a factor; one without a numbered or residual bucket
    /// is admitted.
    pub fn admits_factor(&self, factor: &Factor) -> bool
        ensures { result ≡ admits_factor self.now factor.now }
    {
        let classes = &self.tables.classes;
        match factor {
            Factor::IrCurve { .. }
            | Factor::Inflation { .. }
            | Factor::XccyBasis { .. }
            | Factor::IrVol { .. }
            | Factor::InflationVol { .. }
            | Factor::BaseCorr { .. }
            | Factor::Fx { .. }
            | Factor::FxVol { .. } => true,
            Factor::CreditQ { bucket, .. } | Factor::CreditVol { bucket, .. } => classes
                .credit_q
                .lists(*bucket),
            Factor::CreditNonQ { bucket, .. } | Factor::CreditVolNonQ { bucket, .. } => classes
                .credit_nq
                .lists(*bucket),
            Factor::Equity { bucket, .. } | Factor::EquityVol { bucket, .. } => classes
                .equity
                .lists(*bucket),
            Factor::Commodity { bucket, .. } | Factor::CommodityVol { bucket, .. } => classes
                .commodity
                .lists(Bucket::Number(*bucket)),
        }
    }

    /// Whether the parameters admit a row: the file lists its bucket, where it has one that
    /// files list.
    pub fn admits(&self, row: &CrifRow) -> bool
        ensures { result ≡ admits self.now row.now }
    {
        match row {
            CrifRow::Sensitivity { key, .. } => self.admits_factor(&key.factor),
            CrifRow::Notional { .. }
            | CrifRow::FixedAmount(_)
            | CrifRow::NotionalFactor { .. }
            | CrifRow::Multiplier { .. } => true,
        }
    }
}
