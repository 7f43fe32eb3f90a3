//! What the tests are made of: names, rows, batches, parameters, terms.
use crif_reader::mh_units::Bytes;
use crif_reader::read_batch;
use crif_reader::simm_kinds::{Batch, Name};
use params_file::ParamText;
use params_file::simm_params::Params;
use set_core::csa_terms::{BothTerms, read_terms};
use std::process::Abort;

/// Lines of parameters, and whether they list the bucket of equities in which rows lie.
pub struct Tables {
    pub lines: &'static str,
    pub lists_equities: bool,
}

/// Weights, volatility ratios and the bucket of equities, each of which differs. The first are
/// those of `params`.
pub static TABLES: [Tables; 3] = [
    Tables {
        lines: r#"fx.weight = ["7.4", "10"]
ir.inflation_weight = "50"
ir.vrw = "0.2"
credit_q.base_weight = "10"
equity.hvr = "0.6"
equity.bucket = [
  { id = "1", weight = "10", threshold = 1000000, vega_threshold = 10000000, rho = "0.4", sigma = "50", vrw = "0.5", curvature = true },
]
"#,
        lists_equities: true,
    },
    Tables {
        lines: r#"fx.weight = ["8", "9.5"]
ir.inflation_weight = "61"
ir.vrw = "0.3"
credit_q.base_weight = "12"
equity.hvr = "0.7"
equity.bucket = [
  { id = "1", weight = "11", threshold = 1000000, vega_threshold = 10000000, rho = "0.3", sigma = "40", vrw = "0.6", curvature = true },
]
"#,
        lists_equities: true,
    },
    Tables {
        lines: r#"fx.weight = ["7.5", "11"]
ir.inflation_weight = "45"
ir.vrw = "0.1"
credit_q.base_weight = "9"
equity.hvr = "0.5"
equity.bucket = [
  { id = "2", weight = "10", threshold = 1000000, vega_threshold = 10000000, rho = "0.4", sigma = "50", vrw = "0.5", curvature = true },
]
"#,
        lists_equities: false,
    },
];

/// The other lines of parameters. The correlation of two regular currencies is 0.5, of a regular
/// one and one of high volatility 0.25, of two of high volatility -1.
const PARAMS: &str = r#"calculation_currency = "USD"
lambda_base = "5.634897"
psi = [
  ["1", "0", "0", "0", "0", "0"],
  ["0", "1", "0", "0", "0", "0"],
  ["0", "0", "1", "0", "0", "0"],
  ["0", "0", "0", "1", "0", "0"],
  ["0", "0", "0", "0", "1", "0"],
  ["0", "0", "0", "0", "0", "1"],
]
ir.low = ["JPY"]
ir.regular = ["USD", "EUR", "GBP"]
ir.weight.regular = ["50", "50", "50", "50", "50", "50", "50", "50", "50", "50", "50", "50"]
ir.weight.low = ["15", "15", "15", "15", "15", "15", "15", "15", "15", "15", "15", "15"]
ir.weight.high = ["100", "100", "100", "100", "100", "100", "100", "100", "100", "100", "100", "100"]
ir.basis_weight = "20"
ir.rho = [
  ["1", "0", "0", "0", "0", "0", "0", "0", "0", "0", "0", "0"],
  ["0", "1", "0", "0", "0", "0", "0", "0", "0", "0", "0", "0"],
  ["0", "0", "1", "0", "0", "0", "0", "0", "0", "0", "0", "0"],
  ["0", "0", "0", "1", "0", "0", "0", "0", "0", "0", "0", "0"],
  ["0", "0", "0", "0", "1", "0", "0", "0", "0", "0", "0", "0"],
  ["0", "0", "0", "0", "0", "1", "0", "0", "0", "0", "0", "0"],
  ["0", "0", "0", "0", "0", "0", "1", "0", "0", "0", "0", "0"],
  ["0", "0", "0", "0", "0", "0", "0", "1", "0", "0", "0", "0"],
  ["0", "0", "0", "0", "0", "0", "0", "0", "1", "0", "0", "0"],
  ["0", "0", "0", "0", "0", "0", "0", "0", "0", "1", "0", "0"],
  ["0", "0", "0", "0", "0", "0", "0", "0", "0", "0", "1", "0"],
  ["0", "0", "0", "0", "0", "0", "0", "0", "0", "0", "0", "1"],
]
ir.phi = "0.98"
ir.inflation_rho = "0.4"
ir.basis_rho = "0.01"
ir.gamma = "0.5"
ir.hvr = "0.5"
ir.other.threshold = 910000
ir.other.vega_threshold = 10000000
fx.high = ["BRL", "TRY"]
fx.rho = ["0.5", "0.25", "-1"]
fx.first = ["EUR"]
fx.second = ["GBP", "BRL"]
fx.threshold = [100000000, 2000000, 135136]
fx.vega_threshold = [
  [10000000, 10000000, 10000000],
  [10000000, 10000000, 10000000],
  [10000000, 10000000, 10000000],
]
fx.sigma = ["16.2", "16.2", "16.2"]
fx.vrw = "0.4"
fx.hvr = "0.6"
fx.vol_rho = "0.5"
credit_q.bucket = [
  { id = "1", weight = "10", threshold = 1000000, vega_threshold = 10000000, rho = "0.4", same = "0.5", vrw = "0.5", curvature = true },
]
credit_q.gamma = [["1"]]
credit_nq.bucket = [
  { id = "1", weight = "10", threshold = 1000000, vega_threshold = 10000000, rho = "0.4", same = "0.5", vrw = "0.5", curvature = true },
]
credit_nq.gamma = [["1"]]
equity.gamma = [["1"]]
commodity.bucket = [
  { id = "1", weight = "10", threshold = 1000000, vega_threshold = 10000000, rho = "0.4", sigma = "50", vrw = "0.5", curvature = true },
]
commodity.hvr = "0.6"
commodity.gamma = [["1"]]
credit_q.base_rho = "0.3"
"#;

const SET: &str = "[[set]]\nname = \"ALPHA\"\nnotification = \"13:00\"\nholidays = []\n";

/// Amounts and haircuts by which a set collects.
pub const COLLECTED: &str =
    "threshold = \"5000\"\nmta_delivery = \"500\"\nmta_return = \"400\"\nrounding = \"100\"\n\
fx_haircut = \"0.08\"\nhaircuts = { CASH = \"0\" }\n";

/// Others, by which it posts.
pub const POSTED: &str =
    "threshold = \"1000\"\nmta_delivery = \"100\"\nmta_return = \"200\"\nrounding = \"10\"\n\
fx_haircut = \"0.5\"\nhaircuts = { BOND = \"0.25\", CASH = \"0.1\" }\n";

const HEADER: &str =
    "TradeID,ProductClass,RiskType,Qualifier,Bucket,Label1,Label2,Amount,AmountCurrency,AmountUSD";

pub fn name(rt: &(impl Abort + AllocGlobal), text: &str) -> Name {
    Name::read(rt.alloc(), text.as_bytes())
        .ok()
        .expect(rt, "a name")
}

// Of a text that a proof doesn't know, it has little to say.
fn read(rt: &(impl Abort + AllocGlobal), file: &str) -> Batch {
    read_batch(rt.alloc(), file.as_bytes())
        .ok()
        .expect(rt, "a batch")
        .batch
}

/// The batch of these rows, each a line of its trade, product class, risk type, qualifier, bucket,
/// labels and amounts.
pub fn rows(rt: &(impl Abort + AllocGlobal), lines: &str) -> Batch {
    let text = format!(in rt.alloc(); "{HEADER}\n{lines}");
    let text = text.ok().expect(rt, "memory");
    read(rt, text.as_str())
}

/// The batch of one trade with one row, of a currency and an amount in dollars.
pub fn batch(rt: &(impl Abort + AllocGlobal), trade: &str, currency: &str, amount: &str) -> Batch {
    let row = format!(in rt.alloc(); "{trade},FX,Risk_FX,{currency},,,,,,{amount}\n");
    let row = row.ok().expect(rt, "memory");
    rows(rt, row.as_str())
}

/// The parameters with the lines of these tables, and their text.
fn text_of(rt: &(impl Abort + AllocGlobal), tables: &Tables) -> ParamText {
    let lines = tables.lines;
    let text = format!(in rt.alloc(); "{PARAMS}{lines}");
    let text = text.ok().expect(rt, "memory");
    let bytes = Bytes::from_slice(rt.alloc(), text.as_bytes());
    let bytes = bytes.ok().expect(rt, "memory");
    ParamText::read(rt.alloc(), bytes)
        .ok()
        .expect(rt, "parameters")
}

/// Each of the tables, read once.
pub fn read_tables(rt: &(impl Abort + AllocGlobal)) -> Vec<ParamText> {
    let mut texts = Vec::new(rt.alloc());
    for tables in &TABLES {
        texts.push(text_of(rt, tables)).ok().expect(rt, "memory");
    }
    texts
}

pub fn params(rt: &(impl Abort + AllocGlobal)) -> Params {
    let text = text_of(rt, TABLES.first().expect(rt, "tables"));
    text.params().share().ok().expect(rt, "memory")
}

/// The terms of a set with these lines.
pub fn terms_of(rt: &(impl Abort + AllocGlobal), lines: &str) -> BothTerms {
    let text = format!(in rt.alloc(); "{SET}{lines}");
    let text = text.ok().expect(rt, "memory");
    let terms = read_terms(rt.alloc(), text.as_bytes())
        .ok()
        .expect(rt, "terms");
    let set = terms.sets().first().expect(rt, "a set");
    set.copy(rt.alloc()).ok().expect(rt, "memory")
}

/// The terms of a set that posts by others than it collects by.
pub fn both_terms(rt: &(impl Abort + AllocGlobal)) -> BothTerms {
    let lines = format!(in rt.alloc(); "{COLLECTED}[set.post]\n{POSTED}");
    let lines = lines.ok().expect(rt, "memory");
    terms_of(rt, lines.as_str())
}
