//! What the tests are made of: trades, and batches as they are read and written.
use crif_writer::crif_reader::read_batch;
use crif_writer::simm_kinds::{
    Batch, CrifRow, Currency, Factor, FactorKey, Listed, Name, ProductClass, TradeRows,
};
use crif_writer::write_batch;
use mh_io::mh_units::{Cents, Text};
use std::process::Abort;

fn name(rt: &(impl Abort + AllocGlobal), text: &str) -> Name {
    Name::read(rt.alloc(), text.as_bytes())
        .ok()
        .expect(rt, "a name")
}

/// The key of a currency.
fn fx_key(rt: &impl Abort, text: &str) -> FactorKey {
    let currency = Currency::read(text.as_bytes()).expect(rt, "a currency");
    FactorKey {
        product: ProductClass::RatesFX,
        factor: Factor::Fx { currency },
    }
}

/// A trade with this many equal rows, of a currency and an amount in cents.
pub fn trade(
    rt: &(impl Abort + AllocGlobal),
    text: &str,
    currency: &str,
    amount: i64,
    count: usize,
) -> TradeRows {
    let mut rows = Listed::new(rt.alloc());
    let amount = Cents(i128::from(amount));
    for _ in 0..count {
        let key = fx_key(rt, currency);
        rows.push(CrifRow::Sensitivity { key, amount })
            .ok()
            .expect(rt, "memory");
    }
    TradeRows {
        trade: name(rt, text),
        rows,
    }
}

/// A batch as it is written.
pub fn written(rt: &(impl Abort + AllocGlobal), batch: &Batch) -> Text {
    write_batch(rt.alloc(), batch).ok().expect(rt, "memory")
}

/// Whether so many records of a file are passed over, and its rows written as this.
pub fn is_rewritten(
    rt: &(impl Abort + AllocGlobal),
    file: &[u8],
    passed_over: u32,
    wanted: &[u8],
) -> bool {
    let read = read_batch(rt.alloc(), file).ok().expect(rt, "a batch");
    let is_same = written(rt, &read.batch).as_slice() == wanted;
    let told = read.passed_over;
    drop(read);
    is_same && told == passed_over
}
