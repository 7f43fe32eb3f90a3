//! Rows whose buckets the parameters don't list.
ghost use Rattle.std.specs.Prelude.{◌≡◌, ◌^◌, ◌<◌, length, position, not};
ghost use Rattle.book_margin.specs.SimmKinds.Batch.{IsBatch};
ghost use Rattle.book_margin.specs.SimmRules.Admits.{admits};
ghost use Rattle.bucket_cache.specs.Live.{unadmitted_row, first_unadmitted};

use crate::place::RowPlace;
use book_margin::simm_kinds::{CrifRow, TradeRows};
use book_margin::simm_params::Params;

/// The first row of a batch that the parameters don't admit. It takes no memory.
pub fn first_unadmitted(params: &Params, trades: &[TradeRows]) -> Option<RowPlace>
    requires { IsBatch trades.now }
    ensures { result ≡ first_unadmitted params.now trades.now }
{
    for (index, trade) in trades.iter().enumerate() {
        if let Some(row) = unadmitted_row(params, trade.rows.as_slice()) {
            return Some(RowPlace {
                trade: index as u32 + 1,
                row,
            });
        }
    }
    None
}

/// The place, from 1, of the first row of a trade that isn't admitted. It takes no memory.
pub fn unadmitted_row(params: &Params, rows: &[CrifRow]) -> Option<u32>
    requires { length rows.now < 2 ^ 31 }
    ensures { result ≡ unadmitted_row params.now rows.now }
{
    let index = unadmitted_index(params, rows)?;
    Some(index as u32 + 1)
}

fn unadmitted_index(params: &Params, rows: &[CrifRow]) -> Option<usize>
    ensures { result ≡ position (λ row. not (admits params.now row)) rows.now }
{
    rows.iter().position(|row| !params.admits(row))
}
