//! The current trades under other parameters: the first row that these don't admit, and the gross
//! sizes of all rows. Neither takes memory.
ghost use Rattle.std.specs.Prelude.{◌≡◌};
ghost use Rattle.book_margin.specs.SimmKinds.Batch.{rows_of};
ghost use Rattle.book_margin.specs.SimmRules.Params.{Params as Rules};
ghost use Rattle.book_margin.specs.BookRange.Sizes.{sizes_in};
ghost use Rattle.book_margin.specs.FactorBook.Factors.{factors_of};
ghost use Rattle.bucket_cache.specs.Live.{IsLive, first_unadmitted};
ghost use Rattle.bucket_cache.specs.Entries.{trades_of};

use crate::admitting::unadmitted_row;
use crate::held_rows::HeldRows;
use crate::place::RowPlace;
use book_margin::book_range::GrossSizes;
use book_margin::simm_kinds::Name;
use book_margin::simm_params::Params;
use indexmap::IndexMap;

/// The first row of the current trades, in the order of the book, that the parameters don't admit.
pub fn first_unadmitted_now(params: &Params, current: &IndexMap<Name, HeldRows>) -> Option<RowPlace>
    requires { (p : Rules) × IsLive p (trades_of current.now.entries) }
    ensures { result ≡ first_unadmitted params.now (trades_of current.now.entries) }
{
    let mut trade = 0;
    for rows in current.values() {
        trade += 1;
        if let Some(row) = unadmitted_row(params, rows.as_slice()) {
            return Some(RowPlace { trade, row });
        }
    }
    None
}

/// The gross sizes of the rows of the current trades by the parameters.
pub fn sizes_now(params: &Params, current: &IndexMap<Name, HeldRows>) -> GrossSizes
    requires { (p : Rules) × IsLive p (trades_of current.now.entries) }
    ensures { result ≡ sizes_in params.now (factors_of (rows_of (trades_of current.now.entries))) }
{
    let mut sizes = GrossSizes::new();
    for rows in current.values() {
        sizes.add_rows(params, rows.as_slice());
    }
    sizes
}
