//! The first quantity of a book that is above its limit.
ghost use Rattle.std.specs.Prelude.{◌≡◌, List, length};
ghost use Rattle.simm_params.specs.SimmKinds.declared.row.CrifRow.{CrifRow as Row};
ghost use Rattle.simm_params.specs.SimmRules.Range.{range};
ghost use Rattle.factor_book.specs.Factors.{factors_of};
ghost use Rattle.book_range.specs.Faults.{AreOf, keys_fault};

use crate::faults::{bucket_fault, count_fault, gross_fault};
use crate::gross::gross_sizes;
use factor_book::Factors;
use simm_params::Params;
use simm_params::simm_rules::RangeFault;

/// The first quantity that is above its limit, of a book of that many rows that nets to these
/// factors; `None` of a book in range. It takes no memory.
pub fn range_fault(params: &Params, factors: &Factors, rows: usize) -> Option<RangeFault>
    requires { AreOf rows factors.now }
    ensures { (held : List Row) → factors.now ≡ factors_of held → rows ≡ length held
        → result ≡ range params.now held }
{
    params.facts();
    let too_many = count_fault(rows, factors.len());
    if too_many.is_some() {
        return too_many;
    }
    let crowded = keys_fault(factors);
    if crowded.is_some() {
        return crowded;
    }
    gross_fault(&gross_sizes(params, factors))
}

// The first bucket that has too many keys.
fn keys_fault(factors: &Factors) -> Option<RangeFault>
    ensures { result ≡ keys_fault factors.now }
{
    for lent in factors.places() {
        let fault = bucket_fault(lent.len());
        if fault.is_some() {
            return fault;
        }
    }
    None
}
