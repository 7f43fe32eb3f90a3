//! What a book in range keeps, and what the range of a book depends on.
ghost use Rattle.std.specs.Prelude.{◌≡◌, ◌++◌, List, None, Bool, IsPermutation};
ghost use Rattle.std.specs.List.{filter};
ghost use Rattle.simm_params.specs.SimmKinds.declared.row.CrifRow.{CrifRow as Row};
ghost use Rattle.simm_params.specs.SimmKinds.declared.row.TradeRows.{TradeRows as Trade};
ghost use Rattle.simm_params.specs.SimmKinds.Batch.{rows_of};
ghost use Rattle.simm_params.specs.SimmRules.Range.{range};
ghost use Rattle.factor_book.specs.Factors.{factors_of};
ghost use Rattle.book_range.specs.After.{AreFewElsewhere};
ghost use Rattle.book_range.specs.Bounded.{IsBounded};

use simm_params::Params;

/// No quantity of a book in range is above its limit. It does nothing.
pub fn range_bounds(params: &Params)
    ensures { (held : List Row) → range params.now held ≡ None → IsBounded params.now held }
{
    let _params = params;
}

/// The range of rows does not depend on their order. It does nothing.
pub fn range_order_is_free(params: &Params)
    ensures { (xs ys : List Row) → IsPermutation xs ys → range params.now xs ≡ range params.now ys }
{
    params.facts();
}

/// Of a book in range of which some rows went and to which others came, only buckets in which one
/// of these lies can have more keys than a bucket may have. It does nothing.
pub fn elsewhere_few(params: &Params)
    ensures { (kept left came : List Row) → range params.now (kept ++ left) ≡ None
        → AreFewElsewhere came (factors_of (kept ++ came)) }
{
    let _params = params;
}

/// Some trades of a book in range are in range. It does nothing.
pub fn fewer_are_in_range(params: &Params)
    ensures { (test : Trade → Bool) (trades : List Trade) → range params.now (rows_of trades) ≡ None
        → range params.now (rows_of (filter test trades)) ≡ None }
{
    params.facts();
    params.rate_facts();
    params.credit_facts();
    params.priced_facts();
}
