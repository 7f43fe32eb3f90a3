//! The gross sizes of a book, side by side: what the sizes of its amounts weigh.
ghost use Rattle.std.specs.Prelude.{◌≡◌, ◌+◌, ◌++◌, List, [], length, true};
ghost use Rattle.std.specs.Prelude.{if◌then◌else◌, FitsSigned, ◌+ℤ◌};
ghost use Rattle.std.specs.Int.{w128};
ghost use Rattle.std.specs.List.{list_all};
ghost use Rattle.simm_params.specs.SimmKinds.declared.kinds.ProductClass.{ProductClass as Product};
ghost use Rattle.simm_params.specs.SimmKinds.declared.kinds.RiskClass.{RiskClass as Class};
ghost use Rattle.simm_params.specs.SimmKinds.declared.row.CrifRow.{CrifRow as Row};
ghost use Rattle.simm_params.specs.SimmKinds.Batch.{is_in_range};
ghost use Rattle.simm_params.specs.SimmRules.Params.{Params as Rules};
ghost use Rattle.simm_params.specs.SimmRules.Tables.{part_at};
ghost use Rattle.factor_book.specs.declared.place.BookSide.{BookSide as Side};
ghost use Rattle.factor_book.specs.Factors.{factors_of};
ghost use Rattle.factor_book.specs.Place.{stand_class};
ghost use Rattle.factor_book.specs.Places.{is_on};
ghost use Rattle.book_range.specs.Sizes.{place_part, size_at, sizes_in};
ghost use Rattle.book_range.specs.Sizes.{AreSized, HasSizeRoom, IsPut};

use crate::row_size::row_size;
use factor_book::{BookSide, Place};
use simm_params::Params;
use simm_params::simm_kinds::{CrifRow, ProductClass, RiskClass};
use simm_params::simm_rules::{ByClass, ByProduct};

/// The gross sizes of a book: of each side of each risk class in each product class, the sum of
/// the sizes of its amounts, each times its weight, in ten-thousandths of a cent. They do not net,
/// and are kept as rows come and go at the cost of a look-up a row. They take no memory.
#[derive(Clone, Copy)]
pub struct GrossSizes {
    /// Of delta, with base correlation.
    pub delta: ByProduct<ByClass<i128>>,
    /// Of volatilities.
    pub volatility: ByProduct<ByClass<i128>>,
}

impl GrossSizes {
    const NO_CLASSES: ByClass<i128> = ByClass {
        ir: 0,
        credit_q: 0,
        credit_nonq: 0,
        equity: 0,
        commodity: 0,
        fx: 0,
    };

    const NO_PRODUCTS: ByProduct<ByClass<i128>> = ByProduct {
        rates_fx: GrossSizes::NO_CLASSES,
        credit: GrossSizes::NO_CLASSES,
        equity: GrossSizes::NO_CLASSES,
        commodity: GrossSizes::NO_CLASSES,
    };

    const NONE: GrossSizes = GrossSizes {
        delta: GrossSizes::NO_PRODUCTS,
        volatility: GrossSizes::NO_PRODUCTS,
    };

    /// The sizes of no rows.
    pub fn new() -> GrossSizes
        ensures { (p : Rules) → result ≡ sizes_in p [] }
    {
        GrossSizes::NONE
    }

    /// The size of a side, in ten-thousandths of a cent.
    pub fn size(&self, product: ProductClass, class: RiskClass, side: BookSide) -> i128
        ensures { result ≡ size_at self.now product class side }
    {
        match side {
            BookSide::Delta => *self.delta.part(product, class),
            BookSide::Volatility => *self.volatility.part(product, class),
        }
    }

    /// Adds rows, whose amounts are those that a batch can have; fewer than 2^32 rows are
    /// held afterwards.
    pub fn add_rows(&mut self, params: &Params, rows: &[CrifRow])
        requires room { HasSizeRoom params.now self.old (length rows.now) }
        requires amounts { list_all is_in_range rows.now ≡ true }
        ensures { (held : List Row) → self.old ≡ sizes_in params.now (factors_of held)
            → self.new ≡ sizes_in params.now (factors_of (held ++ rows.now)) }
    {
        params.facts();
        params.rate_facts();
        params.credit_facts();
        params.priced_facts();
        for row in rows {
            if let Some(weighed) = row_size(params, row) {
                self.grow(&weighed.place, weighed.size);
            }
        }
    }

    /// Takes rows that are held, of fewer than 2^32.
    pub fn take_rows(&mut self, params: &Params, rows: &[CrifRow])
        requires { AreSized params.now rows.now self.old }
        ensures { (before after : List Row)
            → self.old ≡ sizes_in params.now (factors_of (before ++ rows.now ++ after))
            → self.new ≡ sizes_in params.now (factors_of (before ++ after)) }
    {
        params.facts();
        params.rate_facts();
        params.credit_facts();
        params.priced_facts();
        for row in rows {
            if let Some(weighed) = row_size(params, row) {
                self.grow(&weighed.place, -weighed.size);
            }
        }
    }

    // The size of the side of a place.
    fn grow(&mut self, place: &Place, by: i128)
        requires { FitsSigned w128 (place_part self.old place.now +ℤ by) }
        ensures { (product : Product) (class : Class) (side : Side)
            → size_at self.new product class side
            ≡ (if is_on product class side place.now then size_at self.old product class side +ℤ by
            else size_at self.old product class side) }
    {
        match place.stand.side() {
            BookSide::Delta => grow_part(&mut self.delta, place, by),
            BookSide::Volatility => grow_part(&mut self.volatility, place, by),
        }
    }
}

// The size of the class of a place, among those of a side.
fn grow_part(sizes: &mut ByProduct<ByClass<i128>>, place: &Place, by: i128)
    requires { FitsSigned w128
        (part_at sizes.old place.now.product (stand_class place.now.stand) +ℤ by) }
    ensures { IsPut sizes.old sizes.new place.now
        (part_at sizes.old place.now.product (stand_class place.now.stand) +ℤ by) }
{
    let class = place.stand.class();
    let size = *sizes.part(place.product, class) + by;
    sizes.set_part(place.product, class, size);
}
