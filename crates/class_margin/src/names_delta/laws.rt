//! What the values of buckets are of.
ghost use Rattle.std.specs.Prelude.{◌≡◌, List};
ghost use Rattle.class_rates.specs.SimmKinds.declared.kinds.ProductClass.{
  ProductClass as AnyProduct,
};
ghost use Rattle.class_rates.specs.SimmKinds.declared.row.CrifRow.{CrifRow as Row};
ghost use Rattle.class_rates.specs.SimmRules.Net.{sensitivities, in_product, netted};
ghost use Rattle.class_rates.specs.FactorBook.Factors.{factors_of};
ghost use Rattle.class_rates.specs.MeasuredBucket.Values.{nets_in};

use class_rates::factor_book::factors_are_netted;

/// The nets that the values of a product class's buckets are of are the netted sensitivities of
/// the product class. It does nothing.
pub fn products_are_netted()
    ensures { (held : List Row) (product : AnyProduct)
        → nets_in product (factors_of held) ≡ netted (in_product product (sensitivities held)) }
{
    factors_are_netted();
}
