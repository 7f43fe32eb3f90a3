//! The nets of a book, its factors, its add-ons and its range.
ghost use Rattle.std.specs.Prelude.{◌≡◌, List, map};
ghost use Rattle.std.specs.List.{list_all};
ghost use Rattle.factor_book.specs.SimmKinds.declared.kinds.ProductClass.{ProductClass};
ghost use Rattle.factor_book.specs.SimmKinds.declared.kinds.RiskClass.{RiskClass};
ghost use Rattle.factor_book.specs.SimmKinds.declared.key.FactorKey.{FactorKey};
ghost use Rattle.factor_book.specs.SimmKinds.declared.row.CrifRow.{CrifRow};
ghost use Rattle.factor_book.specs.SimmKinds.Batch.{is_in_range};
ghost use Rattle.factor_book.specs.SimmRules.Params.{Params};
ghost use Rattle.factor_book.specs.SimmRules.Net.{Sensitivity, sensitivities, in_product, netted};
ghost use Rattle.factor_book.specs.SimmRules.AddOns.{fixed_amounts, notional_add_on, multiplier_of};
ghost use Rattle.factor_book.specs.SimmRules.Admits.{admits};
ghost use Rattle.factor_book.specs.SimmRules.Gross.{delta_size, vega_size};
ghost use Rattle.factor_book.specs.SimmRules.Range.{range};
ghost use Rattle.factor_book.specs.declared.holding.Holding.{Holding};
ghost use Rattle.factor_book.specs.Factors.{factors_of, net_of};
ghost use Rattle.negated_book.specs.Negated.{negated, negated_nets, negated_factors};
ghost use Rattle.negated_book.specs.Turned.{IsEven};

/// The sensitivities of a negated book are the negated ones of the book, and so are their nets, in
/// each product class too, of which the margins of the risk classes are. It does nothing.
pub fn nets_are_negated()
    ensures rows { (rows : List CrifRow)
        → sensitivities (negated rows) ≡ negated_nets (sensitivities rows) }
    ensures nets { (ss : List Sensitivity) → netted (negated_nets ss) ≡ negated_nets (netted ss) }
    ensures product { (product : ProductClass) (ss : List Sensitivity)
        → in_product product (negated_nets ss) ≡ negated_nets (in_product product ss) }
    ensures products { (rows : List CrifRow) (product : ProductClass)
        → netted (in_product product (sensitivities (negated rows)))
        ≡ negated_nets (netted (in_product product (sensitivities rows))) }
{}

/// The factors of a negated book are those of the book with their nets negated. It does nothing.
pub fn factors_are_negated()
    ensures factors { (rows : List CrifRow)
        → factors_of (negated rows) ≡ negated_factors (factors_of rows) }
    ensures nets { (factors : List (FactorKey × Holding))
        → map net_of (negated_factors factors) ≡ negated_nets (map net_of factors) }
{}

/// What a negated book has beside its sensitivities is what the book has. It does nothing.
pub fn add_ons_stay()
    ensures fixed { (rows : List CrifRow) → fixed_amounts (negated rows) ≡ fixed_amounts rows }
    ensures notional { (rows : List CrifRow)
        → notional_add_on (negated rows) ≡ notional_add_on rows }
    ensures multiplier { (rows : List CrifRow) (product : ProductClass)
        → multiplier_of (negated rows) product ≡ multiplier_of rows product }
{}

/// A negated book is in range where the book is, and else out of it by the same quantity; the
/// weighted sizes of a class are the same. Its rows are admitted, and their amounts are those that
/// a batch can have, where those of the book are. It does nothing.
pub fn range_stays()
    ensures range { (p : Params) (rows : List CrifRow) → range p (negated rows) ≡ range p rows }
    ensures delta { (p : Params) (class : RiskClass) → IsEven (λ ss. delta_size p ss class) }
    ensures vega { (p : Params) (class : RiskClass) → IsEven (λ ss. vega_size p ss class) }
    ensures admitted { (p : Params) (rows : List CrifRow)
        → list_all (admits p) (negated rows) ≡ list_all (admits p) rows }
    ensures amounts { (rows : List CrifRow)
        → list_all is_in_range (negated rows) ≡ list_all is_in_range rows }
{}
