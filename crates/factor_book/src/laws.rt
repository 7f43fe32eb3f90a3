//! What the factors of rows depend on.
ghost use Rattle.std.specs.Prelude.{◌≡◌, ◌++◌, Bool, true, List, map, length};
ghost use Rattle.std.specs.Prelude.{ℤ, pos, ◌*ℤ◌, unsigned_abs, IsPermutation};
ghost use Rattle.std.specs.List.{filter, list_all, AllByRecursion};
ghost use Rattle.simm_rules.specs.SimmKinds.declared.key.FactorKey.{FactorKey};
ghost use Rattle.simm_rules.specs.SimmKinds.declared.row.CrifRow.{CrifRow as Row};
ghost use Rattle.simm_rules.specs.SimmKinds.Batch.{is_in_range};
ghost use Rattle.simm_rules.specs.Sums.{total_by};
ghost use Rattle.simm_rules.specs.Net.{sensitivities, net, netted};
ghost use Rattle.factor_book.specs.Factors.{factors_in, factors_of, net_of, size_of, count_of};
ghost use Rattle.factor_book.specs.Factors.{IsWithin};

/// Rows have their factors whatever their order: rows with the same net, size and number at each
/// key have the same factors, a part of the rows may stand elsewhere among them, and so may all.
pub fn order_is_free()
    ensures alike { (xs ys : List Row)
        → ((k : FactorKey) → net (sensitivities xs) k ≡ net (sensitivities ys) k)
        → ((k : FactorKey) → size_of (sensitivities xs) k ≡ size_of (sensitivities ys) k)
        → ((k : FactorKey) → count_of (sensitivities xs) k ≡ count_of (sensitivities ys) k)
        → factors_of xs ≡ factors_of ys }
    ensures moved { (before part after : List Row)
        → factors_of (before ++ part ++ after) ≡ factors_of (before ++ after ++ part) }
    ensures permuted { (xs ys : List Row) → IsPermutation xs ys → factors_of xs ≡ factors_of ys }
{}

/// What the factors of rows say of the rows: their nets are the netted sensitivities; those whose
/// keys pass a test are the factors of the sensitivities whose keys pass it; sizes, each weighted
/// by its key, add up to those of the amounts; and no net or size is greater than that many rows
/// of a batch come to.
pub fn factors_are_netted()
    ensures nets { (held : List Row) → map net_of (factors_of held) ≡ netted (sensitivities held) }
    ensures parts { (held : List Row) (test : FactorKey → Bool)
        → filter (λ f. test f.0) (factors_of held)
        ≡ factors_in (filter (λ s. test s.key) (sensitivities held)) }
    ensures sizes { (held : List Row) (weight : FactorKey → ℤ)
        → total_by (λ f. (f.1).size *ℤ weight f.0) (factors_of held)
        ≡ total_by (λ s. pos (unsigned_abs s.amount) *ℤ weight s.key) (sensitivities held) }
    ensures bounds { (held : List Row) → list_all is_in_range held ≡ true
        → AllByRecursion (λ f. IsWithin (length held) f.1) (factors_of held) }
{}
