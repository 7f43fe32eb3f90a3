//! What the sums of rows depend on, and which parameters stand for all rows of a book.
ghost use Rattle.std.specs.Prelude.{◌≡◌, ◌++◌, List, ℕ, true, not};
ghost use Rattle.std.specs.List.{list_all};
ghost use Rattle.simm_params.specs.SimmKinds.declared.row.CrifRow.{CrifRow as Row};
ghost use Rattle.simm_params.specs.SimmKinds.Batch.{is_param};
ghost use Rattle.simm_params.specs.SimmRules.AddOns.{fixed_amounts, notional_of};
ghost use Rattle.class_combine.specs.Notionals.{size_at};
ghost use Rattle.class_combine.specs.Sums.{count_of, sums_of, StandFor};

/// Rows have their sums whatever their order: rows with the same fixed amounts, and with the same
/// size and number of notionals of each qualifier, have the same sums, and a part of the rows may
/// stand elsewhere among them.
pub fn sums_ignore_order()
    ensures alike { (xs ys : List Row) → fixed_amounts xs ≡ fixed_amounts ys
        → ((name : List ℕ) → notional_of xs name ≡ notional_of ys name)
        → ((name : List ℕ) → count_of xs name ≡ count_of ys name) → sums_of xs ≡ sums_of ys }
    ensures moved { (before part after : List Row)
        → sums_of (before ++ part ++ after) ≡ sums_of (before ++ after ++ part) }
{}

/// The rows of one trade stand for a book if no other row is a parameter.
pub fn parameters_stand_for_book()
    ensures { (before parameters after : List Row) → list_all (λ r. not (is_param r)) before ≡ true
        → list_all (λ r. not (is_param r)) after ≡ true
        → StandFor (sums_of (before ++ parameters ++ after)) parameters
        (before ++ parameters ++ after) }
{}

/// The size that the sums of rows have of a qualifier is that of its notionals among the rows. It
/// does nothing.
pub fn sizes_are_of_rows()
    ensures { (held : List Row) (name : List ℕ)
        → size_at (sums_of held).notionals name ≡ notional_of held name }
{}
