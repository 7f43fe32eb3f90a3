use book_margin::simm_kinds::CrifRow;

/// The rows of one trade, lent: a list of these is the rows of some trades in order, and no row of
/// them is copied.
#[derive(Clone, Copy)]
pub struct LentRows<'a> {
    /// The rows.
    pub rows: &'a [CrifRow],
}
