/// Where a row stands in a batch or a book.
#[derive(Clone, Copy)]
pub struct RowPlace {
    /// Its trade's place there, from 1.
    pub trade: u32,
    /// Its place in the trade, from 1.
    pub row: u32,
}
