/// What a run prints.
#[derive(Clone, Copy)]
pub enum Account {
    /// The journal of each set, and then what became of each feed.
    Journals,
    /// The audit text of each set, by which another party works out each reply anew. Of the feeds
    /// nothing is printed.
    Audits,
}
