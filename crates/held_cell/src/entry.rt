/// One call in a journal: who made it, with what, and what it was answered. The cell stores none
/// of them.
#[derive(Drop)]
pub struct Entry<E, R> {
    /// The number of the caller.
    pub caller: u32,
    /// What it asked.
    pub event: E,
    /// What it was answered.
    pub reply: R,
}
