/// A side of the margin between the two parties to a netting set.
#[derive(Clone, Copy)]
pub enum MarginSide {
    /// What the house collects from the other party.
    Collect,
    /// What it posts to the other party.
    Post,
}
