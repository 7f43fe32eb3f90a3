/// Which feeds are made.
#[derive(Clone, Copy)]
pub struct SamplePlan {
    /// How many there are: 1 to 32.
    pub feeds: u32,
    /// What they are drawn from.
    pub seed: u32,
}
