/// What the correlation of two different factors is made of.
#[derive(Clone, Copy)]
pub enum Scaling {
    /// The table's, times the ratio of the lesser of both concentration factors over the greater:
    /// delta and vega outside interest rates.
    Concentrated,
    /// The table's as it is: interest rates, and base correlation.
    Plain,
    /// The table's squared: curvature.
    Squared,
}
