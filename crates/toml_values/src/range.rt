ghost use Rattle.std.specs.Prelude.{◌≡◌, IsTrue};
ghost use Rattle.toml_values.specs.Ranges.{is_within, IsWithin};

/// The numbers from `least` to `most`, both included.
#[derive(Clone, Copy)]
pub struct Range {
    /// The least of them.
    pub least: i64,
    /// The greatest of them.
    pub most: i64,
}

/// An amount in whole dollars, as a file has it: a dollar to ten thousand billion dollars.
pub(crate) const DOLLARS: Range = Range {
    least: 1,
    most: 10_000_000_000_000,
};

impl Range {
    /// Whether the number is one of the range.
    pub fn contains(self, number: i128) -> bool
        ensures value { result ≡ is_within self number }
        ensures within { IsTrue result → IsWithin self number }
    {
        i128::from(self.least) <= number && number <= i128::from(self.most)
    }
}
