use toml_values::Range;

/// An amount in cents: at most ten thousand billion dollars.
pub const AMOUNT: Range = Range {
    least: 0,
    most: 1_000_000_000_000_000,
};

/// A unit of rounding in cents: a cent to ten billion dollars.
pub const UNIT: Range = Range {
    least: 1,
    most: 1_000_000_000_000,
};

/// A haircut in ten-thousandths: 0 to 1.
pub const SHARE: Range = Range {
    least: 0,
    most: 10_000,
};
