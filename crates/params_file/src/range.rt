use simm_params::toml_values::Range;

/// A risk weight, in ten-thousandths: 0.0001 to 10,000.
pub const WEIGHT: Range = Range {
    least: 1,
    most: 100_000_000,
};

/// A correlation, in ten-thousandths: -1 to 1.
pub const CORRELATION: Range = Range {
    least: -10_000,
    most: 10_000,
};

/// A volatility, in ten-thousandths: 0 to 1,000.
pub const SIGMA: Range = Range {
    least: 0,
    most: 10_000_000,
};

/// A vega risk weight, in ten-thousandths: 0 to 2.
pub const VEGA_WEIGHT: Range = Range {
    least: 0,
    most: 20_000,
};

/// A historical volatility ratio of another class than interest rates, in ten-thousandths: 0
/// to 1.2.
pub const HVR: Range = Range {
    least: 0,
    most: 12_000,
};

/// A historical volatility ratio of interest rates, in ten-thousandths: 0.2 to 2.
pub const IR_HVR: Range = Range {
    least: 2_000,
    most: 20_000,
};

/// The base of the curvature scale, in millionths: 0 to 10.
pub const LAMBDA_BASE: Range = Range {
    least: 0,
    most: 10_000_000,
};
