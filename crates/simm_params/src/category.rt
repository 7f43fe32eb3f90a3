/// How volatile a currency is: whether the file lists it as one of high volatility.
#[derive(Clone, Copy, PartialEq, Eq)]
pub enum VolatilityCategory {
    /// The file doesn't list it.
    Regular,
    /// The file lists it.
    High,
}

/// How volatile the curves of a currency are: which of the file's two lists has it.
#[derive(Clone, Copy)]
pub enum CurveCategory {
    /// The file lists it as one of low volatility.
    Low,
    /// The file lists it as one of regular volatility.
    Regular,
    /// Neither list has it.
    High,
}

/// Which concentration threshold a currency has: that of the file's first list, of its second, or
/// of all others.
#[derive(Clone, Copy, PartialEq, Eq)]
pub enum ConcentrationCategory {
    /// The file's first list has it.
    First,
    /// The file's second list has it.
    Second,
    /// Neither list has it.
    Third,
}
