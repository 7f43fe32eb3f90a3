//! The delta and vega margins of interest rates over the currencies of a product class.
//! (ISDA SIMM methodology, interest rate risk: delta margin, vega margin.)

mod across;

pub use across::combine;
