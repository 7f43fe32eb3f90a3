ghost use Rattle.std.specs.Prelude.{◌≡◌};
ghost use Rattle.weighted_bucket.specs.declared.scaling.Scaling.{Scaling};
ghost use Rattle.weighted_bucket.specs.declared.scaling.Scaling.TheVariants as ways;

use crate::scaling::Scaling;

/// A scaling as a type: settled once for a bucket, so that no pair of factors asks for it.
pub trait Way: Copy + Drop {
    ghost scaling: { Scaling };

    /// The scaling.
    fn scaling(self) -> Scaling
        ensures { result ≡ scaling };
}

/// That of [`Scaling::Concentrated`].
#[derive(Clone, Copy)]
pub struct Concentrated;

impl Way for Concentrated {
    ghost scaling = { ways.Concentrated };

    fn scaling(self) -> Scaling {
        Scaling::Concentrated
    }
}

/// That of [`Scaling::Plain`].
#[derive(Clone, Copy)]
pub struct Plain;

impl Way for Plain {
    ghost scaling = { ways.Plain };

    fn scaling(self) -> Scaling {
        Scaling::Plain
    }
}

/// That of [`Scaling::Squared`].
#[derive(Clone, Copy)]
pub struct Squared;

impl Way for Squared {
    ghost scaling = { ways.Squared };

    fn scaling(self) -> Scaling {
        Scaling::Squared
    }
}
