//! The draws of a feed.
ghost use Rattle.std.specs.Prelude.{◌≡◌, ◌<◌, ◌^◌};
ghost use Rattle.house_sample.specs.Draws.{first_state, next_state, drawn};

/// A linear congruential generator of 64 bits, of which the upper 31 are drawn. Contracts see
/// its state.
#[derive(Clone, Copy)]
pub(crate) struct Draws {
    pub state: u64,
}

/// What a state is multiplied by, and what is added to it.
const FACTOR: u128 = 6_364_136_223_846_793_005;

const STEP: u128 = 1_442_695_040_888_963_407;

impl Draws {
    /// The draws of the feed of this number.
    pub(crate) fn new(seed: u32, feed: u32) -> Draws
        ensures { result.state ≡ first_state seed feed }
    {
        Draws {
            state: u64::from(seed) * 64 + u64::from(feed),
        }
    }

    /// Draws the next number, of 31 bits.
    pub(crate) fn next(&mut self) -> u32
        ensures state { self.new.state ≡ next_state self.old.state }
        ensures value { result ≡ drawn self.new.state }
        ensures small { result < 2 ^ 31 }
    {
        let next = u128::from(self.state) * FACTOR + STEP;
        self.state = (next % (1 << 64)) as u64;
        (self.state >> 33) as u32
    }
}
