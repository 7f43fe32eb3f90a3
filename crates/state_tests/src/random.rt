//! Numbers that look random, the same in each run.
ghost use Rattle.std.specs.Prelude.{◌<◌};

use std::process::Abort;

#[derive(Clone, Copy)]
pub struct Random {
    state: u64,
}

impl Random {
    pub fn new() -> Random {
        Random { state: 1 }
    }

    /// The next one below a bound.
    pub fn below(&mut self, bound: u32) -> u32
        requires { 0 < bound }
        ensures { result < bound }
    {
        self.state = self
            .state
            .wrapping_mul(6_364_136_223_846_793_005)
            .wrapping_add(1_442_695_040_888_963_407);
        ((self.state >> 32) % u64::from(bound)) as u32
    }

    /// One of some items.
    pub fn one_of<T: Copy>(&mut self, rt: &impl Abort, items: &[T]) -> T {
        let count = u32::try_from(items.len()).ok().expect(rt, "few items");
        assert!(rt; count > 0);
        let index = self.below(count);
        *items.get(index as usize).expect(rt, "an item")
    }
}
