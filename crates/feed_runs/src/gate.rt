/// What stands beside each call of a feed on a set, while the set isn't held. It may take its time.
pub trait Gate: Sync {
    /// Before the feed of this number calls the set at this place, from 0.
    fn before_call(&self, feed: u32, set: u32);

    /// After that call was answered.
    fn after_call(&self, feed: u32, set: u32);
}

/// Does nothing.
pub struct NoGate;

impl Gate for NoGate {
    fn before_call(&self, _feed: u32, _set: u32) {}

    fn after_call(&self, _feed: u32, _set: u32) {}
}
