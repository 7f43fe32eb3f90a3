use margin_top::Gate;
use std::sync::atomic::{AtomicBool, AtomicUsize, Ordering};
use std::thread;

/// How often a call looks whether it is next.
const TURNS: u32 = 100_000_000;

/// Lets the calls of feeds come in an order, and all of them where there is none.
#[derive(Drop)]
pub struct InOrder {
    feeds: Vec<u64>,
    answered: AtomicUsize,
    in_vain: AtomicBool,
}

impl InOrder {
    /// The feed of each call, one after another.
    pub fn new(feeds: Vec<u64>) -> InOrder {
        InOrder {
            feeds,
            answered: AtomicUsize::new(0),
            in_vain: AtomicBool::new(false),
        }
    }

    fn is_next(&self, feed: u32) -> bool {
        if self.feeds.is_empty() {
            return true;
        }
        match self.feeds.get(self.answered.load(Ordering::SeqCst)) {
            Some(next) => *next == u64::from(feed),
            None => false,
        }
    }

    /// Whether a call waited for others that did not come.
    pub fn was_in_vain(&self) -> bool {
        self.in_vain.load(Ordering::SeqCst)
    }

    /// Whether each call of the order was answered, and no other.
    pub fn was_kept(&self) -> bool {
        self.feeds.is_empty() || self.answered.load(Ordering::SeqCst) == self.feeds.len()
    }
}

impl Gate for InOrder {
    fn before_call(&self, feed: u32, _set: u32) {
        for _ in 0..TURNS {
            if self.is_next(feed) {
                return;
            }
            thread::yield_now();
        }
        self.in_vain.store(true, Ordering::SeqCst);
    }

    fn after_call(&self, _feed: u32, _set: u32) {
        self.answered.fetch_add(1, Ordering::SeqCst);
    }
}
