//! A machine that multiplies.
ghost use Rattle.std.specs.Prelude.{◌≡◌, ◌+◌, ◌*◌, ◌<◌, ◌≤◌, ◌⊎◌, length, sum_by, All, IsTrue};
ghost use Rattle.std.specs.Prelude.{◌↔◌, vec_len, IfErr, IfOk, OnOk, OnErr, [], ◌∷◌, ◌++◌};
ghost use Rattle.std.proofs.lemmas.List.Elements.{All-nil};

use held_cell::{Entry, Halt, Machine};
use std::alloc::Global;
use std::sync::Arc;
use std::sync::atomic::{AtomicBool, Ordering};
use std::thread;

// The most entries, and the most that the events come to.
pub const ENTRIES: u32 = 60_000;

pub const WEIGHT: u32 = 100_000_000;

// The most turns that a step waits at its gate.
const TURNS: u32 = 1_000_000_000;

// What a step raises as it comes to the gate, and what it waits for there.
#[derive(Drop)]
pub struct Gate {
    pub reached: AtomicBool,
    pub open: AtomicBool,
}

impl Gate {
    pub fn shut() -> Gate {
        Gate {
            reached: AtomicBool::new(false),
            open: AtomicBool::new(false),
        }
    }

    fn pass(&self) {
        self.reached.store(true, Ordering::SeqCst);
        turn_until(&self.open);
    }
}

// Turns until the flag is up, or the turns are used up. Says whether it is up.
pub fn turn_until(flag: &AtomicBool) -> bool {
    for _ in 0..TURNS {
        if flag.load(Ordering::SeqCst) {
            return true;
        }
        thread::yield_now();
    }
    false
}

// Answers each number times its rate.
#[derive(Drop)]
pub struct Multiplier {
    rate: u32,
    weight: u32,
    pub calls: Vec<Entry<u32, u64>>,
    gate: Option<Arc<Gate, Global>>,
    ghost few: { vec_len calls ≤ 60000 },
    ghost weighs: { weight ≡ sum_by (λ e. e.event) calls.items },
    ghost light: { weight ≤ 100000000 },
}

impl Multiplier {
    pub fn new(alloc: Global, rate: u32, gate: Option<Arc<Gate, Global>>) -> Multiplier
        ensures { (result.rate ≡ rate) × (result.calls.items ≡ []) }
    {
        Multiplier {
            rate,
            weight: 0,
            calls: Vec::new(alloc),
            gate,
        }
    }

    fn is_full(&self, event: u32) -> bool
        ensures { IsTrue result
            ↔ ((60000 ≤ vec_len self.now.calls) ⊎ (100000000 < self.now.weight + event)) }
    {
        self.calls.len() >= ENTRIES as usize || event > WEIGHT - self.weight
    }
}

impl Machine for Multiplier {
    type Event = u32;

    type Reply = u64;

    type Base = u32;

    ghost base = { λ m. m.rate };

    ghost journal = { λ m. m.calls.items };

    ghost weight = { λ log. sum_by (λ e. e.event) log };

    ghost is_full = { λ log event. (60000 ≤ length log)
        ⊎ (100000000 < sum_by (λ e. e.event) log + event) };

    ghost is_legal = { λ rate log. All (λ e. e.reply ≡ rate * e.event) log };

    fn entries(&self) -> u32 {
        self.calls.len() as u32
    }

    fn step(&mut self, caller: u32, event: u32) -> Result<u64, Halt<u32>> {
        if let Some(gate) = &self.gate {
            gate.pass();
        }
        if self.is_full(event) {
            return Err(Halt::Full {
                entries: self.entries(),
                weight: self.weight,
                event,
            });
        }
        let reply = u64::from(self.rate) * u64::from(event);
        if self.calls.reserve(1).is_err() {
            return Err(Halt::Memory { event });
        }
        self.weight += event;
        self.calls.push_reserved(Entry {
            caller,
            event,
            reply,
        });
        Ok(reply)
    }

    ghost starts = { λ rate. All-nil (λ e. e.reply ≡ rate * e.event) };
}
