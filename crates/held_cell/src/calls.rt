//! Calls in the name of a seat's first caller.
ghost use Rattle.std.specs.Prelude.{◌≡◌, ◌+◌};
ghost use Rattle.held_cell.specs.Seats.{HasOwn, IsSeatOf};
ghost use Rattle.held_cell.specs.Calls.{Answers, TryAnswers, outcome_of};

use crate::cell::HeldCell;
use crate::machine::{Halt, Machine, Outcome, TryOutcome};
use crate::seat::Seat;
use std::sync::Wait;
use std::sync::atomic::Ordering;
use std::thread;
use std::time::Duration;

// How often a call that finds its cell taken tries again before it sleeps.
const TRIES: u32 = 2;

// How long it then sleeps, in milliseconds, if nobody wakes it.
const SLEEP: u64 = 2;

// Of so many calls that are made while callers sleep one wakes one of them. A caller that is woken
// at each call finds the cell taken again by the one that woke it, where that one goes on calling.
const CALLS: u64 = 64;

// Where the count of tries stands still, past the first sleep.
const MOST_TRIES: u32 = TRIES + 1;

// What is left of a word for a sleep on it.
const LOW_BITS: u64 = 0xffff_ffff;

fn outcome<M: Machine>(answer: Result<M::Reply, Halt<M::Event>>, entries: u32) -> Outcome<M>
    ensures { result ≡ outcome_of answer entries }
{
    match answer {
        Ok(reply) => Outcome::Done { reply, entries },
        Err(
            Halt::Full {
                entries,
                weight,
                event,
            },
        ) => Outcome::Full {
            entries,
            weight,
            event,
        },
        Err(Halt::Memory { event }) => Outcome::Memory { event },
    }
}

impl<M: Machine> HeldCell<M> {
    /// One call in the name of the seat's first caller, if nobody has the machine. It waits
    /// for nobody: it loads the word once, and exchanges it at most once. At `Busy` it never
    /// had the machine, and nothing has changed but the seat's counts and words. Else it is
    /// as [`HeldCell::call`].
    pub fn try_call(&self, seat: &mut Seat<M>, event: M::Event) -> TryOutcome<M>
        requires { IsSeatOf self.now seat.old }
        ensures legal { M.is_legal self.now.base seat.new.seen }
        ensures own { HasOwn seat.new }
        ensures answer { TryAnswers M.weight M.is_full seat.old seat.new event result }
    {
        let loaded = self.load(&mut seat.pass);
        if loaded % 2 == 1 {
            return TryOutcome::Busy {
                loaded,
                found: loaded,
                event,
            };
        }
        let found = self.take(&mut seat.pass, loaded);
        if found != loaded {
            return TryOutcome::Busy {
                loaded,
                found,
                event,
            };
        }
        let (answer, entries) = self.work(&mut seat.pass, seat.first, event);
        self.wake_sleeper();
        seat.seen_len = entries;
        TryOutcome::Did(outcome(answer, entries))
    }

    /// One call in the name of the seat's first caller. It waits while others have the machine,
    /// and nothing says that it ever gets it.
    ///
    /// At `Done` the seat has seen more: all that it had seen, and then what others did, and then
    /// this call, which is one more of its own. At `Full` and `Memory` it may have seen more of
    /// others, its own stand, and the event comes back; `Full` comes by the limit of the journal
    /// that it has now seen, and `Memory` where that journal had room.
    pub fn call(&self, rt: &impl Wait, seat: &mut Seat<M>, event: M::Event) -> Outcome<M>
        requires { IsSeatOf self.now seat.old }
        ensures legal { M.is_legal self.now.base seat.new.seen }
        ensures own { HasOwn seat.new }
        ensures once { seat.new.takes ≡ seat.old.takes + 1 }
        ensures answer { Answers M.weight M.is_full seat.old seat.new event result }
    {
        let mut event = event;
        let mut tries = 0;
        for _ in rt.forever() {
            match self.try_call(seat, event) {
                TryOutcome::Did(outcome) => return outcome,
                TryOutcome::Busy {
                    loaded: _,
                    found,
                    event: back,
                } => {
                    event = back;
                    self.back_off(rt, found, tries);
                    tries = MOST_TRIES.min(tries + 1);
                }
            }
        }
        unreachable!()
    }

    // Wakes a caller that sleeps, if there is one, at the first call since one went to sleep, and
    // then at every 64th. A caller that goes to sleep counts itself first, and this reads the
    // count after the machine went home: so it sees the caller, or the caller sees that the word
    // has changed.
    fn wake_sleeper(&self) {
        if self.sleepers.load(Ordering::SeqCst) > 0
            && self.passed.fetch_add(1, Ordering::SeqCst) % CALLS == 0
        {
            self.table.shared.wake_one(0);
        }
    }

    // Lets other threads run, and after some tries sleeps while the word is as it was found, until
    // it is woken.
    fn back_off(&self, rt: &impl Wait, found: u64, tries: u32) {
        if found % 2 == 0 || tries < TRIES {
            thread::yield_now();
        } else {
            if tries == TRIES {
                self.passed.store(0, Ordering::SeqCst);
            }
            let low = (found & LOW_BITS) as u32;
            self.sleepers.fetch_add(1, Ordering::SeqCst);
            self.table
                .shared
                .park_timeout(rt, 0, low, Duration::from_millis(SLEEP));
            self.sleepers.fetch_sub(1, Ordering::SeqCst);
        }
    }
}
