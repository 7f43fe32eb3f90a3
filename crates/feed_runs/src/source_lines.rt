//! The lines of sources, before any of them is taken.
ghost use Rattle.std.specs.Prelude.{◌≡◌, ◌+◌, ◌≤◌, ◌++◌, map, IfOk, IfErr};
ghost use Rattle.std.specs.Vec.{vec_len};
ghost use Rattle.std.specs.VecDeque.{deque_len, deque_capacity};
ghost use Rattle.feed_runs.specs.Untaken.{fresh};

use mh_io::{Lines, MemoryBack, Source, lines_of};
use std::alloc::Global;
use std::collections::VecDeque;

/// The lines of each source, of which nothing was taken yet. For want of memory the sources
/// come back.
pub fn lines_of_all<S: Source>(
    alloc: Global,
    sources: Vec<S>,
) -> Result<Vec<Lines<S>>, MemoryBack<Vec<S>>>
    ensures lines { IfOk result (λ all. all.items ≡ map fresh sources.items) }
    ensures back { IfErr result (λ memory. memory.back.items ≡ sources.items) }
{
    let Ok(mut all) = Vec::with_capacity(alloc, sources.len()) else {
        return Err(MemoryBack { back: sources });
    };
    let mut waiting = VecDeque::from_vec(sources);
    while let Some(source) = waiting.pop_front() {
        match lines_of(alloc, source) {
            Ok(lines) => all.push_reserved(lines),
            Err(memory) => {
                waiting.push_front_reserved(memory.back);
                return Err(MemoryBack {
                    back: hand_back(waiting, all),
                });
            }
        }
    }
    Ok(all)
}

/// Hands the sources of lines that weren't read back, before those that have no lines yet.
fn hand_back<S: Source>(waiting: VecDeque<S>, made: Vec<Lines<S>>) -> Vec<S>
    requires { deque_len waiting + vec_len made ≤ deque_capacity waiting }
    ensures { result.items ≡ map (λ lines. lines.source) made.items ++ waiting.items }
{
    let mut sources = waiting;
    let mut left = made;
    while let Some(lines) = left.pop() {
        sources.push_front_reserved(lines.give_back());
    }
    Vec::from(sources)
}
