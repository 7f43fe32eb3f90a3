//! The seats of a pool, one for each feed.
ghost use Rattle.std.specs.Prelude.{◌≡◌, ◌≤◌, All, IfOk};
ghost use Rattle.std.specs.Vec.{vec_len};
ghost use Rattle.threshold_pool.specs.Seats.{fresh_seat};

use std::alloc::{AllocError, Global};
use threshold_pool::{Pool, PoolSeat};

/// A seat for each feed, of the one that has them all and made no move. The only error is want
/// of memory.
pub(crate) fn share_seats(
    alloc: Global,
    pool: &Pool,
    seat: PoolSeat,
    feeds: u32,
) -> Result<Vec<PoolSeat>, AllocError>
    requires some { 1 ≤ feeds }
    requires seat { seat ≡ fresh_seat pool.now feeds }
    ensures count { IfOk result (λ seats. vec_len seats ≡ feeds) }
    ensures seats { IfOk result (λ seats. All (λ s. s ≡ fresh_seat pool.now 1) seats.items) }
{
    let mut seats = Vec::with_capacity(alloc, feeds as usize)?;
    let mut rest = seat;
    for _feed in 0..feeds - 1 {
        let (one, others) = pool.split(rest, 1);
        seats.push(one)?;
        rest = others;
    }
    seats.push(rest)?;
    Ok(seats)
}
