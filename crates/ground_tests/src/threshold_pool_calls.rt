ghost use Rattle.std.specs.Prelude.{◌≡◌};
ghost use Rattle.threshold_pool.specs.Seats.{IsSeatOf};

use std::process::Abort;
use std::sync::Wait;
use std::test::Fail;
use std::thread::join;
use threshold_pool::{Allot, Pool, PoolSeat, TryAllot};

fn is_sent<T: Send>(_value: &T) {}

fn is_shared<T: Send + Sync>(_value: &T) {}

#[test]
fn one_seat_takes_and_gives(rt: HostRuntime) -> Result<(), Fail> {
    let (pool, mut seat) = Pool::start(rt.alloc(), 10_000, 1)?;
    is_shared(&pool);
    is_sent(&seat);
    assert!(rt; pool.try_allot(&mut seat, 7_000) == TryAllot::Got { held: 7_000 });
    assert!(rt; pool.try_allot(&mut seat, 4_000) == TryAllot::Short { rest: 3_000 });
    assert!(rt; seat.held() == 7_000);
    pool.give(&mut seat, 2_000);
    assert!(rt; pool.allot(&rt, &mut seat, 4_000) == Allot::Got { held: 9_000 });
    assert!(rt; pool.allot(&rt, &mut seat, 1_001) == Allot::Short { rest: 1_000 });
    assert!(rt; pool.close(seat) == 1_000);
    Ok(())
}

#[test]
fn joined_seats_hold_what_both_held(rt: HostRuntime) -> Result<(), Fail> {
    let (pool, seat) = Pool::start(rt.alloc(), 10_000, 3)?;
    let (mut first, mut others) = pool.split(seat, 2);
    assert!(rt; pool.try_allot(&mut first, 6_000) == TryAllot::Got { held: 6_000 });
    assert!(rt; others.held() == 0);
    assert!(rt; pool.try_allot(&mut others, 6_000) == TryAllot::Short { rest: 4_000 });
    assert!(rt; pool.try_allot(&mut others, 1_500) == TryAllot::Got { held: 1_500 });
    let all = pool.join(first, others);
    assert!(rt; all.held() == 7_500);
    assert!(rt; pool.close(all) == 2_500);
    Ok(())
}

// Asks for more than half of the pool.
fn ask(rt: &(impl Abort + Wait), pool: &Pool, mut seat: PoolSeat) -> PoolSeat
    requires { IsSeatOf pool.now seat }
    ensures { IsSeatOf pool.now result × (result.parts ≡ seat.parts) }
{
    match pool.allot(rt, &mut seat, 6_000) {
        Allot::Got { held } => assert!(rt; held == 6_000),
        Allot::Short { rest } => assert!(rt; rest == 4_000),
    }
    seat
}

#[test]
fn one_of_two_threads_gets_more_than_half(rt: HostRuntime) -> Result<(), Fail> {
    let (pool, seat) = Pool::start(rt.alloc(), 10_000, 2)?;
    let (first, second) = pool.split(seat, 1);
    let (first, second) = join(
        &rt,
        || -> PoolSeat
            requires { IsSeatOf pool first }
            ensures { IsSeatOf pool result × (result.parts ≡ first.parts) }
        { ask(&rt, &pool, first) },
        || -> PoolSeat
            requires { IsSeatOf pool second }
            ensures { IsSeatOf pool result × (result.parts ≡ second.parts) }
        { ask(&rt, &pool, second) },
    );
    let all = pool.join(first, second);
    assert!(rt; all.held() == 6_000);
    assert!(rt; pool.close(all) == 4_000);
    Ok(())
}
