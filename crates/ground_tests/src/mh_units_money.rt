use mh_io::mh_units::{Cents, write_cents};

/// Cents, and the amount of money that they are.
static AMOUNTS: [(i128, &str); 4] = [
    (740_000, "7400.00"),
    (-5, "-0.05"),
    (i128::MAX, "1701411834604692317316873037158841057.27"),
    (i128::MIN, "-1701411834604692317316873037158841057.28"),
];

#[test]
fn money_is_written(rt: HostRuntime) {
    for (cents, want) in &AMOUNTS {
        let text = write_cents(rt.alloc(), Cents(*cents))
            .ok()
            .expect(&rt, "memory");
        assert!(rt; text.as_slice() == want.as_bytes(), "{want}");
    }
}
