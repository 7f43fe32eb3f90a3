ghost use Rattle.std.specs.Prelude.{None};

use mh_io::mh_units::Bytes;
use mh_io::{Failed, LINE_BYTES, LineFault, Source, lines_of};

// A line of `x` without end.
#[derive(Drop)]
struct Endless {
    left: usize,
}

impl Source for Endless {
    ghost seen = { λ _. record { faults = 0; name = None; gave = None; left = None } };

    fn take(&mut self, buf: &mut [u8]) -> Result<usize, Failed> {
        let taken = self.left.min(buf.len());
        self.left -= taken;
        for place in &mut buf[..taken] {
            *place = b'x';
        }
        Ok(taken)
    }
}

// Of a source that never ends no more than one line's bytes are taken.
#[test]
fn a_source_is_handed_back(rt: HostRuntime) {
    let endless = Endless { left: usize::MAX };
    let mut lines = lines_of(rt.alloc(), endless).ok().expect(&rt, "memory");
    let mut line = Bytes::new(rt.alloc());
    assert!(rt; lines.next_line(&mut line) == Err(LineFault::LineLong));
    assert!(rt; lines.give_back().left == usize::MAX - LINE_BYTES);
}
