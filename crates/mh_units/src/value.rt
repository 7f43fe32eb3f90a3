ghost use Rattle.std.specs.Prelude.{◌≡◌, ◌+◌, ◌*◌, ◌^◌, ◌<◌, ◌≤◌, ◌++◌};
ghost use Rattle.std.specs.Prelude.{min, length, take, slice_index};
ghost use Rattle.std.specs.List.{AllByRecursion};
ghost use Rattle.mh_units.specs.Grammar.{IsDigit};
ghost use Rattle.mh_units.specs.Numeral.{number_after, number, nearest};

/// Sizes are counted no further than this, which is past every size that is taken.
pub const ENOUGH: u64 = 10_000_000_000_000_000;

/// The number that these digits write behind `start`, counted up to `cap`.
#[tactic(auto, using(crate::proofs::Numbers::capped_more))]
pub fn capped_number(start: u64, digits: &[u8], cap: u64) -> u64
    requires started { start ≤ cap }
    requires small { cap ≤ 10 ^ 16 }
    ensures { result ≡ min (number_after start digits.now) cap }
{
    let mut number = start;
    for byte in digits {
        number = (number * 10 + u64::from(byte.saturating_sub(b'0'))).min(cap);
    }
    number
}

/// A number with zeros behind it, counted up to `ENOUGH`.
#[tactic(auto, using(crate::proofs::Numbers::capped_tenfold))]
pub fn with_zeros(number: u64, zeros: u64) -> u64
    requires { number ≤ 10 ^ 16 }
    ensures { result ≡ min (number * 10 ^ zeros) (10 ^ 16) }
{
    let mut size = number;
    for _ in 0..zeros {
        size = (size * 10).min(ENOUGH);
    }
    size
}

/// The number that the two parts write together, times `10^up`, divided by `10^down`, rounded to
/// the nearest, counted up to `ENOUGH`.
pub fn shifted(whole: &[u8], fraction: &[u8], up: usize, down: usize) -> u64
    requires digits { AllByRecursion IsDigit (whole.now ++ fraction.now) }
    requires room { length whole.now + length fraction.now ≤ 64 }
    ensures { result
        ≡ min (nearest (number (whole.now ++ fraction.now) * 10 ^ up) (10 ^ down)) (10 ^ 16) }
{
    if down <= up {
        let all = leading(whole, fraction, whole.len() + fraction.len());
        with_zeros(all, (up - down) as u64)
    } else {
        rounded(whole, fraction, down - up)
    }
}

// The number that the two parts write together, without the last `dropped` digits, rounded to
// the nearest.
fn rounded(whole: &[u8], fraction: &[u8], dropped: usize) -> u64
    requires digits { AllByRecursion IsDigit (whole.now ++ fraction.now) }
    requires room { length whole.now + length fraction.now ≤ 64 }
    requires some { 0 < dropped }
    ensures { result ≡ min (nearest (number (whole.now ++ fraction.now)) (10 ^ dropped)) (10 ^ 16) }
{
    let len = whole.len() + fraction.len();
    if dropped > len {
        return 0;
    }
    let kept = len - dropped;
    let size = leading(whole, fraction, kept);
    if digit_at(whole, fraction, kept) >= b'5' {
        (size + 1).min(ENOUGH)
    } else {
        size
    }
}

// The number that the first `count` digits of the two parts write, counted up to `ENOUGH`.
fn leading(whole: &[u8], fraction: &[u8], count: usize) -> u64
    requires { count ≤ length whole.now + length fraction.now }
    ensures { result ≡ min (number (take count (whole.now ++ fraction.now))) (10 ^ 16) }
{
    if count <= whole.len() {
        capped_number(0, &whole[..count], ENOUGH)
    } else {
        let front = capped_number(0, whole, ENOUGH);
        capped_number(front, &fraction[..count - whole.len()], ENOUGH)
    }
}

// The digit at a place of the two parts together.
fn digit_at(whole: &[u8], fraction: &[u8], place: usize) -> u8
    requires { place < length whole.now + length fraction.now }
    ensures { result ≡ slice_index (whole.now ++ fraction.now) place }
{
    if place < whole.len() {
        whole[place]
    } else {
        fraction[place - whole.len()]
    }
}
