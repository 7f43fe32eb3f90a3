ghost use Rattle.std.specs.Prelude.{◌≡◌, true, false, MatchResult};
ghost use Rattle.mh_units.specs.Scan.{kind_of, next, is_end, reach, is_numeral};
ghost use Rattle.mh_units.specs.declared.scan.Phase.TheVariants.{Start};

/// What a byte is to a numeral.
#[derive(Clone, Copy)]
pub enum Kind {
    Digit,
    Sign,
    Point,
    Mark,
    Other,
}

/// How far a numeral has been read.
#[derive(Clone, Copy)]
pub enum Phase {
    Start,
    Signed,
    Whole,
    Point,
    Fraction,
    Mark,
    MarkSign,
    Exponent,
}

impl Kind {
    /// The kind of a byte.
    pub fn of(byte: u8) -> Kind
        ensures { result ≡ kind_of byte }
    {
        match byte {
            b'0'..=b'9' => Kind::Digit,
            b'+' | b'-' => Kind::Sign,
            b'.' => Kind::Point,
            b'E' | b'e' => Kind::Mark,
            _ => Kind::Other,
        }
    }
}

impl Phase {
    /// The phase after one more byte of this kind, if a numeral can go on with it.
    pub fn next(self, kind: Kind) -> Option<Phase>
        ensures { result ≡ next self kind }
    {
        match (self, kind) {
            (Phase::Start, Kind::Sign) => Some(Phase::Signed),
            (Phase::Start | Phase::Signed | Phase::Whole, Kind::Digit) => Some(Phase::Whole),
            (Phase::Start | Phase::Signed, Kind::Point) => Some(Phase::Point),
            (Phase::Whole, Kind::Point) => Some(Phase::Fraction),
            (Phase::Point | Phase::Fraction, Kind::Digit) => Some(Phase::Fraction),
            (Phase::Whole | Phase::Fraction, Kind::Mark) => Some(Phase::Mark),
            (Phase::Mark, Kind::Sign) => Some(Phase::MarkSign),
            (Phase::Mark | Phase::MarkSign | Phase::Exponent, Kind::Digit) => Some(Phase::Exponent),
            _ => None,
        }
    }

    /// Whether a numeral may end here.
    pub fn is_end(self) -> bool
        ensures { result ≡ is_end self }
    {
        matches!(self, Phase::Whole | Phase::Fraction | Phase::Exponent)
    }
}

/// Whether the text is a numeral. If not, how many bytes at its front some numeral begins with.
pub fn check(text: &[u8]) -> Result<(), usize>
    ensures { MatchResult result (λ _. is_numeral text.now ≡ true)
        (λ place. (is_numeral text.now ≡ false) × (place ≡ reach Start text.now)) }
{
    let mut phase = Phase::Start;
    for (place, byte) in text.iter().enumerate() {
        match after(phase, *byte) {
            Some(later) => phase = later,
            None => return Err(place),
        }
    }
    if phase.is_end() {
        Ok(())
    } else {
        Err(text.len())
    }
}

// The phase after one more byte, if a numeral can go on with it. Where it may end, a digit leaves
// the phase as it is.
fn after(phase: Phase, byte: u8) -> Option<Phase>
    ensures { result ≡ next phase (kind_of byte) }
{
    if phase.is_end() && byte.is_ascii_digit() {
        Some(phase)
    } else {
        phase.next(Kind::of(byte))
    }
}
