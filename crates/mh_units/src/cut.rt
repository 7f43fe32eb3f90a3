ghost use Rattle.std.specs.Prelude.{◌≡◌, ◌<◌, ◌∷◌, [], length, MatchOption, IfSome};
ghost use Rattle.mh_units.specs.Cut.{parts_at};

/// The bytes before the first byte that is the mark and those behind it, or `None` where there is
/// none. It takes no memory.
pub fn cut_at(bytes: &[u8], mark: u8) -> Option<(&[u8], &[u8])>
    ensures parts { MatchOption result (parts_at mark bytes.now ≡ bytes.now ∷ [])
        (λ cut. parts_at mark bytes.now ≡ cut.0.now ∷ parts_at mark cut.1.now) }
    ensures shorter { IfSome result (λ cut. length cut.1.now < length bytes.now) }
{
    let place = bytes.iter().position(|byte| *byte == mark)?;
    Some((&bytes[..place], &bytes[place + 1..]))
}
