ghost use Rattle.std.specs.Prelude.{◌≡◌};
ghost use Rattle.simm_params.specs.ThresholdView.{thresholds_view};
ghost use Rattle.simm_params.specs.ThresholdKinds.{threshold_key, weight_beside, threshold_in};

/// The concentration thresholds of delta and of vega, in cents.
#[derive(Clone, Copy)]
pub struct Thresholds {
    /// That of delta.
    pub delta: i64,
    /// That of vega.
    pub vega: i64,
}

/// Which of the two concentration thresholds, and so which weights it stands beside: those of the
/// file for delta, and 1 for vega, whose sensitivities are weighted already.
#[derive(Clone, Copy)]
pub enum ThresholdKind {
    /// That of delta.
    Delta,
    /// That of vega.
    Vega,
}

/// The weight 1, in ten-thousandths.
const UNIT_WEIGHT: i64 = 10_000;

impl ThresholdKind {
    /// The key at which it stands.
    pub fn key(self) -> &'static str
        ensures { result.now ≡ threshold_key self }
    {
        match self {
            ThresholdKind::Delta => "threshold",
            ThresholdKind::Vega => "vega_threshold",
        }
    }

    /// The weight beside it in ten-thousandths, where `weight` is that of delta.
    pub fn weight(self, weight: i64) -> i64
        ensures { result ≡ weight_beside self weight }
    {
        match self {
            ThresholdKind::Delta => weight,
            ThresholdKind::Vega => UNIT_WEIGHT,
        }
    }
}

impl Thresholds {
    /// The threshold of a kind, in cents.
    pub fn of(self, kind: ThresholdKind) -> i64
        ensures { result ≡ threshold_in kind (thresholds_view self) }
    {
        match kind {
            ThresholdKind::Delta => self.delta,
            ThresholdKind::Vega => self.vega,
        }
    }
}
