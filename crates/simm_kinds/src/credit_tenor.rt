//! The vertices of credit spreads.
ghost use Rattle.std.specs.Prelude.{◌≡◌};
ghost use Rattle.simm_kinds.specs.Tenors.{tenor_word, tenor_at};
ghost use Rattle.simm_kinds.specs.Tenors.{credit_tenor_at, credit_tenor_named};

use crate::Tenor;

/// A vertex of a credit spread: one of five years of the grid of tenors.
#[derive(Clone, Copy, Debug, PartialEq, Eq, PartialOrd, Ord, Hash)]
pub enum CreditTenor {
    /// One year.
    Y1,
    /// Two years.
    Y2,
    /// Three years.
    Y3,
    /// Five years.
    Y5,
    /// Ten years.
    Y10,
}

impl CreditTenor {
    /// All credit vertices, in their order.
    pub const ALL: [CreditTenor; 5] = [
        CreditTenor::Y1,
        CreditTenor::Y2,
        CreditTenor::Y3,
        CreditTenor::Y5,
        CreditTenor::Y10,
    ];

    /// The credit vertex at a tenor, or `None` where credit has none.
    pub fn at(tenor: Tenor) -> Option<CreditTenor>
        ensures { result ≡ credit_tenor_at tenor }
    {
        match tenor {
            Tenor::Y1 => Some(CreditTenor::Y1),
            Tenor::Y2 => Some(CreditTenor::Y2),
            Tenor::Y3 => Some(CreditTenor::Y3),
            Tenor::Y5 => Some(CreditTenor::Y5),
            Tenor::Y10 => Some(CreditTenor::Y10),
            Tenor::W2 | Tenor::M1 | Tenor::M3 | Tenor::M6 | Tenor::Y15 | Tenor::Y20 | Tenor::Y30 =>
                None,
        }
    }

    /// The tenor of the vertex.
    pub fn tenor(self) -> Tenor
        ensures { result ≡ tenor_at self }
    {
        match self {
            CreditTenor::Y1 => Tenor::Y1,
            CreditTenor::Y2 => Tenor::Y2,
            CreditTenor::Y3 => Tenor::Y3,
            CreditTenor::Y5 => Tenor::Y5,
            CreditTenor::Y10 => Tenor::Y10,
        }
    }

    /// The word of the vertex in files and printed text: that of its tenor.
    pub fn word(self) -> &'static str
        ensures { result.now ≡ tenor_word (tenor_at self) }
    {
        self.tenor().word()
    }

    /// The credit vertex that a text names as `Tenor::read` takes it, or `None` for another text
    /// or tenor.
    pub fn read(text: &[u8]) -> Option<CreditTenor>
        ensures { result ≡ credit_tenor_named text.now }
    {
        CreditTenor::at(Tenor::read(text)?)
    }
}
