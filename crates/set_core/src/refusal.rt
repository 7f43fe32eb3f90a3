ghost use Rattle.std.specs.Prelude.{◌≡◌};
ghost use Rattle.set_core.specs.Text.{refusal_number};

use bucket_cache::simm_rules::RangeFault;

/// Why an event was refused. It stands in the journal with the event, and nothing else changed.
#[derive(Clone, Copy)]
pub enum Refusal {
    /// A withdrawal names a trade that isn't current; the place of the first such name, from 1.
    UnknownTrade { place: u64 },
    /// The tables don't list the bucket of a row of the batch, or of the book where the tables are
    /// new; the first such row's trade by its place there, and the row by its place in the trade,
    /// both from 1.
    BucketUnknown { trade: u32, row: u32 },
    /// All rows are admitted, and the book with this batch, or by these tables, would be out of
    /// range; the first quantity that is above its limit.
    Range(RangeFault),
    /// A lot of this name is there.
    LotKnown,
    /// No lot of this name is there.
    LotUnknown,
    /// The terms have no haircut for the class.
    ClassUnknown,
    /// No outstanding call has this number.
    CallUnknown,
    /// The value, in cents, is below 0 or above 10^15.
    LotRange(i64),
    /// There are as many lots as there may be, this many.
    LotsFull(u32),
    /// The demand's day, counted from 1970-01-01, isn't in the years 1 to 9000.
    DayRange(i32),
}

impl Refusal {
    /// The refusal's number in printed text.
    pub fn number(self) -> u8
        ensures { result ≡ refusal_number self }
    {
        match self {
            Refusal::UnknownTrade { .. } => 1,
            Refusal::BucketUnknown { .. } => 2,
            Refusal::Range(_) => 3,
            Refusal::LotKnown => 4,
            Refusal::LotUnknown => 5,
            Refusal::ClassUnknown => 6,
            Refusal::CallUnknown => 7,
            Refusal::LotRange(_) => 8,
            Refusal::LotsFull(_) => 9,
            Refusal::DayRange(_) => 10,
        }
    }
}
