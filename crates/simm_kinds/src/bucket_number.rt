//! The numbers of buckets.
ghost use Rattle.std.specs.Prelude.{◌≡◌, true, if◌then◌else◌};
ghost use Rattle.simm_kinds.specs.BucketNumber.{is_bucket_number, bucket_number_named};

use std::marker::Model;

/// The number of a bucket, 1 to 64. Contracts see just the number.
#[derive(Clone, Copy, PartialEq, Eq, PartialOrd, Ord, Hash)]
pub struct BucketNumber {
    number: u8,
}

impl Model for BucketNumber {
    ghost use Rattle.std.specs.Prelude.{◌≡◌, ℕ, true};
    ghost use Rattle.simm_kinds.specs.BucketNumber.{is_bucket_number};

    ghost Value = { ℕ };

    ghost view = { λ b. b.number };

    ghost invariant = { λ b. is_bucket_number b.number ≡ true };

    ghost inverse = { λ n. record { number = n } };
}

impl BucketNumber {
    /// The bucket of this number, or `None` where it isn't 1 to 64.
    pub fn new(number: u8) -> Option<BucketNumber>
        ensures { result ≡ (if is_bucket_number number then Some number else None) }
    {
        if (1..=64).contains(&number) {
            Some(BucketNumber { number })
        } else {
            None
        }
    }

    /// The number.
    pub fn get(self) -> u8
        ensures value { result ≡ self }
        ensures range { is_bucket_number self ≡ true }
    {
        self.number
    }

    /// The bucket that a decimal from 1 to 64 without a leading zero names, or `None` for
    /// another text.
    pub fn read(text: &[u8]) -> Option<BucketNumber>
        ensures { result ≡ bucket_number_named text.now }
    {
        match text {
            [digit @ b'1'..=b'9'] => BucketNumber::new(*digit - b'0'),
            [tens @ b'1'..=b'9', digit @ b'0'..=b'9'] => {
                BucketNumber::new((*tens - b'0') * 10 + (*digit - b'0'))
            }
            _ => None,
        }
    }
}
