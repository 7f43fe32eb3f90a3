ghost use Rattle.std.specs.Prelude.{◌≡◌};
ghost use Rattle.params_file.specs.BucketClass.{class_key, has_residual};

/// The risk classes that have buckets, in their order.
#[derive(Clone, Copy)]
pub enum BucketClass {
    /// Credit that qualifies.
    CreditQ,
    /// Credit that does not qualify.
    CreditNonQ,
    /// Equity.
    Equity,
    /// Commodities.
    Commodity,
}

impl BucketClass {
    /// The key of its table.
    pub fn key(self) -> &'static str
        ensures { result.now ≡ class_key self }
    {
        match self {
            BucketClass::CreditQ => "credit_q",
            BucketClass::CreditNonQ => "credit_nq",
            BucketClass::Equity => "equity",
            BucketClass::Commodity => "commodity",
        }
    }

    /// Whether it may have a residual bucket.
    pub fn has_residual(self) -> bool
        ensures { result ≡ has_residual self }
    {
        match self {
            BucketClass::CreditQ | BucketClass::CreditNonQ | BucketClass::Equity => true,
            BucketClass::Commodity => false,
        }
    }
}
