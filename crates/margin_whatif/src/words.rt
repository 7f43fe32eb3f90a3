ghost use Rattle.std.specs.Prelude.{◌≡◌};
ghost use Rattle.margin_whatif.specs.Words.{is_trade_word};

use whatif::bucket_cache::simm_rules::simm_kinds::Name;

/// Whether a word is the name of a trade: a name that isn't empty. It takes no memory.
pub fn is_trade(word: &[u8]) -> bool
    ensures { result ≡ is_trade_word word.now }
{
    Name::is_full_name(word)
}
