//! Words in files, read in any ASCII case.
ghost use Rattle.std.specs.Prelude.{◌≡◌, ◌↔◌, List, ℕ, IsTrue, length, map};
ghost use Rattle.std.specs.Char.{eq_ignore_ascii_case, to_ascii_lowercase};
ghost use Rattle.std.specs.List.{find};
ghost use Rattle.simm_kinds.specs.Words.{is_word};

/// What has a word in files.
pub trait Worded: Copy {
    /// The word.
    ghost word_of: { Self → List ℕ };

    /// The word.
    fn file_word(&self) -> &'static str
        ensures { result.now ≡ word_of self.now };
}

/// Whether a text is the word, in any ASCII case.
pub fn is_word(word: &str, text: &[u8]) -> bool
    ensures { result ≡ is_word word.now text.now }
{
    let word = word.as_bytes();
    text.len() == word.len() && are_alike(text, word)
}

/// The first of these whose word a text is, in any ASCII case.
pub fn first_worded<T: Worded>(all: &[T], text: &[u8]) -> Option<T>
    ensures { result ≡ find (λ x. is_word (T.word_of x) text.now) all.now }
{
    for item in all {
        if is_word(item.file_word(), text) {
            return Some(*item);
        }
    }
    None
}

// Whether two texts of one length are the same in any ASCII case. Many words begin alike, so the
// last bytes come first.
fn are_alike(text: &[u8], word: &[u8]) -> bool
    requires { length text.now ≡ length word.now }
    ensures { IsTrue result ↔ (map to_ascii_lowercase text.now ≡ map to_ascii_lowercase word.now) }
{
    for place in (0..text.len()).rev() {
        if !is_same_letter(text[place], word[place]) {
            return false;
        }
    }
    true
}

// Whether two bytes are the same in any ASCII case. Equal ones, as most are, need no look at
// their case.
fn is_same_letter(a: u8, b: u8) -> bool
    ensures { result ≡ eq_ignore_ascii_case a b }
{
    a == b || a.eq_ignore_ascii_case(&b)
}
