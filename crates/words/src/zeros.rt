// Words that are 0.
ghost use Rattle.std.specs.Prelude.{◌≡◌, eqb, length, get_or};
ghost use Rattle.laws.specs.Tests.{every};
ghost use Rattle.words.specs.Working.Quarters.{Small};

// Are all words 0? That they fit the machine's is known of a slice that is read, and not of what one held that has been written.
pub fn all_zero(words: &[u64]) -> bool
    ensures fits { Small words.now }
    ensures zero { result ≡ every (λ i. eqb (get_or words.now i 0) 0) (length words.now) }
{
    let mut any: u64 = 0;
    for word in words {
        any |= *word;
    }
    any == 0
}
