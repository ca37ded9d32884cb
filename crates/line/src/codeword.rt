// Is a packed word a codeword?
ghost use Rattle.std.specs.Prelude.{◌≡◌, List, ℕ};
ghost use Rattle.degree.specs.Degree.{size};
ghost use Rattle.line.specs.Codeword.{is_codeword};
ghost use Rattle.line.specs.Working.Packed.{PacksWord};
ghost use Rattle.words.specs.Working.Word.{value};

use crate::tables::LineTables;
use words::word::Word;

// A codeword has three check sums of 0.
pub fn is_codeword(word: Word, tables: &LineTables) -> bool
    ensures { (ws : List ℕ) → PacksWord (size tables.now.degree) ws (value word) → result ≡ is_codeword tables.now.degree ws }
{
    let s = tables.syndrome(&word);
    (s.parity == 0) & ((s.s1 == 0) & (s.s3 == 0))
}
