// The number of a cell.
ghost use Rattle.std.specs.Prelude.{◌≡◌, ◌≢◌, ◌<◌, ◌^◌};
ghost use Rattle.std.specs.Int.Count.{count_trailing_zeros};
ghost use Rattle.words.specs.Working.Word.{value, width};

use words::word::{Word, lowest};

// The number of a cell that a word has room for.
#[derive(Clone, Copy)]
pub struct CellNumber {
    pub number: u32,
    pub ghost in_word: { number < width },
}

impl CellNumber {
    // The lowest set cell.
    pub fn lowest(word: Word) -> CellNumber
        requires { value word ≢ 0 }
        ensures { (result.number ≡ count_trailing_zeros width (value word)) × (value word < 2 ^ width) }
    {
        CellNumber {
            number: lowest(word),
        }
    }
}
