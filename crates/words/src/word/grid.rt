// 128 words in a grid: the low numbers of all and then their high numbers. Each quarter of the 128 by 128 bits is then 64 numbers in a
// row, which are transposed as one block.
ghost use Rattle.std.specs.Prelude.{◌≡◌, ◌<◌, length};
ghost use Rattle.words.specs.Working.Grid.{word_in, Blank, WordPut, Within, GridTurned};
ghost use Rattle.words.specs.Working.Network.{Turned};
ghost use Rattle.words.specs.Working.Quarters.{Small, Quarters};
ghost use Rattle.words.specs.Working.Word.{value, width};

use crate::transpose::transpose_words;
use crate::word::{Word, high_of, low_of, of_numbers};
use crate::zeros::all_zero;

#[derive(Clone, Copy)]
pub struct Grid {
    low: [u64; 128],
    high: [u64; 128],
}

impl Grid {
    // Words that are 0.
    pub fn zero() -> Grid
        ensures { Blank result }
    {
        Grid {
            low: [0; 128],
            high: [0; 128],
        }
    }

    // That i is below 128 is asked, and no type keeps it: callers count lines up to a size.

    // Word i.
    pub fn word(&self, i: usize) -> Word
        requires { i < width }
        ensures { value result ≡ word_in self.now i }
    {
        of_numbers(self.low[i], self.high[i])
    }

    // That word made another.
    pub fn put(&mut self, i: usize, word: Word)
        requires { i < width }
        ensures { WordPut self.old i (value word) self.new }
    {
        self.low[i] = low_of(word);
        self.high[i] = high_of(word);
    }

    // The words, of which only the first `size` have bits, and only in the first `size` cells, become the words of the columns. Where
    // one quarter has all the bits, the others are not looked at.
    pub fn transpose(&mut self, size: usize)
        ensures { Within size self.old → GridTurned self.old self.new }
    {
        if size <= 64 {
            transpose_block(&mut self.low[..64])
        } else {
            transpose_quarters(&mut self.low, &mut self.high)
        }
    }
}

// 64 numbers transposed where they are; where none is set, nothing moves.
fn transpose_block(numbers: &mut [u64])
    requires { length numbers.old ≡ 64 }
    ensures fits { Small numbers.old }
    ensures turned { Turned numbers.old numbers.new }
{
    if !all_zero(numbers) {
        transpose_words(numbers)
    }
}

// The four quarters, each transposed by itself; the two off the diagonal change places.
fn transpose_quarters(low: &mut [u64], high: &mut [u64])
    requires { (length low.old ≡ 128) × (length high.old ≡ 128) }
    ensures fits { Small low.old }
    ensures turned { Quarters low.old high.old low.new high.new }
{
    let (first, right) = low.split_at_mut(64);
    let (below, last) = high.split_at_mut(64);
    transpose_block(first);
    transpose_block(right);
    transpose_block(below);
    transpose_block(last);
    right.swap_with_slice(below);
}
