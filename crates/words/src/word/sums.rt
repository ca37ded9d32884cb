// Sums by exclusive or: of words, and of table entries by the bytes of a word.
ghost use Rattle.std.specs.Prelude.{◌≡◌, ℕ, ◌+◌, ◌*◌, ◌^◌, ◌<◌, ◌≤◌, length};
ghost use Rattle.std.specs.Int.Bits.{bit_xor};
ghost use Rattle.laws.specs.Digits.{sum_over, digits};
ghost use Rattle.words.specs.Working.Sums.{chosen_sum, ByteSums};
ghost use Rattle.words.specs.Working.Word.{value, width};

use crate::word::grid::Grid;
use crate::word::{Word, bit_at, high_of, low_of, xor_where, zero_word};

// The sum of the first k words of a grid whose words in the table, another grid, have bit i.
pub fn chosen_sum(k: usize, table: &Grid, words: &Grid, i: u32) -> Word
    requires { (k ≤ width) × (i < width) }
    ensures { value result ≡ chosen_sum table.now words.now k i }
{
    let mut sum = zero_word();
    for a in 0..k {
        let bit = bit_at(table.word(a), i);
        sum = xor_where(bit == 1, sum, words.word(a));
    }
    sum
}

// The entries for the high number stand behind those for the low one, in one table: `base` says where. A table cut in two would say the same
// by a slice at each call.

// The sum of the entries at the eight bytes of a number, from `base` on. Eight turns, which the compiler unrolls.
fn eight_sum(number: u64, table: &[u16], base: usize) -> u16
    requires { base + 2048 ≤ length table.now }
    ensures { (W : ℕ → ℕ) → ByteSums W base 8 table.now → result ≡ sum_over W (digits 64 number) }
{
    let mut sum: u16 = 0;
    let mut rest = number;
    for j in 0..8 {
        let at = base + j * 256 + (rest % 256) as usize;
        sum ^= table[at];
        rest /= 256;
    }
    sum
}

// A sum with those entries added, for a number that is mostly 0: a loop whose turns are not known when it is compiled stays small, and
// for 0 it takes none. It ends where nothing is left of the number, and so is no `for`.
fn sum_with(sum: u16, number: u64, table: &[u16], base: usize) -> u16
    requires { base + 2048 ≤ length table.now }
    ensures { (W : ℕ → ℕ) → ByteSums W base 8 table.now → result ≡ bit_xor sum (sum_over W (digits 64 number)) }
{
    let mut all = sum;
    let mut rest = number;
    let mut j = 0;
    while rest != 0 {
        let at = base + j * 256 + (rest % 256) as usize;
        all ^= table[at];
        rest /= 256;
        j += 1;
    }
    all
}

// The sum of the entries at the bytes of a word: block j of 256 entries, from `base` on, is for byte j.
// The word is lent: handed on by value it is copied first.
pub fn byte_sum(word: &Word, table: &[u16], base: usize) -> u16
    requires { base + 4096 ≤ length table.now }
    ensures { (W : ℕ → ℕ) → ByteSums W base 16 table.now → result ≡ sum_over W (digits width (value word.now)) }
{
    let sum = eight_sum(low_of(*word), table, base);
    sum_with(sum, high_of(*word), table, base + 2048)
}
