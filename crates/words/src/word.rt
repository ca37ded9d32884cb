// A packed word: bit i of it is cell i. Only this module, with the three below it, knows that the machine holds a word in two numbers
// of 64 bits, the low one first: `low_of` and `high_of` can't be named elsewhere. A word of at most 64 cells leaves the high one 0.
pub mod pairs; // the two lowest bits of bytes, gathered in two words and spread again
pub mod grid; // 128 words in an array of numbers, and their transpose
pub mod sums; // sums of words and of table entries, by exclusive or

ghost use Rattle.std.specs.Prelude.{◌≡◌, cond, ◌≢◌, ◌+◌, ◌-◌, ◌*◌, ◌<◌, ◌≤◌, ◌/◌, ◌%◌, ◌^◌, eqb};
ghost use Rattle.std.specs.Int.Bits.{bit_and, bit_or, bit_xor};
ghost use Rattle.std.specs.Int.Count.{ones, count_trailing_zeros};
ghost use Rattle.words.specs.Working.Word.{value, width};

#[derive(Clone, Copy, PartialEq, Eq, Debug)]
pub struct Word {
    low: u64,
    high: u64,
}

pub fn zero_word() -> Word
    ensures { value result ≡ 0 }
{
    Word { low: 0, high: 0 }
}

// A word from two numbers, as callers lend a filling word: the low one is for the cells 0 to 63, the high one for those from 64 on.
pub fn of_numbers(low: u64, high: u64) -> Word
    ensures { value result ≡ high * 2 ^ 64 + low }
{
    Word { low, high }
}

// The word whose cells are the binary digits of a number.
impl From<u64> for Word {
    ghost from_gives = { λ number word. value word ≡ number };

    fn from(number: u64) -> Word {
        of_numbers(number, 0)
    }
}

// The lowest 64 digits of the number that a word stands for.
fn low_of(a: Word) -> u64
    ensures { result ≡ value a % 2 ^ 64 }
{
    a.low
}

// The digits above them.
fn high_of(a: Word) -> u64
    ensures { result ≡ value a / 2 ^ 64 }
{
    a.high
}

// ---- all cells at once

// Three like functions, for one over the operator would have to be told its law at each call.

pub fn xor_words(a: Word, b: Word) -> Word
    ensures { value result ≡ bit_xor (value a) (value b) }
{
    Word {
        low: a.low ^ b.low,
        high: a.high ^ b.high,
    }
}

// A sum by exclusive or, and one part more where it is asked for.
pub fn xor_where(yes: bool, sum: Word, part: Word) -> Word
    ensures { value result ≡ bit_xor (value sum) (cond yes (value part) 0) }
{
    if yes { xor_words(sum, part) } else { sum }
}

pub fn and_words(a: Word, b: Word) -> Word
    ensures { value result ≡ bit_and (value a) (value b) }
{
    Word {
        low: a.low & b.low,
        high: a.high & b.high,
    }
}

pub fn or_words(a: Word, b: Word) -> Word
    ensures { value result ≡ bit_or (value a) (value b) }
{
    Word {
        low: a.low | b.low,
        high: a.high | b.high,
    }
}

pub fn not_word(a: Word) -> Word
    ensures { value result ≡ 2 ^ width - 1 - value a }
{
    Word {
        low: !a.low,
        high: !a.high,
    }
}

// What a has and b has not.
pub fn without(a: Word, b: Word) -> Word
    ensures { value result ≡ bit_xor (value a) (bit_and (value a) (value b)) }
{
    Word {
        low: a.low ^ (a.low & b.low),
        high: a.high ^ (a.high & b.high),
    }
}

pub fn is_zero(a: Word) -> bool
    ensures { result ≡ eqb (value a) 0 }
{
    (a.low == 0) & (a.high == 0)
}

// ---- one cell

// That a word has room for cell k is asked, and no type keeps it: most callers count cells up to a size, and would make such a number
// anew for each.

// The number that has cell k, as its bit k % 64.
fn half_at(a: Word, k: u32) -> u64
    requires { k < width }
    ensures { result / 2 ^ (k % 64) % 2 ≡ value a / 2 ^ k % 2 }
{
    if k < 64 { a.low } else { a.high }
}

pub fn bit_at(a: Word, k: u32) -> u64
    requires { k < width }
    ensures { result ≡ value a / 2 ^ k % 2 }
{
    (half_at(a, k) >> (k % 64)) % 2
}

// x at cell k, and nothing else.
pub fn single(x: u64, k: u32) -> Word
    requires { (x < 2) × (k < width) }
    ensures { value result ≡ x * 2 ^ k }
{
    let bit = x << (k % 64);
    if k < 64 {
        Word { low: bit, high: 0 }
    } else {
        Word { low: 0, high: bit }
    }
}

// The word with cell k made x.
pub fn put_bit(a: Word, k: u32, x: u64) -> Word
    requires { (k < width) × (x < 2) }
    ensures { value result ≡ bit_xor (value a) (bit_xor (value a / 2 ^ k % 2) x * 2 ^ k) }
{
    xor_words(a, single(bit_at(a, k) ^ x, k))
}

// ---- the set cells

// The high number, which is mostly 0, is counted only where it is not.
pub fn count_bits(a: Word) -> u32
    ensures { (result ≤ width) × (result ≡ ones (value a)) }
{
    let low = u64::count_ones(a.low);
    if a.high == 0 {
        low
    } else {
        low + u64::count_ones(a.high)
    }
}

// The number of the lowest set cell.
pub fn lowest(a: Word) -> u32
    requires { value a ≢ 0 }
    ensures { (result < width) × (result ≡ count_trailing_zeros width (value a)) × (value a < 2 ^ width) }
{
    if a.low == 0 {
        64 + u64::trailing_zeros(a.high)
    } else {
        u64::trailing_zeros(a.low)
    }
}

// All set cells but the lowest.
pub fn rest(a: Word) -> Word
    requires { value a ≢ 0 }
    ensures { value result ≡ bit_and (value a) (value a - 1) }
{
    if a.low == 0 {
        Word {
            low: 0,
            high: a.high & (a.high - 1),
        }
    } else {
        Word {
            low: a.low & (a.low - 1),
            high: a.high,
        }
    }
}
