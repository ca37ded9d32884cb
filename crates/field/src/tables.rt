// The tables that are made of the powers of α: once for a decoding, then lent to the functions that read them.
ghost use Rattle.std.specs.Prelude.{◌≡◌, ◌≢◌, ℕ, ◌<◌, length, get_or};
ghost use Rattle.degree.specs.Degree.{size, order};
ghost use Rattle.laws.specs.Digits.{sum_over, digits};
ghost use Rattle.words.specs.Working.Word.{value, width};
ghost use Rattle.field.specs.Field.{power};
ghost use Rattle.field.specs.Working.Tables.{Weights, Logs, Sums, Empty, Filled, weight};
ghost use Rattle.field.specs.Working.Building.{Block};

use crate::alpha::powers_of;
pub use crate::alpha::reduced;
use degree::{Degree, order_of, size_of};
use words::word::Word;
use words::word::sums::byte_sum;

// Room for the numbers of the tables. They stay where it is made, and the tables refer to them: the tables by value would be
// copied, which takes longer than to make them.
#[derive(Clone, Copy)]
pub struct FieldEntries {
    weights: [u16; 128], // of each cell of a word: its check sums side by side in one number, so that one look-up adds all three
    logs: [u16; 128], // of each element but 0: its exponent
    sums: [u16; 4096], // for each byte of a word a block of 256 sums of weights, one for each value of the byte
    last: usize, // n - 1: read faster than a degree is told apart
}

// The tables of a degree.
#[derive(Clone, Copy)]
pub struct FieldTables<'a> {
    pub degree: Degree,
    entries: &'a FieldEntries,
    ghost made: { Filled degree entries.now },
}

// Entry i, for each cell i of a word: its weight. The last cell counts for the parity alone.
fn put_weights(d: Degree, weights: &mut [u16; 128])
    requires { (i : ℕ) → get_or weights.old i 0 ≡ 0 }
    ensures { Weights d weights.new }
{
    let powers = powers_of(d);
    let mut cube = 0; // the exponent below n - 1 of the cube of α^i
    for (i, power) in powers.iter().enumerate() {
        weights[i] = *power + 128 * (powers[cube] + 128);
        cube = reduced(d, cube + 3);
    }
    weights[powers.len()] = 16384;
}

// Entry α^i: the number i.
fn put_logs(d: Degree, logs: &mut [u16; 128])
    ensures { Logs d logs.new }
{
    let powers = powers_of(d);
    for (i, power) in powers.iter().enumerate() {
        logs[*power as usize] = i as u16;
    }
}

// The sums of eight weights, over the bits of a byte. Each weight doubles what is made, with the weight added.
fn put_block(weights: &[u16], block: &mut [u16])
    requires { (length weights.now ≡ 8) × (length block.old ≡ 256) }
    ensures { Block weights.now 256 block.new }
{
    block[0] = 0;
    let mut size = 1;
    for weight in weights {
        let weight = *weight; // read once, so that the entries are made several at a time
        for x in 0..size {
            block[size + x] = block[x] ^ weight;
        }
        size *= 2;
    }
}

// Block j is for the cells from 8 j on. Past n there is no cell, and the blocks there stay as they are.
fn put_sums(d: Degree, weights: &[u16; 128], sums: &mut [u16; 4096])
    requires { Weights d weights.now × ((i : ℕ) → get_or sums.old i 0 ≡ 0) }
    ensures { Sums d sums.new }
{
    for j in 0..size_of(d) / 8 {
        put_block(
            &weights[8 * j..8 * j + 8],
            &mut sums[256 * j..256 * j + 256],
        );
    }
}

impl FieldEntries {
    // Zeros.
    pub fn new() -> FieldEntries
        ensures { Empty result }
    {
        FieldEntries {
            weights: [0; 128],
            logs: [0; 128],
            sums: [0; 4096],
            last: 0,
        }
    }

    // Blocks of sums that are not put are 0, as the weights past n are.
    fn fill(&mut self, d: Degree)
        requires { Empty self.old }
        ensures { Filled d self.new }
    {
        put_weights(d, &mut self.weights);
        put_logs(d, &mut self.logs);
        put_sums(d, &self.weights, &mut self.sums);
        self.last = order_of(d);
    }
}

impl<'a> FieldTables<'a> {
    // The tables of a degree, made in entries that are 0.
    pub fn new(degree: Degree, entries: &'a mut FieldEntries) -> FieldTables<'a>
        requires { Empty entries.old }
        ensures { result.degree ≡ degree }
    {
        entries.fill(degree);
        FieldTables { degree, entries }
    }

    // n - 1.
    pub fn order(&self) -> usize
        ensures { result ≡ order self.now.degree }
    {
        self.entries.last
    }

    // That an exponent is below n - 1 is asked, and no type keeps it: it would carry the degree once more, beside the tables.

    // The check sums of a word whose one 1 is cell i, side by side.
    pub fn weight(&self, i: usize) -> u16
        requires { i < order self.now.degree }
        ensures { result ≡ weight self.now.degree i }
    {
        self.entries.weights[i]
    }

    // The exponent of an element that is not 0.
    pub fn log(&self, x: u16) -> usize
        requires { (x < size self.now.degree) × (x ≢ 0) }
        ensures { (result < order self.now.degree) × (power self.now.degree result ≡ x) }
    {
        self.entries.logs[x as usize] as usize
    }

    // The weights of the cells that hold 1, summed byte by byte.
    pub fn weight_sum(&self, word: &Word) -> u16
        ensures { result ≡ sum_over (λ i. weight self.now.degree i) (digits width (value word.now)) }
    {
        byte_sum(word, &self.entries.sums, 0)
    }
}
