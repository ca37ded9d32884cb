// Full words: what a codeword is, by its definition, and bounded-distance decoding by trying flips.
//
// The three facts of a codeword stand side by side in one number, the syndrome: the sum of α^i in bits 0 to 6, the sum of
// α^(3i) in bits 7 to 13, and in bit 14 whether the number of ones is odd. Each cell has a weight, which is what a one there adds.
ghost use Rattle.std.specs.Prelude.{◌≡◌, ◌-◌, ◌<◌, ◌≤◌, replicate, if◌then◌else◌, bit_xor, nat_eq, slice_set, IfSome};
ghost use Rattle.second.specs.Working.Loops.{Below, written};
ghost use Rattle.second.specs.Working.Codes.{times_alpha, power_of, weight_of, syndrome_of};

use crate::codes::{Code, constants_of};

// The first n of its cells count, and the others are 0.
pub type Line = [u8; 128];

pub type Weights = [usize; 128];

impl Code {
    // x times α. Bit i is the coefficient of α^i, so every bit moves up by one; where α^v comes up, which is bit n, the polynomial of the
    // field, which is zero, is added. The remainder changes nothing: it tells the checker that an element is small.
    fn times_alpha(self, x: usize) -> usize
        requires { x < 128 }
        ensures { (result ≡ times_alpha self.n x) × (result < 128) }
    {
        let shifted = x * 2;
        if shifted < self.n {
            shifted
        } else {
            (shifted ^ constants_of(self.n).polynomial) % 128
        }
    }

    // α^exponent, made from the polynomial alone.
    fn power(self, exponent: usize) -> usize
        ensures { (result ≡ power_of self.n exponent) × (result < 128) }
    {
        let mut x = 1;
        for _ in 0..exponent {
            x = self.times_alpha(x);
        }
        x
    }

    // The weights of all n cells of a line. The last cell has a part in the number of ones alone.
    pub fn weights(self) -> Weights
        ensures { result ≡ slice_set (written (λ i. i) (weight_of self.n) (self.n - 1) (replicate 128 0)) (self.n - 1) 16384 }
    {
        let last = self.n.saturating_sub(1);
        let mut weights = [0usize; 128];
        for i in 0..last {
            weights[i] = 16384 + 128 * self.power(3 * i) + self.power(i);
        }
        weights[last] = 16384;
        weights
    }
}

// A code with the weights of its cells, by which it decodes.
#[derive(Clone, Copy)]
pub struct Decoder {
    pub code: Code,
    pub weights: Weights,
}

// A sum, with the weight of a cell where that holds 1.
fn added(sum: usize, cell: u8, weight: usize) -> usize
    ensures { result ≡ bit_xor sum (if nat_eq cell 1 then weight else 0) }
{
    if cell == 1 { sum ^ weight } else { sum }
}

// The word with a cell flipped.
fn flip(cell: usize, word: Line) -> Line
    requires { cell < 128 }
    ensures { Below 2 word → Below 2 result }
{
    let mut flipped = word;
    flipped[cell] ^= 1;
    flipped
}

impl Decoder {
    pub fn of(code: Code) -> Decoder
        ensures code { result.code.n ≡ code.n }
        ensures weights { result.weights ≡ slice_set (written (λ i. i) (weight_of code.n) (code.n - 1) (replicate 128 0)) (code.n - 1) 16384 }
    {
        Decoder {
            code,
            weights: code.weights(),
        }
    }

    // The syndrome of a word: the sum of the weights of the cells that hold 1.
    pub fn syndrome(&self, word: Line) -> usize
        ensures { result ≡ syndrome_of self.now.code.n self.now.weights word }
    {
        let mut sum = 0;
        for i in 0..self.code.n {
            sum = added(sum, word[i], self.weights[i]);
        }
        sum
    }

    // The first cell from a place on whose flip adds what is wanted to the syndrome.
    fn flip_adding(&self, from: usize, wanted: usize) -> Option<usize>
        ensures { IfSome result (λ cell. cell < self.now.code.n) }
    {
        (from..self.code.n).find(|cell| self.weights[*cell] == wanted)
    }

    // The word with this cell flipped.
    fn one_flip(&self, from: usize, wanted: usize, word: Line) -> Option<Line>
        ensures { IfSome result (λ found. Below 2 word → Below 2 found) }
    {
        self.flip_adding(from, wanted).map(
            |cell|
                requires { cell < 128 }
                ensures { Below 2 word → Below 2 result }
            { flip(cell, word) },
        )
    }

    // Is there a cell from a place on whose flip adds what is wanted? All are looked at, without a branch, which is quicker than to stop at the first.
    fn one_adds(&self, from: usize, wanted: usize) -> bool
        requires { from ≤ self.now.code.n }
    {
        let mut adds = false;
        for weight in &self.weights[from..self.code.n] {
            adds |= *weight == wanted;
        }
        adds
    }

    // The first cell whose flip, with that of a later one, adds what is wanted: tried is every cell with every later one.
    fn first_of_two(&self, wanted: usize) -> Option<usize>
        ensures { IfSome result (λ cell. cell < self.now.code.n) }
    {
        (0..self.code.n).find(|i| self.one_adds(i + 1, wanted ^ self.weights[*i]))
    }

    // The word with two cells flipped. It is copied only where there are two: a copy for each cell tried would take longer than the search.
    fn two_flips(&self, sum: usize, word: Line) -> Option<Line>
        ensures { IfSome result (λ found. Below 2 word → Below 2 found) }
    {
        let i = self.first_of_two(sum)?;
        self.one_flip(i + 1, sum ^ self.weights[i], flip(i, word))
    }

    // Bounded distance: the codeword within 2, where there is one. Tried are no flip, one, and then two.
    pub fn bounded_distance(&self, word: Line) -> Option<Line>
        ensures { IfSome result (λ found. Below 2 word → Below 2 found) }
    {
        let sum = self.syndrome(word);
        if sum == 0 {
            Some(word)
        } else {
            self.one_flip(0, sum, word)
                .or_else(|| self.two_flips(sum, word))
        }
    }
}
