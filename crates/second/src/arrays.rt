// Arrays: the plain decoding, as document 01 sets it out, and what is told of its end. Lines 0 to n - 1 are the rows, lines n to
// 2n - 1 the columns.
ghost use Rattle.std.specs.Prelude.{◌≡◌, ◌+◌, ◌*◌, ◌<◌, ◌≤◌, ◌&&◌, ◌==◌, length};
ghost use Rattle.second.specs.Working.Loops.{Below};
ghost use Rattle.second.specs.Working.Arrays.{all_below, place_of, taken_line, with_line, bad_lines, unsure_in};

use crate::codes::Code;
use crate::codewords::{Decoder, Line};
use crate::lines::{FillingWord, one_if, unsure};
use crate::tallies::Clauses;

// The cells of an array: the first n times n count, and the others are 0.
pub type Cells = [u8; 16384];

// Is each cell below a bound?
pub fn all_below(bound: u8, cells: &[u8]) -> bool
    ensures { result ≡ all_below bound cells.now }
{
    cells.iter().all(|cell| *cell < bound)
}

impl Code {
    // The place of cell j of line i.
    fn place(self, i: usize, j: usize) -> usize
        requires { (i < self.n + self.n) × (j < self.n) }
        ensures { (result ≡ place_of self.n i j) × (result < 16384) }
    {
        let n = self.n;
        if i < n { i * n + j } else { j * n + (i - n) }
    }

    // Line i of an array.
    pub fn take_line(self, i: usize, cells: &Cells) -> Line
        requires { 0 < self.n → i < self.n + self.n }
        ensures { result ≡ taken_line self.n i cells.now }
    {
        let mut line = [0u8; 128];
        for j in 0..self.n {
            line[j] = cells[self.place(i, j)];
        }
        line
    }

    pub fn put_line(self, i: usize, line: Line, cells: &mut Cells)
        requires { 0 < self.n → i < self.n + self.n }
        ensures { cells.new ≡ with_line self.n i line cells.old }
    {
        for j in 0..self.n {
            cells[self.place(i, j)] = line[j];
        }
    }

    // How many cells are unsure.
    fn unsure_in(self, cells: &Cells) -> u64
        ensures { (result ≡ unsure_in self.n cells.now) × (result ≤ 128 * self.n) }
    {
        let mut many = 0;
        for i in 0..self.n {
            many += unsure(&self.take_line(i, cells)[..self.n]);
        }
        many
    }
}

// How many rows and how many columns are no codewords, and how many cells are unsure.
#[derive(Clone, Copy)]
pub struct Faults {
    pub rows: u64,
    pub columns: u64,
    pub unsure: u64,
}

impl Faults {
    // "No cell is unsure and each row and each column is a codeword."
    pub fn is_closed(self) -> bool
        ensures { result ≡ (self.unsure == 0 && (self.rows == 0 && self.columns == 0)) }
    {
        (self.unsure == 0) & ((self.rows == 0) & (self.columns == 0))
    }
}

impl Decoder {
    // Line i of the new sheet, from line i of the sheet before the half and of the received one; gives the line's count.
    fn renew_line(
        &self,
        i: usize,
        received: &Cells,
        filling: FillingWord,
        cells: &mut Cells,
        met: &mut Clauses,
    ) -> u64
        requires { 0 < self.now.code.n → i < self.now.code.n + self.now.code.n }
        ensures { (result ≤ 258) × (Below 3 received.now → Below 3 cells.old → Below 3 cells.new) }
    {
        let code = self.code;
        let incoming = code.take_line(i, cells);
        let channel = code.take_line(i, received);
        let sent = self.messages(incoming, channel, filling, met);
        code.put_line(i, sent.line, cells);
        sent.count
    }

    // The plain decoding of what the receiver gave, which stands in `cells` too; gives the count. The filling words are in order of
    // halves and then of lines, so each serves the next line: rows, then columns, and again. The lines of a half share no cell, so each
    // stands as it was before the half until its turn.
    pub fn decode_array(
        &self,
        received: &Cells,
        filling: &[FillingWord],
        cells: &mut Cells,
        met: &mut Clauses,
    ) -> u64
        requires { length filling.now ≤ 5120 }
        ensures { (result ≤ 258 * length filling.now) × (Below 3 received.now → Below 3 cells.old → Below 3 cells.new) }
    {
        let lines = (2 * self.code.n).max(1);
        let mut sum = 0;
        for (w, word) in filling.iter().enumerate() {
            sum += self.renew_line(w % lines, received, *word, cells, met);
        }
        sum
    }

    // How many of the n lines from `first` on are no codewords, an unsure cell read as 0: the rows from line 0 on, the columns from line
    // n on.
    fn bad_lines(&self, first: usize, cells: &Cells) -> u64
        requires { first ≤ self.now.code.n }
        ensures { (result ≡ bad_lines self.now.code.n first self.now.weights cells.now) × (result ≤ self.now.code.n) }
    {
        let mut bad = 0;
        for i in 0..self.code.n {
            let sum = self.syndrome(self.code.take_line(first + i, cells));
            bad += one_if(sum != 0);
        }
        bad
    }

    pub fn faults_in(&self, cells: &Cells) -> Faults
        ensures { (result.rows ≡ bad_lines self.now.code.n 0 self.now.weights cells.now) × (result.columns ≡ bad_lines self.now.code.n self.now.code.n self.now.weights cells.now) × (result.unsure ≡ unsure_in self.now.code.n cells.now) }
    {
        Faults {
            rows: self.bad_lines(0, cells),
            columns: self.bad_lines(self.code.n, cells),
            unsure: self.code.unsure_in(cells),
        }
    }
}
