// Encoding, as the tables of BCH codes have it: a word without its last cell is a polynomial, cell i the coefficient of x^i, and belongs
// to the code if the generator polynomial divides it. The last cell makes the number of ones even.
ghost use Rattle.std.specs.Prelude.{◌≡◌, ◌+◌, ◌-◌, ◌<◌, ◌≤◌, length, slice_index};
ghost use Rattle.second.specs.Working.Loops.{written};
ghost use Rattle.second.specs.Working.Encoding.{first_of, coefficient_of, divided, remainder_of, checked_line, encoded_line, encoded_to, message_cells, message_area, message_place};

use crate::arrays::Cells;
use crate::codes::{Code, constants_of};
use crate::codewords::Line;
use crate::lines::like;

// Room for the longest message: the first k by k cells count.
pub type Message = [u8; 12769];

impl Code {
    // 2v, the first message cell of a line: the cells below it are check cells.
    fn first_message_cell(self) -> usize
        ensures { (result ≡ first_of self.n) × (result ≤ 14) × (self.n ≤ 114 + result) }
    {
        (2 * constants_of(self.n).degree) as usize
    }

    // One step of the division: the rest moves up, the next coefficient comes in below, and where x^(2v) comes up, which is n times n,
    // the generator polynomial is taken off. (The last remainder changes nothing: it tells the checker that the rest is small.)
    fn divide(self, rest: u64, coefficient: u64) -> u64
        requires { (rest < 16384) × (coefficient < 256) }
        ensures { (result ≡ divided self.n rest coefficient) × (result < 16384) }
    {
        let moved = 2 * rest + coefficient;
        if moved < self.area() as u64 {
            moved
        } else {
            (moved ^ constants_of(self.n).generator) % 16384
        }
    }

    // The coefficient of x^i: cell i, or 0 for a check cell.
    fn coefficient(self, i: usize, line: Line) -> u64
        requires { i < 128 }
        ensures { (result ≡ coefficient_of self.n i line) × (result < 256) }
    {
        if i < self.first_message_cell() {
            0
        } else {
            u64::from(line[i])
        }
    }

    // The rest of the message cells, from the highest down; the check cells come in as 0.
    fn remainder(self, line: Line) -> u64
        ensures { (result ≡ remainder_of self.n line (self.n - 1)) × (result < 16384) }
    {
        let last = self.n.saturating_sub(1);
        let mut rest = 0;
        for j in 0..last {
            rest = self.divide(rest, self.coefficient(last - 1 - j, line));
        }
        rest
    }

    // The line with bit i of a number in check cell i.
    fn put_checks(self, checks: u64, line: Line) -> Line
        requires { checks < 16384 }
        ensures { result ≡ checked_line self.n checks line }
    {
        let mut checked = line;
        for i in 0..self.first_message_cell() {
            checked[i] = ((checks >> i) % 2) as u8;
        }
        checked
    }

    // The line with check cells that make it a codeword.
    pub fn encode_line(self, line: Line) -> Line
        ensures { result ≡ encoded_line self.n line }
    {
        let last = self.n.saturating_sub(1);
        let mut whole = self.put_checks(self.remainder(line), line);
        whole[last] = (like(1, &whole[..last]) % 2) as u8;
        whole
    }

    // The check cells of an array from its message cells: those of every row, then those of every column, so that the checks on checks
    // come from the columns.
    pub fn encode_array(self, cells: &mut Cells)
        ensures { cells.new ≡ encoded_to self.n (self.n + self.n) cells.old }
    {
        for i in 0..self.n + self.n {
            let line = self.encode_line(self.take_line(i, cells));
            self.put_line(i, line, cells);
        }
    }

    // k, the message cells of a line: 2v to n - 2.
    fn message_cells(self) -> usize
        ensures { (result ≡ message_cells self.n) × (15 < self.n → 0 < result) × (result ≤ 113) }
    {
        self.n.saturating_sub(1 + self.first_message_cell())
    }

    // k by k.
    pub fn message_area(self) -> usize
        ensures { (result ≡ message_area self.n) × (15 < self.n → 0 < result) × (result ≤ 12769) }
    {
        let k = self.message_cells();
        k * k
    }

    // The place of message cell p in its array: rows 2v to n - 2 have k message cells each, 2v to n - 2. (The last remainder changes
    // nothing: it tells the checker that the place is within the array.)
    fn message_place(self, p: usize) -> usize
        requires { p < message_area self.n }
        ensures { (result ≡ message_place self.n p) × (result < 16384) }
    {
        let first = self.first_message_cell();
        let k = self.message_cells();
        ((first + p / k) * self.n + (first + p % k)) % 16384
    }

    // The array with a message in its message cells.
    pub fn put_message(self, message: &[u8], cells: &mut Cells)
        requires { length message.now ≡ message_area self.n }
        ensures { cells.new ≡ written (message_place self.n) (λ p. slice_index message.now p) (message_area self.n) cells.old }
    {
        for p in 0..self.message_area() {
            cells[self.message_place(p)] = message[p];
        }
    }

    // The message cells as they are, unsure ones too.
    pub fn extract(self, cells: &Cells, message: &mut Message)
        ensures { message.new ≡ written (λ p. p) (λ p. slice_index cells.now (message_place self.n p)) (message_area self.n) message.old }
    {
        for p in 0..self.message_area() {
            message[p] = cells[self.message_place(p)];
        }
    }
}
