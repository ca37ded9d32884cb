// What is printed: a text that grows byte by byte, in room for the longest.
ghost use Rattle.std.specs.Prelude.{◌≡◌, ℕ, List, [], ◌∷◌, ◌++◌, map, ◌+◌, ◌*◌, ◌<◌, ◌≤◌, length, take};
ghost use Rattle.text.specs.Text.{char_of, decimal, number_text, numbers_text, line_text, array_text, report_text, refusal_text};
ghost use Rattle.text.specs.Writing.{Wrote};

use crate::turning::{char_of, turn_line};
use array::report::Report;
use std::marker::Model;

// Four numbers of 21 bytes at most, and 128 lines of 129 bytes at most.
pub const LONGEST: usize = 16596;

#[derive(Drop)]
pub struct Output {
    bytes: [u8; LONGEST],
    long: usize,
}

// Clauses see the text so far.
impl Model for Output {
    ghost Value = { List ℕ };

    ghost view = { λ o. take o.long o.bytes };

    ghost invariant = { λ o. o.long ≤ 16596 };
}

impl Output {
    pub fn new() -> Output
        ensures { result ≡ [] }
    {
        Output {
            bytes: [0; LONGEST],
            long: 0,
        }
    }

    // One byte more.
    fn put(&mut self, byte: u8)
        requires { length self.old < 16596 }
        ensures { self.new ≡ self.old ++ byte ∷ [] }
    {
        self.bytes[self.long] = byte;
        self.long += 1;
    }

    // By hand, since std prints a number by `write!`, whose error no clause rules out, or into memory that it allocates.
    fn put_decimal(&mut self, number: u64)
        requires { length self.old + length (decimal number) ≤ 16596 }
        ensures { self.new ≡ self.old ++ decimal number }
    {
        if number < 10 {
            self.put(b'0' + number as u8);
        } else {
            self.put_decimal(number / 10);
            self.put(b'0' + (number % 10) as u8);
        }
    }

    // A number, which has 20 digits at most, and the byte after it.
    fn put_number(&mut self, number: u64, end: u8)
        requires { length self.old + 21 ≤ 16596 }
        ensures text { self.new ≡ self.old ++ number_text number end }
        ensures short { length self.new ≤ length self.old + 21 }
    {
        self.put_decimal(number);
        self.put(end);
    }

    // The first line.
    fn put_numbers(&mut self, a: u64, b: u64, c: u64, e: u64)
        requires { length self.old + 84 ≤ 16596 }
        ensures text { self.new ≡ self.old ++ numbers_text a b c e }
        ensures short { length self.new ≤ length self.old + 84 }
    {
        self.put_number(a, b' ');
        self.put_number(b, b' ');
        self.put_number(c, b' ');
        self.put_number(e, b'\n');
    }

    // The cells of a line. They are written at once: put one by one, the length so far would be stored and read for each.
    fn put_cells(&mut self, cells: &[u8])
        requires { length self.old + length cells.now ≤ 16596 }
        ensures { self.new ≡ self.old ++ map char_of cells.now }
    {
        let at = self.long;
        let end = at + cells.len();
        turn_line(|cell| char_of(cell), cells, &mut self.bytes[at..end]);
        self.long = end;
    }

    // A line of cells, and a newline.
    fn put_line(&mut self, cells: &[u8])
        requires { length self.old + length cells.now + 1 ≤ 16596 }
        ensures { self.new ≡ self.old ++ line_text cells.now }
    {
        self.put_cells(cells);
        self.put(b'\n');
    }

    // The n lines of n cells.
    fn put_lines(&mut self, n: usize, cells: &[u8])
        requires { (n ≤ 128) × (length cells.now ≡ n * n) × (length self.old + n * (n + 1) ≤ 16596) }
        ensures { self.new ≡ self.old ++ array_text n cells.now }
    {
        for i in 0..n {
            let at = i * n;
            self.put_line(&cells[at..at + n]);
        }
    }

    // All that is printed for a call that was taken.
    pub fn put_report(&mut self, n: usize, cells: &[u8], report: Report)
        requires { (self.old ≡ []) × (n ≤ 128) × (length cells.now ≡ n * n) }
        ensures { self.new ≡ report_text n cells.now report.count report.erasures report.closed }
    {
        let shut = u64::from(report.closed);
        self.put_numbers(0, report.count, report.erasures, shut);
        self.put_lines(n, cells);
    }

    pub fn put_refusal(&mut self, number: u64)
        requires { self.old ≡ [] }
        ensures { self.new ≡ refusal_text number }
    {
        self.put_numbers(number, 0, 0, 0);
    }

    // The text, written to the front of a slice; returns its length.
    pub fn copy_to(&self, output: &mut [u8]) -> usize
        requires { 16596 ≤ length output.old }
        ensures { Wrote output.old 0 self.now output.new result }
    {
        let long = self.long;
        output[..long].copy_from_slice(&self.bytes[..long]);
        long
    }
}
