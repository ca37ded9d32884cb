// What the program `sheet` reads and prints, read and printed here anew from document 01.
ghost use Rattle.std.specs.Prelude.{◌≡◌, ◌+◌, ◌≤◌, cond, nat_lt, replicate, slice_set};
ghost use Rattle.second.specs.Working.Refusals.{refusal_in};

use crate::arrays::Cells;
use crate::codes::Code;
use crate::codewords::Decoder;
use crate::lines::FillingWord;
use crate::refusals::{Refusal, ask};
use crate::tallies::Clauses;
use std::fmt;
use std::fmt::Write;

// A text, with room for the longest.
#[derive(Clone, Copy)]
pub struct Page {
    pub bytes: [u8; 16700],
    pub length: usize,
    pub ghost within: { length ≤ 16700 },
}

// What comes after the room is full is left out.
impl Write for Page {
    fn write_str(&mut self, text: &str) -> fmt::Result {
        for byte in text.as_bytes() {
            self.put_byte(*byte);
        }
        Ok(())
    }
}

impl Page {
    pub fn empty() -> Page
        ensures { (result.length ≡ 0) × (result.bytes ≡ replicate 16700 0) }
    {
        Page {
            bytes: [0; 16700],
            length: 0,
        }
    }

    fn put_byte(&mut self, byte: u8)
        ensures length { self.new.length ≡ cond (nat_lt self.old.length 16700) (self.old.length + 1) self.old.length }
        ensures bytes { self.new.bytes ≡ cond (nat_lt self.old.length 16700) (slice_set self.old.bytes self.old.length byte) self.old.bytes }
    {
        if self.length < 16700 {
            self.bytes[self.length] = byte;
            self.length += 1;
        }
    }

    // The cells of a row as characters, and a newline.
    fn put_row(&mut self, cells: &[u8]) {
        for cell in cells {
            self.put_byte(if *cell == 2 { b'?' } else { b'0' + *cell % 2 });
        }
        self.put_byte(b'\n');
    }

    // The n lines of an array.
    pub fn put_lines(&mut self, code: Code, cells: &Cells) {
        let n = code.n;
        for i in 0..n {
            self.put_row(&cells[i * n..i * n + n]);
        }
    }
}

// The cells of the lines of an input. Newlines stand at the ends of lines and nowhere else, so each other byte is the next cell.
fn read_lines(code: Code, lines: &[u8], cells: &mut Cells) -> Result<(), Refusal>
    ensures { refusal_in result ≤ 4 }
{
    let n = code.n;
    ask(
        lines
            .iter()
            .enumerate()
            .all(|(p, byte)| (*byte == b'\n') == (p % (n + 1) == n)),
        Refusal::Length,
    )?;
    ask(
        lines
            .iter()
            .all(|byte| matches!(*byte, b'\n' | b'0' | b'1' | b'?')),
        Refusal::Cell,
    )?;
    let characters = lines.iter().filter(|byte| **byte != b'\n');
    for (cell, byte) in cells.iter_mut().zip(characters) {
        *cell = if *byte == b'?' { 2 } else { *byte % 2 };
    }
    Ok(())
}

// The length of the lines of an input with a degree's digit, whose number is its last four bits: n lines of n cells and a newline.
fn long_of(digit: u8) -> usize {
    let code = Code::of_degree(u64::from(digit % 16));
    code.area() + code.n
}

// The cells of an input.
fn read_input(code: Code, input: &[u8], cells: &mut Cells) -> Result<(), Refusal>
    ensures { refusal_in result ≤ 4 }
{
    match input {
        [digit @ (b'4' | b'6' | b'7'), b'\n', lines @ ..] => {
            ask(lines.len() == long_of(*digit), Refusal::Length)?;
            read_lines(code, lines, cells)
        }
        _ => Err(Refusal::Degree),
    }
}

impl Decoder {
    // The count, the unsure cells, closed, and the lines of a decoding of one iteration with filling bits of zero.
    fn put_decoded(&self, received: &Cells, page: &mut Page) -> fmt::Result {
        let filling = [FillingWord { low: 0, high: 0 }; 256];
        let mut cells = *received;
        let words = &filling[..2 * self.code.n];
        let count = self.decode_array(received, words, &mut cells, &mut Clauses::none());
        let left = self.faults_in(&cells);
        let unsure = left.unsure;
        let closed = u64::from(left.is_closed());
        writeln!(page, "0 {count} {unsure} {closed}")?;
        page.put_lines(self.code, &cells);
        Ok(())
    }

    // What is printed for an input.
    pub fn sheet_text(&self, input: &[u8]) -> Page {
        let mut received = [0u8; 16384];
        let mut page = Page::empty();
        let _ = match read_input(self.code, input, &mut received) {
            Ok(()) => self.put_decoded(&received, &mut page),
            Err(why) => {
                let number = u64::from(why);
                writeln!(page, "{number} 0 0 0")
            }
        };
        page
    }
}
