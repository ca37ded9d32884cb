// Sheets in blocks, read and written here anew from document 02. A degree 6 sheet is kept as three blocks of 512 bytes. Byte 0 is the
// block's number, byte 1 is 6, bytes 2 and 3 are the sheet number; then come 31 rows of 16 bytes, ten bytes of zero, and two sums.
ghost use Rattle.std.specs.Prelude.{◌≡◌, ◌%◌, ◌<◌, ◌≤◌, length};
ghost use Rattle.std.specs.Result.{result_unwrap_or};
ghost use Rattle.second.specs.Working.Loops.{written};
ghost use Rattle.second.specs.Working.Refusals.{refusal_in};
ghost use Rattle.second.specs.Working.Blocks.{head_byte, row_of, packed, row_byte, block_byte, with_bytes, byte_in, sum_a, sum_b, with_sums, summed, heads_right, sums_right, all_sums_right, no_three, row_byte_right, byte_right, all_bytes_right, content_refusal, read_refusal, write_refusal, cell_in, file_cell, number_in, ReadOrKept, WrittenOrKept};

use crate::arrays::all_below;
use crate::refusals::{Refusal, ask};

// The cells of a sheet.
pub type Sheet = [u8; 4096];

// The bytes of a file.
pub type File = [u8; 1536];

// One of the three blocks of a file.
#[derive(Clone, Copy)]
struct Block {
    number: usize,
    ghost in_file: { number < 3 },
}

// ---- the bytes of a sheet

// Two bits of a byte for a cell.
fn two_bits(cell: u8) -> u64
    ensures { (result ≡ cell % 4) × (result < 4) }
{
    u64::from(cell % 4)
}

// Four cells: "two bits a cell, cell 0 lowest".
fn pack_four(cells: &Sheet, i: usize) -> u8
    requires { i ≤ 4092 }
    ensures { result ≡ packed cells.now i }
{
    let low = two_bits(cells[i]) + 4 * two_bits(cells[i + 1]);
    let high = two_bits(cells[i + 2]) + 4 * two_bits(cells[i + 3]);
    (low + 16 * high) as u8
}

// Byte q of a row: "block 2 holds rows 62 and 63 and then zeros".
fn row_byte(cells: &Sheet, row: usize, q: usize) -> u8
    requires { q < 16 }
    ensures { result ≡ row_byte cells.now row q }
{
    if row < 64 {
        pack_four(cells, 64 * row + 4 * q)
    } else {
        0
    }
}

impl Block {
    // Bytes 0 to 3 of a block: "Byte 0 is the block's number, 0 to 2; byte 1 is 6; bytes 2 and 3 are the sheet number, high byte first."
    fn head_byte(self, sheet: u64, p: usize) -> u8
        ensures { result ≡ head_byte sheet self.number p }
    {
        match p {
            0 => self.number as u8,
            1 => 6,
            2 => (sheet / 256 % 256) as u8,
            _ => (sheet % 256) as u8,
        }
    }

    // Which byte of a block is meant is a number with a bound: a place in the file is reckoned from it.

    // The row of byte p of a block: "Bytes 4 to 499 hold 31 rows of 16 bytes".
    fn row_of(self, p: usize) -> usize
        requires { (4 ≤ p) × (p < 512) }
        ensures { result ≡ row_of self.number p }
    {
        31 * self.number + (p - 4) / 16
    }

    // Byte p of a block: "Bytes 500 to 509 are zero." Here its sums are 0 too.
    fn byte(self, sheet: u64, cells: &Sheet, p: usize) -> u8
        requires { p < 512 }
        ensures { result ≡ block_byte sheet cells.now self.number p }
    {
        if p < 4 {
            self.head_byte(sheet, p)
        } else if p < 500 {
            row_byte(cells, self.row_of(p), (p - 4) % 16)
        } else {
            0
        }
    }
}

// All bytes of a file but the sums. A room may be longer than a file.
fn put_bytes(number: u64, cells: &Sheet, file: &mut [u8])
    requires { 1536 ≤ length file.old }
    ensures { file.new ≡ with_bytes number cells.now file.old }
{
    for at in 0..1536 {
        let block = Block { number: at / 512 };
        file[at] = block.byte(number, cells, at % 512);
    }
}

// ---- the sums of a block

#[derive(Clone, Copy)]
struct Sums {
    a: u64,
    b: u64,
}

impl Block {
    // "The two Fletcher sums A and B modulo 255 of bytes 0 to 509, both starting at 0; each byte is added to A, then A to B."
    fn sums_of(self, file: &[u8]) -> Sums
        requires { 1536 ≤ length file.now }
        ensures { (result.a ≡ sum_a (byte_in file.now self.number) 510) × (result.b ≡ sum_b (byte_in file.now self.number) 510) × (result.a < 255) × (result.b < 255) }
    {
        let mut a: u64 = 0;
        let mut b: u64 = 0;
        for p in 0..510 {
            a = (a + u64::from(file[512 * self.number + p])) % 255;
            b = (b + a) % 255;
        }
        Sums { a, b }
    }

    // "Bytes 510 and 511".
    fn put_sums(self, file: &mut [u8])
        requires { 1536 ≤ length file.old }
        ensures { file.new ≡ with_sums self.number file.old }
    {
        let sums = self.sums_of(file);
        file[512 * self.number + 510] = sums.a as u8;
        file[512 * self.number + 511] = sums.b as u8;
    }
}

// The sums of all blocks.
pub fn sum_blocks(file: &mut [u8])
    requires { 1536 ≤ length file.old }
    ensures { file.new ≡ summed 3 file.old }
{
    for number in 0..3 {
        Block { number }.put_sums(file);
    }
}

// ---- the writer

// All bytes, and then the sums of them.
pub fn put_blocks(number: u64, cells: &Sheet, file: &mut [u8])
    requires { 1536 ≤ length file.old }
    ensures { file.new ≡ summed 3 (with_bytes number cells.now file.old) }
{
    put_bytes(number, cells, file);
    sum_blocks(file);
}

// Writes a sheet and its number.
pub fn write_blocks(number: u64, cells: &[u8], file: &mut [u8]) -> Result<(), Refusal>
    ensures refusal { refusal_in result ≡ write_refusal cells.now (length file.old) }
    ensures left { WrittenOrKept number cells.now file.old (refusal_in result) file.new }
{
    let sheet = <&Sheet>::try_from(cells).map_err(|_| Refusal::Length)?;
    ask(file.len() == 1536, Refusal::Length)?;
    ask(all_below(3, cells), Refusal::Cell)?;
    put_blocks(number, sheet, file);
    Ok(())
}

// ---- the tests of a file

// The sheet number of block 0: "high byte first".
fn number_in(file: &File) -> u64
    ensures { result ≡ number_in file.now }
{
    256 * u64::from(file[2]) + u64::from(file[3])
}

// "5: .. a wrong byte 0 or 1, or sheet numbers that differ": each block has its own first four bytes, with the number of block 0.
fn heads_right(file: &File) -> bool
    ensures { result ≡ heads_right file.now }
{
    let number = number_in(file);
    let mut right = true;
    for i in 0..12 {
        let block = Block { number: i / 4 };
        right &= file[512 * (i / 4) + i % 4] == block.head_byte(number, i % 4);
    }
    right
}

impl Block {
    // "6: a sum that fails".
    fn sums_right(self, file: &File) -> bool
        ensures { result ≡ sums_right file.now self.number }
    {
        let sums = self.sums_of(file);
        let a = u64::from(file[512 * self.number + 510]);
        let b = u64::from(file[512 * self.number + 511]);
        (a == sums.a) & (b == sums.b)
    }
}

fn all_sums_right(file: &File) -> bool
    ensures { result ≡ all_sums_right file.now }
{
    let mut right = true;
    for number in 0..3 {
        right &= Block { number }.sums_right(file);
    }
    right
}

// "7: a cell of 3 ..".
fn no_three(byte: u8) -> bool
    ensures { result ≡ no_three byte }
{
    (byte % 4 != 3) & ((byte / 4 % 4 != 3) & ((byte / 16 % 4 != 3) & (byte / 64 != 3)))
}

// ".. or a filler byte not zero": in block 2 each byte after row 63 is one.
fn row_byte_right(row: usize, byte: u8) -> bool
    ensures { result ≡ row_byte_right row byte }
{
    if row < 64 { no_three(byte) } else { byte == 0 }
}

impl Block {
    // Bytes 500 to 509 are filler too. The first four and the sums are tested before.
    fn byte_right(self, p: usize, byte: u8) -> bool
        requires { p < 512 }
        ensures { result ≡ byte_right self.number p byte }
    {
        if p < 4 {
            true
        } else if p < 500 {
            row_byte_right(self.row_of(p), byte)
        } else if p < 510 {
            byte == 0
        } else {
            true
        }
    }
}

fn all_bytes_right(file: &File) -> bool
    ensures { result ≡ all_bytes_right file.now }
{
    let mut right = true;
    for at in 0..1536 {
        let block = Block { number: at / 512 };
        right &= block.byte_right(at % 512, file[at]);
    }
    right
}

// "Each is tested over all blocks before the next".
fn test_content(file: &File) -> Result<(), Refusal>
    ensures { refusal_in result ≡ content_refusal file.now }
{
    ask(heads_right(file), Refusal::Form)?;
    ask(all_sums_right(file), Refusal::Sum)?;
    ask(all_bytes_right(file), Refusal::Content)
}

// ---- the reader

// Cell k of a byte.
fn cell_in(byte: u8, k: usize) -> u8
    requires { k < 4 }
    ensures { result ≡ cell_in byte k }
{
    (byte >> (2 * k)) % 4
}

// Cell i of a sheet, which has 64 cells in a row.
fn file_cell(file: &File, i: usize) -> u8
    requires { i < 4096 }
    ensures { result ≡ file_cell file.now i }
{
    let row = i / 64;
    let at = 512 * (row / 31) + 4 + 16 * (row % 31) + i % 64 / 4;
    cell_in(file[at], i % 4)
}

fn put_cells(file: &File, cells: &mut [u8])
    requires { length cells.old ≤ 4096 }
    ensures { cells.new ≡ written (λ i. i) (file_cell file.now) (length cells.old) cells.old }
{
    for i in 0..cells.len() {
        cells[i] = file_cell(file, i);
    }
}

// Reads a sheet and its number.
pub fn read_blocks(file: &[u8], cells: &mut [u8]) -> Result<u64, Refusal>
    ensures refusal { refusal_in result ≡ read_refusal (length cells.old) file.now }
    ensures left { ReadOrKept file.now cells.old (refusal_in result) (result_unwrap_or result 0) cells.new }
{
    ask(cells.len() == 4096, Refusal::Length)?;
    let file = <&File>::try_from(file).map_err(|_| Refusal::Form)?;
    test_content(file)?;
    put_cells(file, cells);
    Ok(number_in(file))
}
