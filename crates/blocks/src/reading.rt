// One pass over a file. Each byte is read once: it is added to the sums of its block, and is tested or put apart into cells.
ghost use Rattle.std.specs.Prelude.{◌≡◌, ◌&&◌, ◌*◌, ◌≤◌, ◌<◌, eqb, length, take};
ghost use Rattle.line.specs.Cells.{cell};
ghost use Rattle.line.specs.Refusals.{at_most};
ghost use Rattle.blocks.specs.Blocks.{rows_in, number_in, unpacked};
ghost use Rattle.blocks.specs.Working.Adding.{both, added, Room, Bytes};
ghost use Rattle.blocks.specs.Working.Found.{BlockRead, PartRead, FileRead};

use crate::cells::{four_cells, rows_in};
use crate::sums::{Sums, reduced};
use line::refusals::at_most;
use words::bytes::put_four;

// What is found in a block, or in all: the sheet number, and whether tests 5, 6 and 7 are passed. A block's first fault would not do
// for the three, since each test is made of all blocks before the next.
#[derive(Clone, Copy)]
pub struct Found {
    pub number: u16,
    pub formed: bool,
    pub summed: bool,
    pub sound: bool,
}

#[derive(Clone, Copy)]
struct Header {
    number: u16,
    formed: bool,
    sums: Sums,
}

// Bytes 0 to 3.
fn read_header(block: usize, bytes: &[u8]) -> Header
    requires { 4 ≤ length bytes.now }
    ensures { (result.number ≡ number_in bytes.now) × (result.formed ≡ (eqb (cell bytes.now 0) block && eqb (cell bytes.now 1) 6)) × (both result.sums ≡ added (0, 0) (take 4 bytes.now)) × Bytes (take 4 bytes.now) }
{
    let index = bytes[0];
    let degree = bytes[1];
    let high = bytes[2];
    let low = bytes[3];
    let sums = Sums::of_header(index, degree, high, low);
    let number = u16::from_be_bytes([high, low]);
    let formed = (usize::from(index) == block) & (degree == 6);
    Header {
        number,
        formed,
        sums,
    }
}

// The bytes of rows, each put apart into four cells.
fn read_rows(sums: Sums, bytes: &[u8], cells: &mut [u8]) -> Sums
    requires { Room (length bytes.now) (both sums) × (length cells.old ≡ length bytes.now * 4) }
    ensures { (both result ≡ added (both sums) bytes.now) × (cells.new ≡ unpacked bytes.now) × Bytes bytes.now }
{
    let mut so_far = sums;
    for (i, byte) in bytes.iter().enumerate() {
        put_four(cells, 4 * i, four_cells(*byte));
        so_far = so_far.with_byte(*byte);
    }
    so_far
}

// The sums go on whether or not the bytes are 0, so this is no Option of them.
#[derive(Clone, Copy)]
struct Filler {
    sums: Sums,
    zero: bool,
}

// The bytes after the rows: are all of them 0?
fn read_filler(sums: Sums, bytes: &[u8]) -> Filler
    requires { Room (length bytes.now) (both sums) }
    ensures { (both result.sums ≡ added (both sums) bytes.now) × (result.zero ≡ at_most 0 bytes.now) × Bytes bytes.now }
{
    let mut so_far = sums;
    let mut zero = true;
    for byte in bytes {
        zero = zero & (*byte == 0);
        so_far = so_far.with_byte(*byte);
    }
    Filler { sums: so_far, zero }
}

// A block, whose rows go into the lent cells.
fn read_block(block: usize, bytes: &[u8], cells: &mut [u8]) -> Found
    requires { (length bytes.now ≡ 512) × (length cells.old ≡ rows_in block * 64) }
    ensures { BlockRead block bytes.now cells.new result }
{
    let end = 4 + cells.len() / 4;
    let header = read_header(block, bytes);
    let rows = read_rows(header.sums, &bytes[4..end], cells);
    let filler = read_filler(rows, &bytes[end..510]);
    let sums = filler.sums;
    let summed = (bytes[510] == reduced(sums.a)) & (bytes[511] == reduced(sums.b));
    let sound = at_most(2, cells) & filler.zero;
    Found {
        number: header.number,
        formed: header.formed,
        summed,
        sound,
    }
}

// What is found in three blocks together: each test is passed where all three pass it, and the sheet numbers are one.
fn in_all(first: Found, second: Found, third: Found) -> Found
    ensures { (result.number ≡ first.number) × (result.formed ≡ ((first.formed && (second.formed && eqb second.number first.number)) && (third.formed && eqb third.number first.number))) × (result.summed ≡ ((first.summed && second.summed) && third.summed)) × (result.sound ≡ ((first.sound && second.sound) && third.sound)) }
{
    let number = first.number;
    let second_formed = second.formed & (second.number == number);
    let third_formed = third.formed & (third.number == number);
    Found {
        number,
        formed: first.formed & second_formed & third_formed,
        summed: first.summed & second.summed & third.summed,
        sound: first.sound & second.sound & third.sound,
    }
}

// Which block it is and how long a file and a sheet are is asked; as an enum a block would be made its number again for each place.

// A block of a file, whose rows go to their place among the cells of the sheet.
fn read_part(block: usize, file: &[u8], cells: &mut [u8]) -> Found
    requires { (block < 3) × (length file.now ≡ 1536) × (length cells.old ≡ 4096) }
    ensures { PartRead block file.now cells.old cells.new result }
{
    let at = 512 * block;
    let from = 1984 * block;
    let end = from + 64 * rows_in(block);
    read_block(block, &file[at..at + 512], &mut cells[from..end])
}

// All three blocks. The cells are written whatever is found: they are no caller's.
pub fn read_file(file: &[u8], cells: &mut [u8]) -> Found
    requires { (length file.now ≡ 1536) × (length cells.old ≡ 4096) }
    ensures { FileRead file.now cells.new result }
{
    let first = read_part(0, file, cells);
    let second = read_part(1, file, cells);
    let third = read_part(2, file, cells);
    in_all(first, second, third)
}
