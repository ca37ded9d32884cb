// One pass over the cells of a sheet: each byte of the file is written once, and added to the sums of its block.
ghost use Rattle.std.specs.Prelude.{◌≡◌, ◌++◌, ℕ, ◌-◌, ◌*◌, ◌<◌, ◌≤◌, length, get_or, drop};
ghost use Rattle.line.specs.Cells.{Cells};
ghost use Rattle.blocks.specs.Blocks.{packed, block_of, file_of};
ghost use Rattle.blocks.specs.Working.Adding.{both, added, Room, head_of, end_of};

use crate::cells::{packed_byte, rows_in};
use crate::sums::{Sums, reduced};

// Bytes 0 to 3.
fn write_header(block: usize, number: u16, bytes: &mut [u8]) -> Sums
    requires { (block < 3) × (4 ≤ length bytes.old) }
    ensures { (bytes.new ≡ head_of block number ++ drop 4 bytes.old) × (both result ≡ added (0, 0) (head_of block number)) }
{
    let index = block as u8;
    let [high, low] = number.to_be_bytes();
    bytes[..4].copy_from_slice(&[index, 6, high, low]);
    Sums::of_header(index, 6, high, low)
}

// The rows, four cells to a byte: as many of the cells as there are bytes for.
fn write_rows(sums: Sums, cells: &[u8], bytes: &mut [u8]) -> Sums
    requires { Room (length bytes.old) (both sums) × (length bytes.old * 4 ≤ length cells.now) × ((i : ℕ) → get_or cells.now i 0 < 4) }
    ensures { (bytes.new ≡ packed (length bytes.old) cells.now) × (both result ≡ added (both sums) bytes.new) }
{
    let mut so_far = sums;
    for (i, byte) in bytes.iter_mut().enumerate() {
        let packed = packed_byte(cells, 4 * i);
        *byte = packed;
        so_far = so_far.with_byte(packed);
    }
    so_far
}

// The bytes after the rows: zeros, and the sums of all that stands before these.
fn write_end(sums: Sums, bytes: &mut [u8])
    requires { (2 ≤ length bytes.old) × Room (length bytes.old - 2) (both sums) }
    ensures { bytes.new ≡ end_of (both sums) (length bytes.old - 2) }
{
    let many = bytes.len() - 2;
    bytes[..many].fill(0);
    let all = sums.with_zeros(many);
    bytes[many] = reduced(all.a);
    bytes[many + 1] = reduced(all.b);
}

// A block of the sheet.
fn write_block(block: usize, number: u16, cells: &[u8], bytes: &mut [u8])
    requires { (block < 3) × Cells 3 4096 cells.now × (length bytes.old ≡ 512) }
    ensures { bytes.new ≡ block_of block number cells.now }
{
    let end = 4 + 16 * rows_in(block);
    let header = write_header(block, number, bytes);
    let written = write_rows(header, &cells[31 * block * 64..], &mut bytes[4..end]);
    write_end(written, &mut bytes[end..]);
}

// The file of a sheet, a block a turn.
pub fn write_file(number: u16, cells: &[u8], file: &mut [u8])
    requires { Cells 3 4096 cells.now × (length file.old ≡ 1536) }
    ensures { file.new ≡ file_of number cells.now }
{
    for block in 0..3 {
        let at = block * 512;
        write_block(block, number, cells, &mut file[at..at + 512]);
    }
}
