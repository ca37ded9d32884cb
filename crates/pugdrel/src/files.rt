// The calls of a sheet in blocks.
ghost use Rattle.blocks.specs.Entries.{WriteDone};
ghost use Rattle.pugdrel.specs.FileCalls.{ReadTold};

use crate::reports::{lent, tell};
use blocks::entry::{read_blocks, write_blocks};
use line::refusals::refusal_of;

// Reads a file of three blocks into `cells`. Reports the sheet number.
pub fn pugdrel_read_blocks(file: &[u8], cells: &mut [u8], report: &mut [u64]) -> u64
    ensures { ReadTold file.now cells.old cells.new report.old report.new result }
{
    let end = lent(report.len() == 1, cells.len());
    let answer = read_blocks(file, &mut cells[..end]);
    let numbers = [u64::from(answer.unwrap_or(0))];
    tell(&numbers, report);
    refusal_of(&answer)
}

// Writes the three blocks of a sheet and its number.
pub fn pugdrel_write_blocks(number: u16, cells: &[u8], file: &mut [u8]) -> u64
    ensures { WriteDone number cells.now file.old file.new result }
{
    let answer = write_blocks(number, cells, file);
    refusal_of(&answer)
}
