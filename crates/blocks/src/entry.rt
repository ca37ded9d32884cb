// The reader and the writer: what a caller outside may use. They take plain numbers and lent slices, and ask nothing of them.
ghost use Rattle.std.specs.Prelude.{◌≡◌, [], length};
ghost use Rattle.line.specs.Refusals.{refusal_of};
ghost use Rattle.blocks.specs.Entries.{ReadDone, WriteDone};
ghost use Rattle.blocks.specs.Working.Answers.{Answers};

use crate::reading::{Found, read_file};
use crate::writing::write_file;
use degree::Degree;
use line::refusals::{Refusal, lent_test};

// Tests 5, 6 and 7 of what was found in all blocks.
fn answer_of(found: Found) -> Result<u16, Refusal>
    ensures { Answers found result }
{
    if !found.formed {
        Err(Refusal::BadFile)
    } else if !found.summed {
        Err(Refusal::BadSum)
    } else if !found.sound {
        Err(Refusal::BadContent)
    } else {
        Ok(found.number)
    }
}

// A file of the right length. It is read into cells of our own, and they are handed over where no test applies.
fn read_long(file: &[u8], cells: &mut [u8]) -> Result<u16, Refusal>
    requires { (length file.now ≡ 1536) × (length cells.old ≡ 4096) }
    ensures { ReadDone file.now cells.old [] cells.new result }
{
    let mut sheet = [0u8; 4096];
    let found = read_file(file, &mut sheet);
    let number = answer_of(found)?;
    cells.copy_from_slice(&sheet);
    Ok(number)
}

// Entry: reads a file into the lent cells, and returns its sheet number.
pub fn read_blocks(file: &[u8], cells: &mut [u8]) -> Result<u16, Refusal>
    ensures { ReadDone file.now cells.old [] cells.new result }
{
    if cells.len() != 4096 {
        Err(Refusal::BadLength)
    } else if file.len() != 1536 {
        Err(Refusal::BadFile)
    } else {
        read_long(file, cells)
    }
}

// Entry: writes the file of a sheet and its number.
pub fn write_blocks(number: u16, cells: &[u8], file: &mut [u8]) -> Result<(), Refusal>
    ensures { WriteDone number cells.now file.old file.new (refusal_of result) }
{
    let wrong = (cells.len() != 4096) | (file.len() != 1536);
    lent_test(Degree::Six, wrong, 2, cells)?;
    write_file(number, cells, file);
    Ok(())
}
