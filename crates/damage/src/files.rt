// Sheets by chance and their files, which are three blocks of 512 bytes, and faults in these.
ghost use Rattle.std.specs.Prelude.{◌<◌, ◌≡◌, replicate, IfNone};
ghost use Rattle.second.specs.Working.Loops.{Below};
ghost use Rattle.second.specs.Working.Blocks.{with_bytes, summed};

use crate::chance::Chance;
use second::blocks::{Sheet, put_blocks, sum_blocks};

pub fn any_sheet(chance: &mut Chance) -> Sheet
    ensures { Below 3 result }
{
    let mut sheet = [0u8; 4096];
    for cell in sheet.iter_mut() {
        *cell = chance.below(3) as u8;
    }
    sheet
}

// Room for a file and a byte more.
pub type FileRoom = [u8; 1537];

// The file of a sheet and its number.
pub fn file_of(number: u64, sheet: Sheet) -> FileRoom
    ensures { result ≡ summed 3 (with_bytes number sheet (replicate 1537 0)) }
{
    let mut file = [0u8; 1537];
    put_blocks(number, &sheet, &mut file);
    file
}

// The file with the sums of its bytes.
pub fn mended(file: FileRoom) -> FileRoom
    ensures { result ≡ summed 3 file }
{
    let mut other = file;
    sum_blocks(&mut other);
    other
}

// Kinds of faults, by the byte that is another one then.
#[derive(Clone, Copy, PartialEq, Eq, Debug)]
pub enum Fault {
    // Byte 0 to 3 of a block.
    Head(usize),
    // The sums of a block.
    SumA,
    SumB,
    // Any byte of a block up to 463.
    AnyByte,
    // One of bytes 500 to 509.
    Filler,
    // One of the filler after row 63.
    AfterRows,
    // A cell of the first two rows of a block becomes 3.
    CellOfThree,
}

impl Fault {
    // Its place, by the beginning of a block and a number that was drawn.
    fn place(self, start: usize, drawn: usize) -> usize
        requires { (start < 1025) × (drawn < 464) }
        ensures { result < 1536 }
    {
        match self {
            Fault::Head(byte) => start + byte % 4,
            Fault::SumA => start + 510,
            Fault::SumB => start + 511,
            Fault::AnyByte => start + drawn,
            Fault::Filler => start + 500 + drawn % 10,
            Fault::AfterRows => 1060 + drawn,
            Fault::CellOfThree => start + 4 + drawn % 32,
        }
    }

    // Another byte, or one with a cell of 3.
    fn faulty(self, byte: u8, drawn: usize) -> u8
        requires { drawn < 255 }
    {
        match self {
            Fault::CellOfThree => byte | THREES[drawn % 4],
            _ => byte ^ (1 + drawn) as u8,
        }
    }
}

const THREES: [u8; 4] = [3, 12, 48, 192];

// The file with a fault, or as it is without one. The sums stay as they are.
pub fn spoilt(fault: Option<Fault>, chance: &mut Chance, file: FileRoom) -> FileRoom
    ensures { IfNone fault (result ≡ file) }
{
    let mut other = file;
    if let Some(kind) = fault {
        let start = 512 * chance.below(3);
        let at = kind.place(start, chance.below(464));
        other[at] = kind.faulty(file[at], chance.below(255));
    }
    other
}
