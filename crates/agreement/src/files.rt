// Files: sheets in blocks, written and read by both.

use crate::given;
use damage::chance::Chance;
use damage::files::any_sheet;
use second::blocks::{File, Sheet};
use second::tallies::{Tally, same};

// A sheet written by both, into room that holds different bytes. Gives the file of the entry.
fn test_writing(number: u16, sheet: &Sheet, tally: &mut Tally) -> File {
    let mut own = [7u8; 1536];
    let mut given = [9u8; 1536];
    let first = second::blocks::write_blocks(u64::from(number), sheet, &mut own);
    let other = given::write_blocks(number, sheet, &mut given);
    let taken = first.is_ok() & other.is_ok();
    tally.note(&own, &given, 1536, taken, u64::from(number));
    given
}

// The file of a sheet, read by both. They agree where both give the sheet and its number.
fn test_reading(number: u16, sheet: &Sheet, file: &File, tally: &mut Tally) {
    let mut own = [7u8; 4096];
    let mut given = [9u8; 4096];
    let first = second::blocks::read_blocks(file, &mut own);
    let other = given::read_blocks(file, &mut given);
    let read = (first == Ok(u64::from(number))) & same(&own, sheet);
    let told = other.map_or(65536, u64::from);
    tally.note(sheet, &given, 4096, read & (other == Ok(number)), told);
}

// Sheets and numbers by chance.
pub(crate) fn test_files(many: usize, writing: &mut Tally, reading: &mut Tally) {
    let mut chance = Chance { state: 123456789 };
    for _ in 0..many {
        let number = chance.below(65536) as u16;
        let sheet = any_sheet(&mut chance);
        let file = test_writing(number, &sheet, writing);
        test_reading(number, &sheet, &file, reading);
    }
}
