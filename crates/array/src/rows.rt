// The look-up of a row.
ghost use Rattle.std.specs.Prelude.{◌≡◌, IfOk};
ghost use Rattle.line.specs.Refusals.{refusal_of};
ghost use Rattle.array.specs.Entries.{row_refusal, row_part};

use crate::refusals::row_test;
use degree::size_of;
use line::refusals::{Refusal, refusal_of};

// Entry: row `index` of the array, the part of the lent cells that starts at index times n.
pub fn look_up<'a>(degree: u64, cells: &'a [u8], index: usize) -> Result<&'a [u8], Refusal>
    ensures refusal { refusal_of result ≡ row_refusal degree cells.now index }
    ensures part { IfOk result (λ part. part.now ≡ row_part degree cells.now index) }
{
    let d = row_test(degree, cells, index)?;
    let n = size_of(d);
    let at = index * n;
    Ok(&cells[at..at + n])
}

// This and the next stand beside `look_up`: they cannot fail, and tell a refused look-up by its number and by an empty part.

// Entry: the refusal number of a look-up, 0 for none.
pub fn row_refusal(degree: u64, cells: &[u8], index: usize) -> u64
    ensures { result ≡ row_refusal degree cells.now index }
{
    let found = look_up(degree, cells, index);
    refusal_of(&found)
}

// Entry: the row that a look-up finds; an empty part where it is refused.
pub fn row<'a>(degree: u64, cells: &'a [u8], index: usize) -> &'a [u8]
    ensures { result.now ≡ row_part degree cells.now index }
{
    look_up(degree, cells, index).unwrap_or(&cells[..0])
}
