// Taking the message out of an array.
ghost use Rattle.std.specs.Prelude.{◌≡◌, ◌*◌, length};
ghost use Rattle.degree.specs.Degree.{size};
ghost use Rattle.line.specs.Encoding.{message_size};
ghost use Rattle.line.specs.Refusals.{refusal_of};
ghost use Rattle.array.specs.Encoding.{extracted};
ghost use Rattle.array.specs.Entries.{Extracted};

use crate::refusals::coding_test;
use degree::{Degree, size_of};
use line::packed::Line;
use line::refusals::Refusal;
use words::copying::copy_cells;

// The message cells, row after row.
fn extract_message(d: Degree, cells: &[u8], message: &mut [u8])
    requires { (length cells.now ≡ size d * size d) × (length message.old ≡ message_size d * message_size d) }
    ensures { message.new ≡ extracted d cells.now }
{
    let n = size_of(d);
    let k = Line::message_cells(d);
    let p = Line::check_cells(d);
    for i in 0..k {
        let from = (p + i) * n + p;
        let to = i * k;
        copy_cells(&cells[from..from + k], &mut message[to..to + k]);
    }
}

// Entry: copies the message cells of the n by n cells into the message of k by k cells.
pub fn extract(degree: u64, cells: &[u8], message: &mut [u8]) -> Result<(), Refusal>
    ensures { Extracted degree cells.now message.old message.new (refusal_of result) }
{
    let d = coding_test(degree, message, cells, 2, cells)?;
    extract_message(d, cells, message);
    Ok(())
}
