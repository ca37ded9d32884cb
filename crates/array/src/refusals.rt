// The tests of the calls on arrays, in the order of their numbers. No cell is read before the lengths are known to be right.
ghost use Rattle.std.specs.Prelude.{[]};
ghost use Rattle.degree.specs.Degree.{bits};
ghost use Rattle.line.specs.Working.Calls.{Tested};
ghost use Rattle.array.specs.Refusals.{coding_tests, row_tests, decode_tests};

use degree::{Degree, size_of};
use line::packed::Line;
use line::refusals::{Refusal, lent_test};

// A call that lends a message and an array, and reads one of them.
pub fn coding_test(
    degree: u64,
    message: &[u8],
    cells: &[u8],
    bound: u8,
    read: &[u8],
) -> Result<Degree, Refusal>
    ensures { Tested degree (coding_tests bound degree message.now cells.now read.now) result }
{
    let d = Degree::try_from(degree)?;
    let n = size_of(d);
    let k = Line::message_cells(d);
    let wrong = (message.len() != k * k) | (cells.len() != n * n);
    lent_test(d, wrong, bound, read)
}

pub fn row_test(degree: u64, cells: &[u8], index: usize) -> Result<Degree, Refusal>
    ensures { Tested degree (row_tests degree cells.now index []) result }
{
    let d = Degree::try_from(degree)?;
    let n = size_of(d);
    let wrong = (cells.len() != n * n) | (n <= index);
    lent_test(d, wrong, 2, cells)
}

// The tests of decode at a degree. The lengths are reckoned only for few iterations, so that they fit a number.
fn known_test(
    d: Degree,
    iterations: u64,
    received: &[u8],
    filling: &[u64],
    cells: &[u8],
) -> Result<Degree, Refusal>
    ensures { Tested (bits d) (decode_tests (bits d) iterations received.now filling.now cells.now []) result }
{
    if (iterations == 0) | (20 < iterations) {
        Err(Refusal::BadIterations)
    } else {
        let n = size_of(d);
        let numbers = 4 * (iterations as usize) * n;
        let wrong = (received.len() != n * n)
            | ((filling.len() != numbers) | (cells.len() != n * n));
        lent_test(d, wrong, 2, received)
    }
}

pub fn decode_test(
    degree: u64,
    iterations: u64,
    received: &[u8],
    filling: &[u64],
    cells: &[u8],
) -> Result<Degree, Refusal>
    ensures { Tested degree (decode_tests degree iterations received.now filling.now cells.now []) result }
{
    let d = Degree::try_from(degree)?;
    known_test(d, iterations, received, filling, cells)
}
