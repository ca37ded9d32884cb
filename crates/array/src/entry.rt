// The decode entry: what a caller outside may use. It takes plain numbers and lent slices, and asks nothing of them.
ghost use Rattle.std.specs.Prelude.{[]};
ghost use Rattle.array.specs.Entries.{DecodeDone};

use crate::decoding::decode_array;
use crate::refusals::decode_test;
use crate::report::Report;
use line::refusals::Refusal;

// Decodes the received array into `cells`.
pub fn decode(
    degree: u64,
    iterations: u64,
    received: &[u8],
    filling: &[u64],
    cells: &mut [u8],
) -> Result<Report, Refusal>
    ensures { DecodeDone degree iterations received.now filling.now cells.old [] cells.new result }
{
    match decode_test(degree, iterations, received, filling, cells) {
        Ok(d) => Ok(decode_array(d, iterations as usize, received, filling, cells)),
        Err(why) => Err(why),
    }
}
