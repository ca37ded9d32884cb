// The decoding of the cells that were read.
ghost use Rattle.std.specs.Prelude.{◌≡◌, ◌*◌, length};
ghost use Rattle.degree.specs.Degree.{size};
ghost use Rattle.array.specs.Working.Steps.{IsArray};
ghost use Rattle.array.specs.Working.Runs.{DecodingDone};
ghost use Rattle.text.specs.Working.Characters.{zeros};

use array::decoding::decode_array;
use array::report::Report;
use degree::{Degree, size_of};

// One iteration with zero filling.
pub fn decoded(d: Degree, received: &[u8], cells: &mut [u8]) -> Report
    requires { IsArray d received.now × (length cells.old ≡ size d * size d) }
    ensures { DecodingDone d 1 received.now (zeros d) cells.new result }
{
    let filling = [0u64; 512];
    let numbers = 4 * size_of(d); // of 2 n filling words
    decode_array(d, 1, received, &filling[..numbers], cells)
}
