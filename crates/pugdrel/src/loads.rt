// The call of a repeatable load.
ghost use Rattle.load.specs.Entries.{Loaded};

use line::refusals::refusal_of;
use load::entry::load;

// The sheet encoded from a message, with so many cells wrong and so many unsure, at places that the seed decides.
pub fn pugdrel_load(
    degree: u64,
    seed: u64,
    wrong: u64,
    unsure: u64,
    message: &[u8],
    cells: &mut [u8],
) -> u64
    ensures { Loaded degree seed wrong unsure message.now cells.old cells.new result }
{
    let answer = load(degree, seed, wrong, unsure, message, cells);
    refusal_of(&answer)
}
