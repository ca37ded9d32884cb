// The load: what a caller outside may use. It takes plain numbers and lent slices, and asks nothing of them.
ghost use Rattle.std.specs.Prelude.{◌≡◌, ◌+◌, ◌*◌, ◌≤◌, length};
ghost use Rattle.degree.specs.Degree.{size};
ghost use Rattle.line.specs.Cells.{IsWord};
ghost use Rattle.line.specs.Encoding.{message_size};
ghost use Rattle.line.specs.Refusals.{refusal_of};
ghost use Rattle.load.specs.Load.{loaded};
ghost use Rattle.load.specs.Entries.{Loaded};

use crate::hitting::put_damage;
use crate::refusals::load_test;
use crate::shuffling::put_order;
use array::encoding::encode_array;
use degree::Degree;
use line::refusals::Refusal;

// The places of the longest sheet, 128 by 128.
const PLACES: usize = 16384;

// A call that is taken: the sheet of the message, with the first places of the shuffled order hit. The order is kept in the lent room.
fn load_with(
    d: Degree,
    seed: u64,
    wrong: usize,
    unsure: usize,
    message: &[u8],
    cells: &mut [u8],
    room: &mut [u16],
)
    requires { IsWord (message_size d * message_size d) message.now × (length cells.old ≡ size d * size d) × (wrong + unsure ≤ size d * size d) × (length room.old ≡ 16384) }
    ensures { cells.new ≡ loaded d seed wrong unsure message.now }
{
    let area = cells.len();
    put_order(seed, &mut room[..area]);
    encode_array(d, message, cells);
    put_damage(wrong, unsure, &room[..area], cells);
}

// The same, with room on the stack.
fn load_taken(d: Degree, seed: u64, wrong: usize, unsure: usize, message: &[u8], cells: &mut [u8])
    requires { IsWord (message_size d * message_size d) message.now × (length cells.old ≡ size d * size d) × (wrong + unsure ≤ size d * size d) }
    ensures { cells.new ≡ loaded d seed wrong unsure message.now }
{
    let mut room = [0u16; PLACES];
    load_with(d, seed, wrong, unsure, message, cells, &mut room);
}

// Entry: the sheet encoded from a message, with so many cells wrong and so many unsure by the seed, into the lent cells.
pub fn load(
    degree: u64,
    seed: u64,
    wrong: u64,
    unsure: u64,
    message: &[u8],
    cells: &mut [u8],
) -> Result<(), Refusal>
    ensures { Loaded degree seed wrong unsure message.now cells.old cells.new (refusal_of result) }
{
    let d = load_test(degree, seed, wrong, unsure, message, cells)?;
    load_taken(d, seed, wrong as usize, unsure as usize, message, cells);
    Ok(())
}
