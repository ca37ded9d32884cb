// The tests of the call: those of encode, and then of the seed and of how many cells are to be hit.
ghost use Rattle.std.specs.Prelude.{◌≡◌, ◌+◌, ◌*◌, [], ◌∷◌, ◌==◌, nat_lt};
ghost use Rattle.degree.specs.Degree.{bits, size};
ghost use Rattle.line.specs.Working.Calls.{Tested};
ghost use Rattle.load.specs.Entries.{load_tests};

use array::refusals::coding_test;
use degree::{Degree, size_of};
use line::refusals::Refusal;

// Are wrong and unsure cells together more than there are? A sum that doesn't fit a number is.
fn are_above(area: u64, wrong: u64, unsure: u64) -> bool
    ensures { result ≡ nat_lt area (wrong + unsure) }
{
    match wrong.checked_add(unsure) {
        Some(sum) => area < sum,
        None => true,
    }
}

// Tests 8 and 9.
fn hits_test(d: Degree, seed: u64, wrong: u64, unsure: u64) -> Result<Degree, Refusal>
    ensures { Tested (bits d) ((8, (seed == 0)) ∷ (9, nat_lt (size d * size d) (wrong + unsure)) ∷ []) result }
{
    let n = size_of(d) as u64;
    if seed == 0 {
        Err(Refusal::BadSeed)
    } else if are_above(n * n, wrong, unsure) {
        Err(Refusal::TooMany)
    } else {
        Ok(d)
    }
}

pub fn load_test(
    degree: u64,
    seed: u64,
    wrong: u64,
    unsure: u64,
    message: &[u8],
    cells: &[u8],
) -> Result<Degree, Refusal>
    ensures { Tested degree (load_tests degree seed wrong unsure message.now cells.now) result }
{
    let d = coding_test(degree, message, cells, 1, message)?;
    hits_test(d, seed, wrong, unsure)
}
