// What the program `sheet` prints for what it reads.
ghost use Rattle.std.specs.Prelude.{◌≡◌, not, [], ◌∷◌, ◌+◌, ◌*◌, ◌≤◌, length};
ghost use Rattle.degree.specs.Degree.{bits, size};
ghost use Rattle.line.specs.Working.Calls.{Tested};
ghost use Rattle.text.specs.Text.{first_line, shaped, known, cells_of, sheet_tests, decoded_text, printed};
ghost use Rattle.text.specs.Writing.{Wrote};

use crate::reading::{first_line, is_known, is_shaped, read_cells};
use crate::step::decoded;
use crate::writing::Output;
use degree::{Degree, size_of};
use line::refusals::Refusal;

// Lines that are taken; `received` and `cells` are room for an array each.
fn array_text(d: Degree, text: &[u8], received: &mut [u8], cells: &mut [u8], output: &mut Output)
    requires { (length text.now ≡ size d * (size d + 1)) × (length received.old ≡ size d * size d) × (length cells.old ≡ size d * size d) × (output.old ≡ []) }
    ensures { output.new ≡ decoded_text d (cells_of (size d) text.now) }
{
    let n = size_of(d);
    read_cells(n, text, received);
    let report = decoded(d, received, cells);
    output.put_report(n, cells, report);
}

// The same, with room on the stack.
fn taken_text(d: Degree, text: &[u8], output: &mut Output)
    requires { (length text.now ≡ size d * (size d + 1)) × (output.old ≡ []) }
    ensures { output.new ≡ decoded_text d (cells_of (size d) text.now) }
{
    let n = size_of(d);
    let long = n * n;
    let mut received = [0u8; 16384];
    let mut cells = [0u8; 16384];
    array_text(d, text, &mut received[..long], &mut cells[..long], output);
}

// Tests 3 and 4, of the lines after the first.
fn lines_test(d: Degree, text: &[u8]) -> Result<Degree, Refusal>
    ensures { Tested (bits d) ((3, not (shaped (size d) text.now)) ∷ (4, not (known text.now)) ∷ []) result }
{
    if !is_shaped(size_of(d), text) {
        Err(Refusal::BadLength)
    } else if !is_known(text) {
        Err(Refusal::BadCell)
    } else {
        Ok(d)
    }
}

// The tests of what is read, in the order of their numbers.
fn sheet_test(input: &[u8]) -> Result<Degree, Refusal>
    ensures { Tested (first_line input.now) (sheet_tests input.now) result }
{
    let number = first_line(input).ok_or(Refusal::BadDegree)?;
    let d = Degree::try_from(number)?;
    lines_test(d, &input[2..])
}

pub fn text_into(input: &[u8], output: &mut [u8]) -> usize
    requires { 16596 ≤ length output.old }
    ensures { Wrote output.old 0 (printed input.now) output.new result }
{
    let call = sheet_test(input);
    let mut text = Output::new();
    match call {
        Ok(d) => taken_text(d, &input[2..], &mut text),
        Err(why) => text.put_refusal(u64::from(why)),
    }
    text.copy_to(output)
}

// Entry: writes what is printed for the input, and returns its length.
pub fn sheet_text(input: &[u8], output: &mut [u8; 16596]) -> usize
    ensures { Wrote output.old 0 (printed input.now) output.new result }
{
    text_into(input, output)
}
