// Encoding an array on packed words: the message rows are encoded, and the rows of the array are sums of them.
ghost use Rattle.std.specs.Prelude.{◌≡◌, ◌*◌, ◌%◌, ◌≤◌, length};
ghost use Rattle.degree.specs.Degree.{size};
ghost use Rattle.laws.specs.Digits.{digits};
ghost use Rattle.line.specs.Cells.{IsWord};
ghost use Rattle.line.specs.Encoding.{message_size};
ghost use Rattle.line.specs.Refusals.{refusal_of};
ghost use Rattle.words.specs.Working.Sums.{chosen_sum};
ghost use Rattle.words.specs.Working.Word.{width};
ghost use Rattle.array.specs.Arrays.{lines};
ghost use Rattle.array.specs.Encoding.{encode_array};
ghost use Rattle.array.specs.Working.EncodedRows.{EncodedRows};
ghost use Rattle.array.specs.Entries.{Encoded};

use crate::refusals::coding_test;
use degree::{Degree, size_of};
use line::encoding::UnitTable;
use line::packed::Line;
use line::refusals::Refusal;
use words::word::grid::Grid;
use words::word::pairs::spread_pair;
use words::word::sums::chosen_sum;
use words::word::zero_word;

// The words of the message rows, in a grid.
fn encode_rows(units: &UnitTable, message: &[u8], words: &mut Grid)
    requires { IsWord (message_size units.now.degree * message_size units.now.degree) message.now }
    ensures { EncodedRows units.now.degree message.now words.new }
{
    let k = Line::message_cells(units.degree);
    for a in 0..k {
        let at = a * k;
        let word = units.encoded_word(&message[at..at + k]);
        words.put(a, word);
    }
}

// All rows of the array: row i is the sum of the k words whose unit has bit i. No cell of it is unsure.
fn write_rows(n: usize, k: usize, units: &Grid, words: &Grid, cells: &mut [u8])
    requires { (k ≤ width) × (n ≤ width) × (n % 8 ≡ 0) × (length cells.old ≡ n * n) }
    ensures { cells.new ≡ lines (λ i. digits n (chosen_sum units.now words.now k i)) n }
{
    for i in 0..n {
        let at = i * n;
        let word = chosen_sum(k, units, words, i as u32);
        spread_pair(word, zero_word(), &mut cells[at..at + n]);
    }
}

// The array of a message: its rows are encoded, and the rows of the array are sums of them, both by the table of units.
pub fn encode_array(d: Degree, message: &[u8], cells: &mut [u8])
    requires { IsWord (message_size d * message_size d) message.now × (length cells.old ≡ size d * size d) }
    ensures { cells.new ≡ encode_array d message.now }
{
    let mut room = Grid::zero();
    let units = UnitTable::new(d, &mut room);
    let mut words = Grid::zero();
    encode_rows(&units, message, &mut words);
    let n = size_of(d);
    let k = Line::message_cells(d);
    write_rows(n, k, units.words, &words, cells);
}

// Entry: encodes the message of k by k bits into the n by n cells.
pub fn encode(degree: u64, message: &[u8], cells: &mut [u8]) -> Result<(), Refusal>
    ensures { Encoded degree message.now cells.old cells.new (refusal_of result) }
{
    let d = coding_test(degree, message, cells, 1, message)?;
    encode_array(d, message, cells);
    Ok(())
}
