// The iterations of a decoding: each a row half and then a column half, with the filling words in order of halves and lines,
// two numbers each.
ghost use Rattle.std.specs.Prelude.{◌≡◌, List, ℕ, ◌+◌, ◌*◌, ◌≤◌, length};
ghost use Rattle.degree.specs.Degree.{size};
ghost use Rattle.array.specs.Plain.{fillings, plain, plain_count};
ghost use Rattle.array.specs.Working.Steps.{StepDone};
ghost use Rattle.array.specs.Working.Runs.{Started};

use crate::halves::{column_half, row_half};
use crate::packing::PackedRows;
use degree::size_of;
use line::tables::LineTables;

// The received array, packed by its rows and by its columns.
#[derive(Clone, Copy)]
pub struct Channel<'a> {
    pub rows: &'a PackedRows,
    pub columns: &'a PackedRows,
}

fn iterate(
    cells: &mut [u8],
    channel: &Channel,
    rows: &mut PackedRows,
    filling: &[u64],
    tables: &LineTables,
) -> u64
    requires { (length cells.old ≡ size tables.now.degree * size tables.now.degree) × (4 * size tables.now.degree ≤ length filling.now) }
    ensures { (result ≤ 66048) × ((r : List ℕ) → Started (size tables.now.degree) cells.old r rows.old channel.now.rows.now channel.now.columns.now → StepDone (size tables.now.degree) (plain tables.now.degree 1 cells.old r (fillings filling.now)) (plain_count tables.now.degree 1 cells.old r (fillings filling.now)) cells.new rows.new result) }
{
    let n = size_of(tables.degree);
    let a = row_half(cells, channel.rows, rows, filling, tables);
    let b = column_half(cells, channel.columns, rows, &filling[2 * n..], tables);
    a + b
}

pub fn run(
    iterations: usize,
    cells: &mut [u8],
    channel: &Channel,
    rows: &mut PackedRows,
    filling: &[u64],
    tables: &LineTables,
) -> u64
    requires { (length cells.old ≡ size tables.now.degree * size tables.now.degree) × (length filling.now ≡ 4 * iterations * size tables.now.degree) × (iterations ≤ 20) }
    ensures { (r : List ℕ) → Started (size tables.now.degree) cells.old r rows.old channel.now.rows.now channel.now.columns.now → StepDone (size tables.now.degree) (plain tables.now.degree iterations cells.old r (fillings filling.now)) (plain_count tables.now.degree iterations cells.old r (fillings filling.now)) cells.new rows.new result }
{
    let n = size_of(tables.degree);
    let mut count: u64 = 0;
    for k in 0..iterations {
        let at = k * (4 * n);
        let c = iterate(cells, channel, rows, &filling[at..], tables);
        count += c;
    }
    count
}
