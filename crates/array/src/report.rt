// What is told of the array that a decoding leaves.
ghost use Rattle.std.specs.Prelude.{◌≡◌, List, ℕ};
ghost use Rattle.degree.specs.Degree.{size};
ghost use Rattle.line.specs.Cells.{erasures as erasures_in};
ghost use Rattle.array.specs.Arrays.{transpose};
ghost use Rattle.array.specs.Working.PackedRows.{Held};
ghost use Rattle.array.specs.Working.Runs.{IsFull, Told, lines_to};

use crate::packing::PackedRows;
use degree::{Degree, size_of};
use line::codeword::is_codeword;
use line::tables::LineTables;

// The count of decodings, the cells still unsure, and whether the array is closed.
#[derive(Clone, Copy, Debug, PartialEq, Eq)]
pub struct Report {
    pub count: u64,
    pub erasures: u64,
    pub closed: bool,
}

fn count_erased(d: Degree, rows: &PackedRows) -> u64
    ensures { (m : List ℕ) → Held (size d) m rows.now → result ≡ erasures_in m }
{
    let n = size_of(d);
    let mut sum: u64 = 0;
    for i in 0..n {
        sum += u64::from(rows.line(i).count_erasures());
    }
    sum
}

// Is every row and every column a codeword? The first that is none ends the search.
fn all_codewords(rows: &PackedRows, columns: &PackedRows, tables: &LineTables) -> bool
    ensures { (m : List ℕ) → IsFull tables.now.degree m → Held (size tables.now.degree) m rows.now → Held (size tables.now.degree) (transpose (size tables.now.degree) (size tables.now.degree) m) columns.now → result ≡ lines_to tables.now.degree m (size tables.now.degree) }
{
    let n = size_of(tables.degree);
    let mut all = true;
    let mut i = 0;
    while i < n && all {
        let row = rows.line(i);
        let column = columns.line(i);
        let across = is_codeword(row.ones, tables);
        let down = is_codeword(column.ones, tables);
        all = across & down;
        i += 1;
    }
    all
}

// Lines are looked at only where no cell is unsure: the words of their ones are then the lines.
pub fn report_of(total: u64, rows: &PackedRows, tables: &LineTables) -> Report
    ensures { (m : List ℕ) → Held (size tables.now.degree) m rows.now → Told tables.now.degree m total result }
{
    let d = tables.degree;
    let left = count_erased(d, rows);
    if left == 0 {
        let mut columns = *rows;
        columns.transpose(d);
        let all = all_codewords(rows, &columns, tables);
        Report {
            count: total,
            erasures: left,
            closed: all,
        }
    } else {
        Report {
            count: total,
            erasures: left,
            closed: false,
        }
    }
}
