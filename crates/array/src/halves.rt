// The two halves of an iteration. They are safe for any words; what they do is promised of the array that the packed rows hold and
// for any received array that the channel's packed rows hold.
ghost use Rattle.std.specs.Prelude.{◌≡◌, List, ℕ, ◌+◌, ◌*◌, ◌<◌, ◌≤◌, length, get_or};
ghost use Rattle.degree.specs.Degree.{size};
ghost use Rattle.array.specs.Arrays.{transpose};
ghost use Rattle.array.specs.Halves.{row_half, column_half, row_count, column_count};
ghost use Rattle.array.specs.Plain.{fillings};
ghost use Rattle.words.specs.Working.Word.{value};
ghost use Rattle.array.specs.Working.PackedRows.{Held};
ghost use Rattle.array.specs.Working.Steps.{StepDone};

use crate::packing::PackedRows;
use degree::{Degree, size_of};
use line::messages::messages_of;
use line::row::update_row;
use line::sending::send_row;
use line::tables::LineTables;
use words::word::{Word, of_numbers};

// ---- filling words

// Filling word i, lent as two numbers.
fn filling_word(filling: &[u64], i: usize) -> Word
    requires { 2 * i + 1 < length filling.now }
    ensures { value result ≡ get_or (fillings filling.now) i 0 }
{
    of_numbers(filling[2 * i], filling[2 * i + 1])
}

// The cells and the filling numbers are the caller's own slices: how long they are is asked, for a struct round them would be made
// anew for each half.

// ---- rows

// Each row is lent, as a writable part of the array, to the line part; its messages are kept packed too.
pub fn row_half(
    cells: &mut [u8],
    channel: &PackedRows,
    rows: &mut PackedRows,
    filling: &[u64],
    tables: &LineTables,
) -> u64
    requires { (length cells.old ≡ size tables.now.degree * size tables.now.degree) × (2 * size tables.now.degree ≤ length filling.now) }
    ensures { (result ≤ 33024) × ((r : List ℕ) → Held (size tables.now.degree) cells.old rows.old → Held (size tables.now.degree) r channel.now → StepDone (size tables.now.degree) (row_half tables.now.degree cells.old r (fillings filling.now)) (row_count tables.now.degree cells.old r (fillings filling.now)) cells.new rows.new result) }
{
    let n = size_of(tables.degree);
    let mut count: u64 = 0;
    for i in 0..n {
        let at = i * n;
        let y = rows.line(i);
        let r = channel.line(i);
        let f = filling_word(filling, i);
        let s = send_row(&mut cells[at..at + n], y, r, f, tables);
        rows.put(i, s.value);
        count += s.count;
    }
    count
}

// ---- columns

// The packed columns replaced by their messages.
fn send_columns(
    channel: &PackedRows,
    columns: &mut PackedRows,
    filling: &[u64],
    tables: &LineTables,
) -> u64
    requires { 2 * size tables.now.degree ≤ length filling.now }
    ensures { (result ≤ 33024) × ((m r : List ℕ) → Held (size tables.now.degree) m columns.old → Held (size tables.now.degree) r channel.now → Held (size tables.now.degree) (row_half tables.now.degree m r (fillings filling.now)) columns.new × (result ≡ row_count tables.now.degree m r (fillings filling.now))) }
{
    let n = size_of(tables.degree);
    let mut count: u64 = 0;
    for j in 0..n {
        let y = columns.line(j);
        let r = channel.line(j);
        let f = filling_word(filling, j);
        let s = messages_of(y, r, f, tables);
        columns.put(j, s.value);
        count += s.count;
    }
    count
}

// Rows that hold the old packed lines made to hold the new ones; rows that did not change are not written.
fn write_rows(d: Degree, cells: &mut [u8], old: &PackedRows, rows: &PackedRows)
    requires { length cells.old ≡ size d * size d }
    ensures { (m : List ℕ) → Held (size d) cells.old old.now → Held (size d) m rows.now → cells.new ≡ m }
{
    let n = size_of(d);
    for i in 0..n {
        let at = i * n;
        let was = old.line(i);
        let new = rows.line(i);
        update_row(&mut cells[at..at + n], was, new);
    }
}

// The packed rows are transposed, the packed columns replaced by their messages and transposed back, and the rows written.
pub fn column_half(
    cells: &mut [u8],
    channel: &PackedRows,
    rows: &mut PackedRows,
    filling: &[u64],
    tables: &LineTables,
) -> u64
    requires { (length cells.old ≡ size tables.now.degree * size tables.now.degree) × (2 * size tables.now.degree ≤ length filling.now) }
    ensures { (result ≤ 33024) × ((r : List ℕ) → Held (size tables.now.degree) cells.old rows.old → Held (size tables.now.degree) (transpose (size tables.now.degree) (size tables.now.degree) r) channel.now → StepDone (size tables.now.degree) (column_half tables.now.degree cells.old r (fillings filling.now)) (column_count tables.now.degree cells.old r (fillings filling.now)) cells.new rows.new result) }
{
    let d = tables.degree;
    let old = *rows;
    rows.transpose(d);
    let count = send_columns(channel, rows, filling, tables);
    rows.transpose(d);
    write_rows(d, cells, &old, rows);
    count
}
