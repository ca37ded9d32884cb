// The decoding of an array that was taken: in one way, from its start to its report.
ghost use Rattle.std.specs.Prelude.{◌≡◌, ◌*◌, ◌≤◌, length};
ghost use Rattle.degree.specs.Degree.{size};
ghost use Rattle.array.specs.Plain.{fillings};
ghost use Rattle.array.specs.Working.Steps.{IsArray};
ghost use Rattle.array.specs.Working.Runs.{DecodingDone};

use crate::iterations::{Channel, run};
use crate::packing::PackedRows;
use crate::report::{Report, report_of};
use degree::Degree;
use line::tables::{LineEntries, LineTables};
use words::copying::copy_cells;

// Messages start as the channel's. The channel's rows and columns are packed once, for all iterations.
fn decode_by(
    iterations: usize,
    received: &[u8],
    filling: &[u64],
    cells: &mut [u8],
    tables: &LineTables,
) -> Report
    requires { IsArray tables.now.degree received.now × (length cells.old ≡ size tables.now.degree * size tables.now.degree) × (length filling.now ≡ 4 * iterations * size tables.now.degree) × (iterations ≤ 20) }
    ensures { DecodingDone tables.now.degree iterations received.now (fillings filling.now) cells.new result }
{
    let d = tables.degree;
    copy_cells(received, cells);
    let mut across = PackedRows::empty();
    across.pack(d, received);
    let mut down = across;
    down.transpose(d);
    let channel = Channel {
        rows: &across,
        columns: &down,
    };
    let mut rows = across;
    let count = run(iterations, cells, &channel, &mut rows, filling, tables);
    report_of(count, &rows, tables)
}

// The same, with the tables of the degree: they are made once, here, and lent to all that read them.
pub fn decode_array(
    d: Degree,
    iterations: usize,
    received: &[u8],
    filling: &[u64],
    cells: &mut [u8],
) -> Report
    requires { IsArray d received.now × (length cells.old ≡ size d * size d) × (length filling.now ≡ 4 * iterations * size d) × (iterations ≤ 20) }
    ensures { DecodingDone d iterations received.now (fillings filling.now) cells.new result }
{
    let mut entries = LineEntries::new();
    let tables = LineTables::new(d, &mut entries);
    decode_by(iterations, received, filling, cells, &tables)
}
