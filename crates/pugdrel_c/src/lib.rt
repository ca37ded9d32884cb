// The entries for callers in C and Rust, as a static library. Each export calls the function of its name in the crate `pugdrel` and
// says the same; include/pugdrel.h declares them for C.
#![tactic(auto)]

ghost use Rattle.std.specs.Prelude.{◌≡◌};
ghost use Rattle.line.specs.Cells.{filling_word};
ghost use Rattle.array.specs.Entries.{Encoded, Extracted};
ghost use Rattle.blocks.specs.Entries.{WriteDone};
ghost use Rattle.load.specs.Entries.{Loaded};
ghost use Rattle.pugdrel.specs.ArrayCalls.{DecodeTold, RowTold};
ghost use Rattle.pugdrel.specs.LineCalls.{BoundedTold, DecodeLineTold, MessagesTold};
ghost use Rattle.pugdrel.specs.SheetCall.{SheetTold};
ghost use Rattle.pugdrel.specs.FileCalls.{ReadTold};
ghost use Rattle.pugdrel.specs.Version.{version};

use pugdrel::{arrays, files, lines, loads, sheets, versions};

// ---- an array

// Decodes the received array into `cells`. Reports the count, the cells still unsure, and closed.
#[unsafe(no_mangle)]
pub extern "C" fn pugdrel_decode(
    degree: u64,
    iterations: u64,
    received: &[u8],
    filling: &[u64],
    cells: &mut [u8],
    report: &mut [u64],
) -> u64
    ensures { DecodeTold degree iterations received.now filling.now cells.old cells.new report.old report.new result }
{
    arrays::pugdrel_decode(degree, iterations, received, filling, cells, report)
}

// The array of a message.
#[unsafe(no_mangle)]
pub extern "C" fn pugdrel_encode(degree: u64, message: &[u8], cells: &mut [u8]) -> u64
    ensures { Encoded degree message.now cells.old cells.new result }
{
    arrays::pugdrel_encode(degree, message, cells)
}

// The message of an array, its cells as they are.
#[unsafe(no_mangle)]
pub extern "C" fn pugdrel_extract(degree: u64, cells: &[u8], message: &mut [u8]) -> u64
    ensures { Extracted degree cells.now message.old message.new result }
{
    arrays::pugdrel_extract(degree, cells, message)
}

// Looks up a row. Its place is reported: where it starts in `cells`, and its length.
#[unsafe(no_mangle)]
pub extern "C" fn pugdrel_row(degree: u64, cells: &[u8], index: usize, report: &mut [u64]) -> u64
    ensures { RowTold degree cells.now index report.old report.new result }
{
    arrays::pugdrel_row(degree, cells, index, report)
}

// ---- one word or line

// Bounded-distance decoding of a full word, in place. Reports found, and the number of cells changed.
#[unsafe(no_mangle)]
pub extern "C" fn pugdrel_bounded_distance(degree: u64, word: &mut [u8], report: &mut [u64]) -> u64
    ensures { BoundedTold degree word.old word.new report.old report.new result }
{
    lines::pugdrel_bounded_distance(degree, word, report)
}

// Line decoding, in place. Reports found.
#[unsafe(no_mangle)]
pub extern "C" fn pugdrel_decode_line(
    degree: u64,
    cells: &mut [u8],
    filling_low: u64,
    filling_high: u64,
    report: &mut [u64],
) -> u64
    ensures { DecodeLineTold degree (filling_word filling_low filling_high) cells.old cells.new report.old report.new result }
{
    lines::pugdrel_decode_line(degree, cells, filling_low, filling_high, report)
}

// The outgoing messages of a line, written to `messages`. Reports the count.
#[unsafe(no_mangle)]
pub extern "C" fn pugdrel_messages(
    degree: u64,
    incoming: &[u8],
    channel: &[u8],
    filling_low: u64,
    filling_high: u64,
    messages: &mut [u8],
    report: &mut [u64],
) -> u64
    ensures { MessagesTold degree incoming.now channel.now (filling_word filling_low filling_high) messages.old messages.new report.old report.new result }
{
    lines::pugdrel_messages(
        degree,
        incoming,
        channel,
        filling_low,
        filling_high,
        messages,
        report,
    )
}

// ---- the text form of an array

// Writes what the program `sheet` prints for the input to the front of `output`. Reports how many bytes that are.
#[unsafe(no_mangle)]
pub extern "C" fn pugdrel_sheet(input: &[u8], output: &mut [u8], report: &mut [u64]) -> u64
    ensures { SheetTold input.now output.old output.new report.old report.new result }
{
    sheets::pugdrel_sheet(input, output, report)
}

// ---- a sheet in blocks

// Reads a file of three blocks into `cells`. Reports the sheet number.
#[unsafe(no_mangle)]
pub extern "C" fn pugdrel_read_blocks(file: &[u8], cells: &mut [u8], report: &mut [u64]) -> u64
    ensures { ReadTold file.now cells.old cells.new report.old report.new result }
{
    files::pugdrel_read_blocks(file, cells, report)
}

// Writes the three blocks of a sheet and its number.
#[unsafe(no_mangle)]
pub extern "C" fn pugdrel_write_blocks(number: u16, cells: &[u8], file: &mut [u8]) -> u64
    ensures { WriteDone number cells.now file.old file.new result }
{
    files::pugdrel_write_blocks(number, cells, file)
}

// ---- a sheet from a seed

// The sheet encoded from a message, with so many cells wrong and so many unsure, at places that the seed decides.
#[unsafe(no_mangle)]
pub extern "C" fn pugdrel_load(
    degree: u64,
    seed: u64,
    wrong: u64,
    unsure: u64,
    message: &[u8],
    cells: &mut [u8],
) -> u64
    ensures { Loaded degree seed wrong unsure message.now cells.old cells.new result }
{
    loads::pugdrel_load(degree, seed, wrong, unsure, message, cells)
}

// ---- the version

// The version of the library, for a caller to compare with that of its header.
#[unsafe(no_mangle)]
pub extern "C" fn pugdrel_version() -> u64
    ensures { result ≡ version }
{
    versions::pugdrel_version()
}
