// The calls of an array.
ghost use Rattle.std.specs.Prelude.{◌≡◌};
ghost use Rattle.array.specs.Entries.{Encoded, Extracted};
ghost use Rattle.pugdrel.specs.ArrayCalls.{DecodeTold, RowTold};
ghost use Rattle.pugdrel.specs.Working.Numbers.{report_numbers};

use crate::reports::{lent, tell};
use array::encoding::encode;
use array::entry::decode;
use array::extraction::extract;
use array::report::Report;
use array::rows::look_up;
use line::refusals::{Refusal, refusal_of};

// An answer in document 01's numbers: the report; a refused call reports zeros.
fn report_numbers(answer: &Result<Report, Refusal>) -> [u64; 3]
    ensures { result ≡ report_numbers answer.now }
{
    match answer {
        Ok(report) => [report.count, report.erasures, u64::from(report.closed)],
        Err(_) => [0, 0, 0],
    }
}

// Decodes the received array into `cells`. Reports the count, the cells still unsure, and closed.
pub fn pugdrel_decode(
    degree: u64,
    iterations: u64,
    received: &[u8],
    filling: &[u64],
    cells: &mut [u8],
    report: &mut [u64],
) -> u64
    ensures { DecodeTold degree iterations received.now filling.now cells.old cells.new report.old report.new result }
{
    let end = lent(report.len() == 3, received.len());
    let answer = decode(degree, iterations, &received[..end], filling, cells);
    let numbers = report_numbers(&answer);
    tell(&numbers, report);
    refusal_of(&answer)
}

// The array of a message.
pub fn pugdrel_encode(degree: u64, message: &[u8], cells: &mut [u8]) -> u64
    ensures { Encoded degree message.now cells.old cells.new result }
{
    let answer = encode(degree, message, cells);
    refusal_of(&answer)
}

// The message of an array, its cells as they are.
pub fn pugdrel_extract(degree: u64, cells: &[u8], message: &mut [u8]) -> u64
    ensures { Extracted degree cells.now message.old message.new result }
{
    let answer = extract(degree, cells, message);
    refusal_of(&answer)
}

// Looks up a row. A part of a slice is no plain number, so its place is reported: where it starts in `cells`, and its length.
pub fn pugdrel_row(degree: u64, cells: &[u8], index: usize, report: &mut [u64]) -> u64
    ensures { RowTold degree cells.now index report.old report.new result }
{
    let end = lent(report.len() == 2, cells.len());
    let answer = look_up(degree, &cells[..end], index);
    let number = refusal_of(&answer);
    let long = answer.unwrap_or(&cells[..0]).len(); // 0 where it is refused, and then so is the start
    let numbers = [(index * long) as u64, long as u64];
    tell(&numbers, report);
    number
}
