// The calls of one word or line.
ghost use Rattle.std.specs.Prelude.{◌≡◌};
ghost use Rattle.line.specs.Cells.{filling_word};
ghost use Rattle.pugdrel.specs.LineCalls.{BoundedTold, DecodeLineTold, MessagesTold};
ghost use Rattle.pugdrel.specs.Working.Numbers.{found_numbers};

use crate::reports::{lent, tell};
use line::entry::{bounded_distance, decode_line, line_messages};
use line::refusals::{Refusal, refusal_of};

// An answer in document 01's numbers: found, and the number of cells changed.
fn found_numbers(answer: &Result<Option<u64>, Refusal>) -> [u64; 2]
    ensures { result ≡ found_numbers answer.now }
{
    match answer {
        Ok(Some(changed)) => [1, *changed],
        Ok(None) => [0, 0], // the word is as it came
        Err(_) => [0, 0],
    }
}

// Bounded-distance decoding of a full word, in place. Reports found, and the number of cells changed.
pub fn pugdrel_bounded_distance(degree: u64, word: &mut [u8], report: &mut [u64]) -> u64
    ensures { BoundedTold degree word.old word.new report.old report.new result }
{
    let end = lent(report.len() == 2, word.len());
    let answer = bounded_distance(degree, &mut word[..end]);
    let numbers = found_numbers(&answer);
    tell(&numbers, report);
    refusal_of(&answer)
}

// Line decoding, in place. Reports found.
pub fn pugdrel_decode_line(
    degree: u64,
    cells: &mut [u8],
    filling_low: u64,
    filling_high: u64,
    report: &mut [u64],
) -> u64
    ensures { DecodeLineTold degree (filling_word filling_low filling_high) cells.old cells.new report.old report.new result }
{
    let end = lent(report.len() == 1, cells.len());
    let answer = decode_line(degree, &mut cells[..end], filling_low, filling_high);
    let numbers = [u64::from(answer.unwrap_or(false))];
    tell(&numbers, report);
    refusal_of(&answer)
}

// The outgoing messages of a line, written to `messages`. Reports the count.
pub fn pugdrel_messages(
    degree: u64,
    incoming: &[u8],
    channel: &[u8],
    filling_low: u64,
    filling_high: u64,
    messages: &mut [u8],
    report: &mut [u64],
) -> u64
    ensures { MessagesTold degree incoming.now channel.now (filling_word filling_low filling_high) messages.old messages.new report.old report.new result }
{
    let end = lent(report.len() == 1, incoming.len());
    let answer = line_messages(
        degree,
        &incoming[..end],
        channel,
        filling_low,
        filling_high,
        messages,
    );
    let numbers = [answer.unwrap_or(0)];
    tell(&numbers, report);
    refusal_of(&answer)
}
