// The entries: what a caller outside may use. Each takes plain numbers and lent slices, asks nothing of them, and tests them
// in document 01's order.
ghost use Rattle.std.specs.Prelude.{◌≡◌, [], ℕ, ◌%◌, length};
ghost use Rattle.degree.specs.Degree.{size};
ghost use Rattle.line.specs.Working.Packed.{IsLine, Packs};
ghost use Rattle.line.specs.Cells.{IsWord, filling_word};
ghost use Rattle.words.specs.Working.Word.{value};
ghost use Rattle.line.specs.Bounded.{Answer, bounded, or_back};
ghost use Rattle.line.specs.Decoding.{decode, messages as messages_by};
ghost use Rattle.line.specs.Clauses.{count as count_by};
ghost use Rattle.line.specs.Working.Tries.{Answers};
ghost use Rattle.line.specs.Entries.{line_numbers, Answered, WordAnswered, BoundedDone, DecodeLineDone, MessagesDone};

use crate::bounded::{Correction, bounded_word};
use crate::decoding::{or_back, try_packed};
use crate::messages::messages_of;
use crate::packed::Line;
use crate::refusals::{Refusal, line_test, messages_test};
use crate::row::update_row;
use crate::tables::{LineEntries, LineTables};
use degree::Degree;
use words::word::{Word, of_numbers};

// ---- one word, one line

// What was found is written in place of the cells; cells that failed stay as they came.
fn put_found(cells: &mut [u8], y: Line, tried: Option<Correction>)
    requires { length cells.old % 8 ≡ 0 }
    ensures { (n : ℕ) (p : Answer) → Packs n cells.old y → Answers n p tried → cells.new ≡ or_back cells.old p }
{
    update_row(cells, y, or_back(y, tried))
}

fn bounded_taken(d: Degree, word: &mut [u8]) -> Option<u64>
    requires { IsWord (size d) word.old }
    ensures { WordAnswered 0 (bounded d word.old) word.old word.new (Ok result) }
{
    let mut entries = LineEntries::new();
    let tables = LineTables::new(d, &mut entries);
    let y = Line::pack(word);
    let tried = bounded_word(y.ones, &tables); // no cell of a full word is unsure
    put_found(word, y, tried);
    tried.map(|found| found.changed)
}

fn decode_taken(d: Degree, cells: &mut [u8], filling: Word) -> bool
    requires { IsLine (size d) cells.old }
    ensures { Answered 0 (decode (bounded d) cells.old (value filling)) cells.old cells.new (line_numbers (Ok result)) }
{
    let mut entries = LineEntries::new();
    let tables = LineTables::new(d, &mut entries);
    let y = Line::pack(cells);
    let tried = try_packed(y, filling, 0, &tables);
    put_found(cells, y, tried.value);
    tried.value.is_some()
}

// The messages are written, the count is handed back.
fn send_taken(d: Degree, incoming: &[u8], channel: &[u8], filling: Word, messages: &mut [u8]) -> u64
    requires { IsLine (size d) incoming.now × IsLine (size d) channel.now × (length messages.old ≡ size d) }
    ensures { (result ≡ count_by (bounded d) incoming.now channel.now (value filling)) × (messages.new ≡ messages_by (bounded d) incoming.now channel.now (value filling)) }
{
    let mut entries = LineEntries::new();
    let tables = LineTables::new(d, &mut entries);
    let y = Line::pack(incoming);
    let r = Line::pack(channel);
    let sent = messages_of(y, r, filling, &tables);
    sent.value.unpack(messages);
    sent.count
}

// ---- the entries

// Bounded-distance decoding of a full word, in place: the number of cells that it changed, or none where it failed.
pub fn bounded_distance(degree: u64, word: &mut [u8]) -> Result<Option<u64>, Refusal>
    ensures { BoundedDone degree word.old [] word.new result }
{
    let d = line_test(degree, word, 1)?;
    Ok(bounded_taken(d, word))
}

// Line decoding, in place, with a filling word of two numbers: did it find a codeword?
pub fn decode_line(
    degree: u64,
    cells: &mut [u8],
    filling_low: u64,
    filling_high: u64,
) -> Result<bool, Refusal>
    ensures { DecodeLineDone degree (filling_word filling_low filling_high) cells.old [] cells.new result }
{
    let d = line_test(degree, cells, 2)?;
    Ok(decode_taken(d, cells, of_numbers(filling_low, filling_high)))
}

// The outgoing messages of a line, written to `messages`, and its count.
pub fn line_messages(
    degree: u64,
    incoming: &[u8],
    channel: &[u8],
    filling_low: u64,
    filling_high: u64,
    messages: &mut [u8],
) -> Result<u64, Refusal>
    ensures { MessagesDone degree incoming.now channel.now (filling_word filling_low filling_high) messages.old [] messages.new result }
{
    let d = messages_test(degree, incoming, channel, messages)?;
    let filling = of_numbers(filling_low, filling_high);
    Ok(send_taken(d, incoming, channel, filling, messages))
}
