// A repeatable load, made here anew from document 02. The marks of the first places of the shuffled order are brought to their cells by
// undoing the shuffle: what it changed last, at place 1, is changed back first. So all draws are made before, and kept.
ghost use Rattle.std.specs.Prelude.{◌≡◌, ◌+◌, ◌-◌, ◌*◌, ◌%◌, ◌^◌, ◌<◌, ◌≤◌, length, slice_index, slice_index_or, swap};
ghost use Rattle.second.specs.Working.Loops.{written};
ghost use Rattle.second.specs.Working.Refusals.{refusal_in};
ghost use Rattle.second.specs.Working.Codes.{cells_of};
ghost use Rattle.second.specs.Working.Encoding.{message_area};
ghost use Rattle.second.specs.Working.Loads.{shifted, grown_times, draws_of, mark_of, changed_to, marked_cells, sent_cells, damaged_cell, is_degree, hits_refusal, load_refusal, LoadedOrKept};

use crate::arrays::{Cells, all_below};
use crate::codes::Code;
use crate::refusals::{Refusal, ask};

// ---- draws

// s after one more draw, by Marsaglia's shifts: "s ^= s << 13, s ^= s >> 7, s ^= s << 17 in 64 bits".
pub fn shift(s: u64) -> u64
    ensures { result ≡ shifted s }
{
    let a = s ^ (s << 13);
    let b = a ^ (a >> 7);
    b ^ (b << 17)
}

// "w grows by hexadecimal 9E3779B97F4A7C15, wrapping past 64 bits": with draw number k it is k times that, from its two halves.
fn grown(k: u32) -> u64
    ensures { result ≡ grown_times k }
{
    let high = u64::from(k) * 0x9E3779B9;
    let low = u64::from(k) * 0x7F4A7C15;
    (high << 32).wrapping_add(low)
}

// Draw number k, from s after so many draws: "the draw is s plus w, wrapping too".
pub fn draw(s: u64, k: u32) -> u64
    ensures { result ≡ (s + grown_times k) % 2 ^ 64 }
{
    s.wrapping_add(grown(k))
}

// What a load is asked for: a seed, and how many cells are to be inverted and to be unsure.
#[derive(Clone, Copy)]
pub struct Order {
    pub seed: u64,
    pub wrong: u64,
    pub unsure: u64,
}

// A number for each place.
type Draws = [u64; 16384];

// The draw of each place, "from the last place down to place 1".
fn put_draws(code: Code, seed: u64, draws: &mut Draws)
    ensures { draws.new ≡ draws_of seed (code.n * code.n) draws.old }
{
    let last = code.area().saturating_sub(1);
    let mut s = seed;
    for k in 0..last {
        s = shift(s);
        draws[last - k] = draw(s, (k + 1) as u32);
    }
}

// ---- the cells that are hit

// What becomes of a cell.
#[derive(Clone, Copy, PartialEq, Eq, Debug)]
pub enum Mark {
    Kept,
    Inverted,
    Unsure,
}

// A mark for each cell.
type Marks = [Mark; 16384];

// "The first D places in the shuffled order are inverted, the next E made unsure"; the others are kept.
fn mark_of(order: Order, p: u64) -> Mark
    ensures { result ≡ mark_of order.wrong order.unsure p }
{
    if p < order.wrong {
        Mark::Inverted
    } else if p - order.wrong < order.unsure {
        Mark::Unsure
    } else {
        Mark::Kept
    }
}

fn put_marks(order: Order, marks: &mut Marks)
    ensures { marks.new ≡ written (λ p. p) (mark_of order.wrong order.unsure) 16384 marks.old }
{
    for p in 0..16384 {
        marks[p] = mark_of(order, p as u64);
    }
}

// The place that changes with place i: "The place numbered by the draw modulo i + 1".
fn partner(draw: u64, i: usize) -> usize
    requires { i < 16384 }
    ensures { (result ≡ draw % (i + 1)) × (result < 16384) }
{
    (draw % (i as u64 + 1)) as usize
}

// "Place i changes with" it.
fn change(draw: u64, i: usize, marks: &mut Marks)
    requires { i < 16384 }
    ensures { marks.new ≡ swap marks.old i (draw % (i + 1)) }
{
    marks.swap(i, partner(draw, i));
}

// From place 1 up to the last.
fn change_back(code: Code, draws: &Draws, marks: &mut Marks)
    ensures { marks.new ≡ changed_to draws.now (code.n * code.n - 1) marks.old }
{
    let last = code.area().saturating_sub(1);
    for k in 0..last {
        change(draws[k + 1], k + 1, marks);
    }
}

// The mark of each cell.
fn marked_cells(code: Code, order: Order) -> Marks
    ensures { result ≡ marked_cells (code.n * code.n) order.seed order.wrong order.unsure }
{
    let mut draws = [0u64; 16384];
    put_draws(code, order.seed, &mut draws);
    let mut marks = [Mark::Kept; 16384];
    put_marks(order, &mut marks);
    change_back(code, &draws, &mut marks);
    marks
}

// ---- the sheet

// "The sheet encoded from a lent message".
fn sent_cells(code: Code, message: &[u8]) -> Cells
    requires { length message.now ≡ message_area code.n }
    ensures { result ≡ sent_cells code.n message.now }
{
    let mut cells = [0u8; 16384];
    code.put_message(message, &mut cells);
    code.encode_array(&mut cells);
    cells
}

fn damaged_cell(cell: u8, mark: Mark) -> u8
    ensures { result ≡ damaged_cell cell mark }
{
    match mark {
        Mark::Kept => cell,
        Mark::Inverted => cell ^ 1,
        Mark::Unsure => 2,
    }
}

fn put_damaged(sent: &Cells, marks: &Marks, cells: &mut [u8])
    requires { length cells.old ≤ 16384 }
    ensures { cells.new ≡ written (λ i. i) (λ i. damaged_cell (slice_index sent.now i) (slice_index_or marks.now i Mark.Kept)) (length cells.old) cells.old }
{
    for i in 0..cells.len() {
        cells[i] = damaged_cell(sent[i], marks[i]);
    }
}

// ---- the call

fn is_degree(degree: u64) -> bool
    ensures { result ≡ is_degree degree }
{
    matches!(degree, 4 | 6 | 7)
}

// "8: seed 0; 9: D + E above n × n; both after 4, in that order".
fn test_order(code: Code, order: Order) -> Result<(), Refusal>
    ensures { refusal_in result ≡ hits_refusal code.n order.seed order.wrong order.unsure }
{
    let area = code.area() as u64;
    ask(order.seed != 0, Refusal::Seed)?;
    ask(
        order.wrong <= area && order.unsure <= area - order.wrong,
        Refusal::Hits,
    )
}

// All tests of a call whose cells are so many: before those of the order stand the degree, the lengths and the message.
fn test_call(degree: u64, order: Order, message: &[u8], long: usize) -> Result<(), Refusal>
    ensures { refusal_in result ≡ load_refusal degree order.seed order.wrong order.unsure message.now long }
{
    let code = Code::of_degree(degree);
    ask(is_degree(degree), Refusal::Degree)?;
    ask(
        (message.len() == code.message_area()) & (long == code.area()),
        Refusal::Length,
    )?;
    ask(all_below(2, message), Refusal::Cell)?;
    test_order(code, order)
}

// Writes a load.
pub fn load(degree: u64, order: Order, message: &[u8], cells: &mut [u8]) -> Result<(), Refusal>
    ensures refusal { refusal_in result ≡ load_refusal degree order.seed order.wrong order.unsure message.now (length cells.old) }
    ensures left { LoadedOrKept (cells_of degree) order.seed order.wrong order.unsure message.now cells.old (refusal_in result) cells.new }
{
    test_call(degree, order, message, cells.len())?;
    let code = Code::of_degree(degree);
    let sent = sent_cells(code, message);
    let marks = marked_cells(code, order);
    put_damaged(&sent, &marks, cells);
    Ok(())
}
