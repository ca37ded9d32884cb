// Lines with unsure cells: line decoding, one decoding per cell for the messages, and the clause that each cell of a line falls
// under, tested from its definition. A cell is 0, 1 or 2, and 2 is unsure.
ghost use Rattle.std.specs.Prelude.{◌≡◌, ◌+◌, ◌*◌, ◌<◌, ◌≤◌, length, IfSome};
ghost use Rattle.second.specs.Working.Loops.{Below};
ghost use Rattle.second.specs.Working.Lines.{one_where, like, differences};

use crate::codes::Code;
use crate::codewords::{Decoder, Line};
use crate::tallies::Clauses;

// A filling word is two numbers, low word first: the bits of cells 0 to 63, and those of cells 64 to 127.
#[derive(Clone, Copy)]
pub struct FillingWord {
    pub low: u64,
    pub high: u64,
}

impl FillingWord {
    fn opposite(self) -> FillingWord {
        FillingWord {
            low: !self.low,
            high: !self.high,
        }
    }

    // Bit i, which serves cell i.
    fn bit(self, i: usize) -> u8
        requires { i < 128 }
        ensures { result < 2 }
    {
        if i < 64 {
            ((self.low >> i) % 2) as u8
        } else {
            ((self.high >> (i - 64)) % 2) as u8
        }
    }
}

// A cell, or the filling bit where it is unsure.
fn filled(cell: u8, bit: u8) -> u8
    ensures { cell < 3 → bit < 2 → result < 2 }
{
    if cell == 2 { bit } else { cell }
}

// The line with its filling bit in each unsure cell.
fn fill(code: Code, line: Line, filling: FillingWord) -> Line
    ensures { Below 3 line → Below 2 result }
{
    let mut word = [0u8; 128];
    for i in 0..code.n {
        word[i] = filled(line[i], filling.bit(i));
    }
    word
}

pub fn one_if(fact: bool) -> u64
    ensures { (result ≡ one_where fact) × (result ≤ 1) }
{
    u64::from(fact)
}

// A count adds 1 or 0 for each cell, without a branch, so that the compiler can take many cells at once.

// The cells that are like a given one: for 2 the unsure ones, for 1 the ones.
pub fn like(cell: u8, cells: &[u8]) -> u64
    ensures { (result ≡ like cell cells.now) × (result ≤ length cells.now) }
{
    let mut many = 0;
    for other in cells {
        many += one_if(*other == cell);
    }
    many
}

// The unsure cells.
pub fn unsure(cells: &[u8]) -> u64
    ensures { (result ≡ like 2 cells.now) × (result ≤ length cells.now) }
{
    like(2, cells)
}

// The known cells in which a word differs from a line.
pub fn differences(line: &[u8], word: &[u8]) -> u64
    ensures { (result ≡ differences line.now word.now) × (result ≤ length line.now) }
{
    let both = line.len().min(word.len());
    let mut many = 0;
    for i in 0..both {
        many += one_if((line[i] != 2) & (line[i] != word[i]));
    }
    many
}

// Of what the two filled words gave, that with fewer differences at the known cells; at a tie word one's.
fn choose(code: Code, line: Line, one: Option<Line>, two: Option<Line>) -> Option<Line>
    requires first { IfSome one (λ word. Below 3 line → Below 2 word) }
    requires other { IfSome two (λ word. Below 3 line → Below 2 word) }
    ensures { IfSome result (λ chosen. Below 3 line → Below 2 chosen) }
{
    match (one, two) {
        (Some(first), Some(other)) => {
            let known = &line[..code.n];
            if differences(known, &other) < differences(known, &first) {
                two
            } else {
                one
            }
        }
        _ => one.or(two),
    }
}

// ---- the clauses, in document 01's order; they are used for the count alone

// In this order they are tried: the first that fits settles a cell.
#[derive(Clone, Copy, PartialEq, Eq, Debug)]
pub enum Clause {
    Equal,
    Crowded,
    Both,
    Neither,
    Agreeing,
    Unchanged,
    Open,
    Afresh,
    Channel,
}

impl Clause {
    // The decodings that it adds to the two of its line.
    fn cost(self) -> u64
        ensures { result ≤ 2 }
    {
        match self {
            Clause::Open => 1,
            Clause::Afresh => 2,
            _ => 0,
        }
    }
}

// What the clauses ask of one filling at cell k.
#[derive(Clone, Copy)]
struct Filling {
    // Cell k of the codeword to which the incoming line's filled word decodes, if that is within 2 of the replaced line's filled word.
    reached: Option<u8>,
    // The filled word is unchanged by the replacement.
    unchanged: bool,
    // Cell k of the replaced line's filled word.
    replaced_cell: u8,
}

// One filling reaches a codeword with this cell, and the other does not.
fn clause_of_one(cell: u8, other: Filling) -> Clause {
    if cell == other.replaced_cell {
        Clause::Agreeing
    } else if other.unchanged {
        Clause::Unchanged
    } else {
        Clause::Open
    }
}

fn clause_by_reach(one: Filling, two: Filling, channel_cell: u8) -> Clause {
    match (one.reached, two.reached) {
        (Some(_), Some(_)) => Clause::Both,
        (Some(cell), None) => clause_of_one(cell, two),
        (None, Some(cell)) => clause_of_one(cell, one),
        (None, None) => {
            if channel_cell == 2 {
                Clause::Open
            } else {
                Clause::Neither
            }
        }
    }
}

// Six or more unsure cells come in: the cell is decoded afresh where it is one of six and the channel knows it.
fn clause_of_many(coming: u64, cell: u8, channel_cell: u8) -> Clause {
    if (coming == 6) & (cell == 2) & (channel_cell != 2) {
        Clause::Afresh
    } else {
        Clause::Channel
    }
}

// ---- decoding, and the messages

// The messages of a line, and its count.
#[derive(Clone, Copy)]
pub struct Outgoing {
    pub count: u64,
    pub line: Line,
}

impl Decoder {
    fn filled_decoded(&self, line: Line, filling: FillingWord) -> Option<Line>
        ensures { IfSome result (λ word. Below 3 line → Below 2 word) }
    {
        self.bounded_distance(fill(self.code, line, filling))
    }

    // Line decoding.
    pub fn decode(&self, line: Line, filling: FillingWord) -> Option<Line>
        ensures { IfSome result (λ decoded. Below 3 line → Below 3 decoded) }
    {
        match unsure(&line[..self.code.n]) {
            // Both filled words are the line, and give the same.
            0 => self.filled_decoded(line, filling),
            1..6 => {
                let one = self.filled_decoded(line, filling);
                let two = self.filled_decoded(line, filling.opposite());
                choose(self.code, line, one, two)
            }
            _ => None,
        }
    }

    // That cell k is one of the n is asked here and below: a type for it would be made anew for each cell of each line.
    fn filling_at(&self, incoming: Line, replaced: Line, filling: FillingWord, k: usize) -> Filling
        requires { k < self.now.code.n }
    {
        let n = self.code.n;
        let before = fill(self.code, incoming, filling);
        let after = fill(self.code, replaced, filling);
        let decoded = self.bounded_distance(before);
        Filling {
            reached: decoded
                .filter(|codeword| differences(&codeword[..n], &after) <= 2)
                .map(|codeword| codeword[k]),
            unchanged: before == after,
            replaced_cell: after[k],
        }
    }

    // The clause that settles cell k. `replaced` is the incoming line with the channel's cell k.
    fn clause(&self, incoming: Line, replaced: Line, filling: FillingWord, k: usize) -> Clause
        requires { k < self.now.code.n }
    {
        let n = self.code.n;
        let coming = unsure(&incoming[..n]);
        let cell = incoming[k];
        let channel_cell = replaced[k];
        if 6 <= coming {
            clause_of_many(coming, cell, channel_cell)
        } else if cell == channel_cell {
            Clause::Equal
        } else if unsure(&replaced[..n]) == 6 {
            Clause::Crowded
        } else {
            let one = self.filling_at(incoming, replaced, filling, k);
            let two = self.filling_at(incoming, replaced, filling.opposite(), k);
            clause_by_reach(one, two, channel_cell)
        }
    }

    // The message at cell k: cell k of the line decoding of the incoming line with the channel's cell k, or of that line where it fails.
    fn message(&self, replaced: Line, filling: FillingWord, k: usize) -> u8
        requires { k < self.now.code.n }
        ensures { Below 3 replaced → result < 3 }
    {
        self.decode(replaced, filling).unwrap_or(replaced)[k]
    }

    // All messages of a line: one decoding per cell. The count is 2 if fewer than 6 unsure cells come in, plus 1 for each cell that is
    // open, plus 2 for each that is decoded afresh.
    pub fn messages(
        &self,
        incoming: Line,
        channel: Line,
        filling: FillingWord,
        met: &mut Clauses,
    ) -> Outgoing
        ensures { (result.count ≤ 2 + 2 * self.now.code.n) × (Below 3 incoming → Below 3 channel → Below 3 result.line) }
    {
        let n = self.code.n;
        let mut line = [0u8; 128];
        let mut count = 2 * one_if(unsure(&incoming[..n]) < 6);
        for k in 0..n {
            let mut replaced = incoming;
            replaced[k] = channel[k];
            line[k] = self.message(replaced, filling, k);
            let clause = self.clause(incoming, replaced, filling, k);
            met.meet(clause);
            count += clause.cost();
        }
        Outgoing { count, line }
    }
}
