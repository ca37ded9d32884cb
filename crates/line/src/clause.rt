// What is known of a line before its cells are settled, and the clause of document 01 that settles the message at a cell.
ghost use Rattle.std.specs.Prelude.{◌≡◌, ◌&&◌, ◌||◌, not, List, ℕ, ◌<◌, eqb, ltb};
ghost use Rattle.degree.specs.declared.Degree.{Degree};
ghost use Rattle.degree.specs.Degree.{size};
ghost use Rattle.line.specs.Working.Packed.{IsLine};
ghost use Rattle.line.specs.Cells.{cell, designed_distance, radius};
ghost use Rattle.line.specs.Bounded.{bounded};
ghost use Rattle.line.specs.Clauses.{first_fit, clause};
ghost use Rattle.words.specs.Working.Word.{value, width};
ghost use Rattle.line.specs.Working.Fillings.{TrialOf, Sees, Based};

use crate::bounded::Correction;
use crate::number::CellNumber;
use crate::packed::{Line, word_cell};
use crate::side::Side;
use crate::tables::LineTables;
use words::word::Word;

// What settles the message at a cell: document 01's clauses in their order. A side says which filling's codeword is in reach
// or, of an open cell, which filling is decoded once more.
#[derive(Clone, Copy, Debug, PartialEq, Eq)]
pub enum Clause {
    Equal, // equal cells at k
    Crowded, // the replaced line has 6 unsure cells
    Both, // both in reach
    Neither, // none in reach, the channel cell known
    Agreeing(Side), // one in reach, and its codeword agrees at k with the other replaced filling
    Unchanged(Side), // one in reach, the other filling unchanged by the replacement
    Open(Side), // all others are open, and one further decoding settles each
    Afresh, // exactly 6, the incoming cell unsure and the channel's known
    Channel, // elsewhere the message is the channel cell
}

// One filling of a line, tried: the filled word, the channel line filled by the same bits, and what was found.
#[derive(Clone, Copy)]
pub struct Trial {
    pub before: Word,
    pub channel: Word,
    pub tried: Option<Correction>,
}

// What both fillings of a line gave, and the decodings counted.
#[derive(Clone, Copy)]
pub struct Both {
    pub one: Option<Correction>,
    pub two: Option<Correction>,
    pub count: u64,
}

// What a filling says at one cell.
#[derive(Clone, Copy)]
pub struct Seen {
    pub reach: bool,
    pub same: bool,
    pub value: u64,
    pub bit: u64,
}

// What is known of a line before its cells are settled: the incoming line, the channel line, the filling, and what came of them. That it
// is so (`Based`) is not kept in the type: messages may be asked for words that pack no cells, and then nothing is said of them.
#[derive(Clone, Copy)]
pub struct Base<'a> {
    pub tables: &'a LineTables<'a>,
    pub incoming: Line,
    pub channel: Line,
    pub filling: Word,
    pub erased: u32,
    pub own: Line,
    pub one: Trial,
    pub two: Trial,
    pub count: u64,
}

// A codeword that was found within 2 stays within 2, unless it lies at 2 and the change at the cell leads away from it.
fn reaches(changed: u64, before: u64, bit: u64, own: u64) -> bool
    ensures { result ≡ (ltb changed radius || (eqb before bit || not (eqb own before))) }
{
    (changed < Line::RADIUS) | ((before == bit) | (own != before))
}

impl Trial {
    // What a filling says at cell k, where the channel has c.
    pub fn seen_at(&self, c: u64, k: CellNumber) -> Seen
        ensures { (d : Degree) (ys rs : List ℕ) (f : ℕ) (s : Side) → IsLine (size d) ys → IsLine (size d) rs → k.number < size d → c ≡ cell rs k.number → TrialOf d ys rs f s self.now → Sees d ys rs f k.number s result }
    {
        let before = word_cell(self.before, k);
        let bit = word_cell(self.channel, k);
        let same = before == bit;
        match self.tried {
            Some(found) => {
                let own = word_cell(found.word, k);
                Seen {
                    reach: reaches(found.changed, before, bit, own),
                    same,
                    value: own,
                    bit,
                }
            }
            None => Seen {
                reach: false,
                same,
                value: c,
                bit,
            },
        }
    }
}

// The clauses in document 01's order, from what both fillings say at a cell where the channel has c.
fn by_reach(one: Seen, two: Seen, c: u64) -> Clause
    ensures { result ≡ first_fit one.reach two.reach (eqb c 2) (eqb one.value two.bit) (eqb two.value one.bit) one.same two.same }
{
    if one.reach & two.reach {
        Clause::Both
    } else if !(one.reach | two.reach) & (c != 2) {
        Clause::Neither
    } else if one.reach & (one.value == two.bit) {
        Clause::Agreeing(Side::One)
    } else if two.reach & (two.value == one.bit) {
        Clause::Agreeing(Side::Two)
    } else if one.reach & two.same {
        Clause::Unchanged(Side::One)
    } else if two.reach & one.same {
        Clause::Unchanged(Side::Two)
    } else if one.reach | one.same {
        Clause::Open(Side::Two)
    } else {
        Clause::Open(Side::One)
    }
}

// With 6 or more unsure cells coming in: exactly 6, the incoming cell unsure and the channel's known.
fn fresh(erased: u32, a: u64, c: u64) -> bool
    ensures { result ≡ (eqb erased designed_distance && (eqb a 2 && not (eqb c 2))) }
{
    (erased == Line::DISTANCE) & ((a == 2) & (c != 2))
}

impl Base<'_> {
    // The clause that settles cell k.
    pub fn clause_at(&self, k: CellNumber) -> Clause
        ensures { (d : Degree) (ys rs : List ℕ) (f : ℕ) → k.number < size d → Based d ys rs f self.now → result ≡ clause (bounded d) ys rs f k.number }
    {
        let a = self.incoming.cell_at(k);
        let c = self.channel.cell_at(k);
        if self.erased < Line::DISTANCE {
            if a == c {
                Clause::Equal
            } else if (self.erased + 1 == Line::DISTANCE) & (c == 2) {
                Clause::Crowded
            } else {
                by_reach(self.one.seen_at(c, k), self.two.seen_at(c, k), c)
            }
        } else if fresh(self.erased, a, c) {
            Clause::Afresh
        } else {
            Clause::Channel
        }
    }
}
