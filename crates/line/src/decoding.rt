// Line decoding in the order of Algorithm 1 of source document 000: fill, decode both words, measure and choose.
ghost use Rattle.std.specs.Prelude.{◌≡◌, List, ℕ, ◌+◌, ◌*◌, ◌<◌, ◌≤◌};
ghost use Rattle.degree.specs.Degree.{size};
ghost use Rattle.line.specs.Cells.{few, bit};
ghost use Rattle.line.specs.Bounded.{Answer, bounded, or_back};
ghost use Rattle.line.specs.Decoding.{choice, decode, decoded};
ghost use Rattle.line.specs.Working.Packed.{Packs};
ghost use Rattle.words.specs.Working.Word.{value};
ghost use Rattle.line.specs.Working.Tries.{Answers};

use crate::bounded::{Correction, counted};
use crate::packed::Line;
use crate::tables::LineTables;
use crate::tally::Tally;
use words::word::Word;

// Lines 8 to 14 of Algorithm 1: a word that failed is out; of two codewords the one with fewer differences at the line's
// known cells, at a tie the first. One codeword needs no measuring.
pub fn choose(y: Line, one: Option<Correction>, two: Option<Correction>) -> Option<Correction>
    ensures { (n : ℕ) (ys : List ℕ) (p q : Answer) → Packs n ys y → Answers n p one → Answers n q two → Answers n (choice ys p q) result }
{
    match (one, two) {
        (Some(first), Some(second)) => {
            if first.word == second.word {
                one
            } else if y.count_differences(second.word) < y.count_differences(first.word) {
                two
            } else {
                one
            }
        }
        (Some(_), None) => one,
        (None, _) => two,
    }
}

// A line that fails is given back as it came.
pub fn or_back(y: Line, tried: Option<Correction>) -> Line
    ensures { (n : ℕ) (ys : List ℕ) (p : Answer) → Packs n ys y → Answers n p tried → Packs n (or_back ys p) result }
{
    match tried {
        Some(found) => Line::full(found.word),
        None => y,
    }
}

// Algorithm 1: count the unsure cells, and with fewer than 6 fill, decode both words, measure and choose.
pub fn try_packed(
    y: Line,
    filling: Word,
    count: u64,
    tables: &LineTables,
) -> Tally<Option<Correction>>
    requires { count < 900 }
    ensures { (result.count ≤ count + 2) × ((ys : List ℕ) → Packs (size tables.now.degree) ys y → Answers (size tables.now.degree) (decode (bounded tables.now.degree) ys (value filling)) result.value × (result.count ≡ count + 2 * bit (few ys))) }
{
    if y.count_erasures() < Line::DISTANCE {
        let words = y.fill(filling);
        let one = counted(words[0], count, tables);
        let two = counted(words[1], one.count, tables);
        Tally {
            value: choose(y, one.value, two.value),
            count: two.count,
        }
    } else {
        Tally { value: None, count }
    }
}

// Line decoding: what Algorithm 1 found, or the line as it came.
pub fn decode_packed(y: Line, filling: Word, count: u64, tables: &LineTables) -> Tally<Line>
    requires { count < 900 }
    ensures { (result.count ≤ count + 2) × ((ys : List ℕ) → Packs (size tables.now.degree) ys y → Packs (size tables.now.degree) (decoded (bounded tables.now.degree) ys (value filling)) result.value × (result.count ≡ count + 2 * bit (few ys))) }
{
    let tried = try_packed(y, filling, count, tables);
    Tally {
        value: or_back(y, tried.value),
        count: tried.count,
    }
}
