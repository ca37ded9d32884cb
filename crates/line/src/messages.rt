// The extrinsic messages of a line, and its count.
ghost use Rattle.std.specs.Prelude.{◌≡◌, true, false, ◌&&◌, List, ℕ, ◌+◌, ◌*◌, ◌<◌, ◌≤◌, eqb, MatchOption};
ghost use Rattle.laws.specs.Working.Bits.{bit_at};
ghost use Rattle.degree.specs.declared.Degree.{Degree};
ghost use Rattle.degree.specs.Degree.{size};
ghost use Rattle.line.specs.Working.Packed.{IsLine, Packs};
ghost use Rattle.line.specs.Cells.{cell, erasures, few, bit, filled, designed_distance};
ghost use Rattle.line.specs.Bounded.{Answer, bounded, or_back};
ghost use Rattle.line.specs.Decoding.{choice, replaced, message, messages, decoded};
ghost use Rattle.line.specs.Working.Settled.{if_near, instead, settled};
ghost use Rattle.line.specs.Clauses.{answer_cell, cost, clause, count};
ghost use Rattle.words.specs.Working.Word.{value, width};
ghost use Rattle.line.specs.Working.Tries.{Answers};
ghost use Rattle.line.specs.Working.Fillings.{TrialOf, BothOf, Based, Masks, start, stays, quiet, Quiet, tried_of};

use crate::bounded::{Correction, counted};
use crate::clause::{Base, Both, Clause, Trial};
use crate::decoding::{choose, decode_packed, or_back};
use crate::number::CellNumber;
use crate::packed::{Line, word_of};
use crate::side::Side;
use crate::tables::LineTables;
use crate::tally::Tally;
use words::word::{Word, and_words, is_zero, or_words, rest, without, xor_words, zero_word};

// ---- a cell settled by its clause

// Cell k of an answer to a line.
fn answer_at(z: Line, tried: Option<Correction>, k: CellNumber) -> u64
    ensures { (n : ℕ) (zs : List ℕ) (p : Answer) → Packs n zs z → Answers n p tried → result ≡ cell (or_back zs p) k.number }
{
    or_back(z, tried).cell_at(k)
}

// The choice with a new answer for one filling.
fn choose_with(
    z: Line,
    s: Side,
    tried: Option<Correction>,
    one: Option<Correction>,
    two: Option<Correction>,
) -> Option<Correction>
    ensures { (n : ℕ) (zs : List ℕ) (p q1 q2 : Answer) → Packs n zs z → Answers n p tried → Answers n q1 one → Answers n q2 two → Answers n (instead zs s p q1 q2) result }
{
    match s {
        Side::One => choose(z, tried, two),
        Side::Two => choose(z, one, tried),
    }
}

impl Trial {
    // What a filling found, where it is in reach at cell k, where the channel has c.
    fn near_only(&self, c: u64, k: CellNumber) -> Option<Correction>
        ensures { (d : Degree) (ys rs : List ℕ) (f : ℕ) (s : Side) → IsLine (size d) ys → IsLine (size d) rs → k.number < size d → c ≡ cell rs k.number → TrialOf d ys rs f s self.now → Answers (size d) (if_near (bounded d (filled s ys f)) (filled s (replaced ys rs k.number) f)) result }
    {
        let seen = self.seen_at(c, k);
        if seen.reach { self.tried } else { None }
    }
}

impl Base<'_> {
    // The incoming line with cell k put to what the channel has there.
    fn replaced(&self, k: CellNumber) -> Line
        ensures { (d : Degree) (ys rs : List ℕ) (f : ℕ) → k.number < size d → Based d ys rs f self.now → Packs (size d) (replaced ys rs k.number) result }
    {
        self.incoming.put(k, self.channel.cell_at(k))
    }

    // What a filling found.
    fn tried(&self, s: Side) -> Option<Correction>
        ensures { result ≡ tried_of self.now s }
    {
        match s {
            Side::One => self.one.tried,
            Side::Two => self.two.tried,
        }
    }

    // Cell k of what filling s found.
    fn reached_cell(&self, s: Side, k: CellNumber) -> u64
        ensures { (d : Degree) (ys rs : List ℕ) (f : ℕ) → k.number < size d → Based d ys rs f self.now → few ys ≡ true → result ≡ answer_cell (bounded d) ys rs f k.number (bounded d (filled s ys f)) }
    {
        answer_at(self.replaced(k), self.tried(s), k)
    }

    // Cell k of the choice between what both fillings found, by the replaced line.
    fn chosen_cell(&self, k: CellNumber) -> u64
        ensures { (d : Degree) (ys rs : List ℕ) (f : ℕ) → k.number < size d → Based d ys rs f self.now → few ys ≡ true → result ≡ answer_cell (bounded d) ys rs f k.number (choice (replaced ys rs k.number) (bounded d (filled Side.One ys f)) (bounded d (filled Side.Two ys f))) }
    {
        let z = self.replaced(k);
        answer_at(z, choose(z, self.one.tried, self.two.tried), k)
    }

    // An open cell: filling s of the replaced line is decoded once more.
    fn open_cell(&self, s: Side, k: CellNumber, count: u64) -> Tally<u64>
        requires { count < 900 }
        ensures { (result.count ≡ count + 1) × ((d : Degree) (ys rs : List ℕ) (f : ℕ) → k.number < size d → Based d ys rs f self.now → few ys ≡ true → result.value ≡ settled (bounded d) ys rs f k.number (Clause.Open s)) }
    {
        let z = self.replaced(k);
        let c = self.channel.cell_at(k);
        let words = z.fill(self.filling);
        let again = counted(word_of(words, s), count, self.tables);
        let one = self.one.near_only(c, k);
        let two = self.two.near_only(c, k);
        let best = choose_with(z, s, again.value, one, two);
        let message = answer_at(z, best, k);
        Tally {
            value: message,
            count: again.count,
        }
    }

    // A cell decoded afresh: the replaced line is decoded whole.
    fn fresh_cell(&self, k: CellNumber, count: u64) -> Tally<u64>
        requires { count < 800 }
        ensures { (result.count ≤ count + 2) × ((d : Degree) (ys rs : List ℕ) (f : ℕ) → k.number < size d → Based d ys rs f self.now → (result.value ≡ cell (decoded (bounded d) (replaced ys rs k.number) f) k.number) × (result.count ≡ count + 2 * bit (few (replaced ys rs k.number)))) }
    {
        let whole = decode_packed(self.replaced(k), self.filling, count, self.tables);
        Tally {
            value: whole.value.cell_at(k),
            count: whole.count,
        }
    }

    // The clauses of document 01, in its order: the message at cell k as its clause gives it.
    fn settle(&self, v: Clause, k: CellNumber, count: u64) -> Tally<u64>
        requires { count < 800 }
        ensures { (result.count ≤ count + 2) × ((d : Degree) (ys rs : List ℕ) (f : ℕ) → k.number < size d → Based d ys rs f self.now → v ≡ clause (bounded d) ys rs f k.number → (result.value ≡ settled (bounded d) ys rs f k.number v) × (result.count ≡ count + cost v)) }
    {
        match v {
            Clause::Open(s) => self.open_cell(s, k, count),
            Clause::Afresh => self.fresh_cell(k, count),
            Clause::Equal => Tally {
                value: self.own.cell_at(k),
                count,
            },
            Clause::Crowded => Tally { value: 2, count },
            Clause::Both => Tally {
                value: self.chosen_cell(k),
                count,
            },
            Clause::Agreeing(s) | Clause::Unchanged(s) => Tally {
                value: self.reached_cell(s, k),
                count,
            },
            Clause::Neither | Clause::Channel => Tally {
                value: self.channel.cell_at(k),
                count,
            },
        }
    }

    // The message at cell k.
    fn message_at(&self, k: CellNumber, count: u64) -> Tally<u64>
        requires { count < 800 }
        ensures { (result.count ≤ count + 2) × ((d : Degree) (ys rs : List ℕ) (f : ℕ) → k.number < size d → Based d ys rs f self.now → (result.value ≡ message (bounded d) ys rs f k.number) × (result.count ≡ count + cost (clause (bounded d) ys rs f k.number))) }
    {
        self.settle(self.clause_at(k), k, count)
    }
}

// ---- a line

// Both fillings decoded, where the erasures are few.
fn both_tried(y: Line, filling: Word, erased: u32, tables: &LineTables) -> Both
    ensures { (result.count ≤ 2) × ((ys : List ℕ) → Packs (size tables.now.degree) ys y → erased ≡ erasures ys → BothOf tables.now.degree ys (value filling) result) }
{
    if erased < Line::DISTANCE {
        let words = y.fill_if_erased(filling);
        let one = counted(words[0], 0, tables);
        let two = counted(words[1], one.count, tables);
        Both {
            one: one.value,
            two: two.value,
            count: two.count,
        }
    } else {
        Both {
            one: None,
            two: None,
            count: 0,
        }
    }
}

// The line that the messages start from: what the line decodes to, or where that fails its cells with those that the channel knows put
// in; with many erasures the channel line.
fn start_line(y: Line, r: Line, erased: u32, t: Both) -> Line
    ensures { (d : Degree) (ys rs : List ℕ) (f : ℕ) → Packs (size d) ys y → Packs (size d) rs r → erased ≡ erasures ys → BothOf d ys f t → Packs (size d) (start d ys rs f) result }
{
    if erased < Line::DISTANCE {
        or_back(r.known_else(y), choose(y, t.one, t.two))
    } else {
        r
    }
}

fn base_of<'a>(
    y: Line,
    r: Line,
    filling: Word,
    erased: u32,
    t: Both,
    tables: &'a LineTables<'a>,
) -> Base<'a>
    ensures { (result.count ≡ t.count) × ((ys rs : List ℕ) → Packs (size tables.now.degree) ys y → Packs (size tables.now.degree) rs r → erased ≡ erasures ys → BothOf tables.now.degree ys (value filling) t → Based tables.now.degree ys rs (value filling) result) }
{
    let words = y.fill(filling);
    let channel = r.fill(filling);
    Base {
        tables,
        incoming: y,
        channel: r,
        filling,
        erased,
        own: start_line(y, r, erased, t),
        one: Trial {
            before: words[0],
            channel: channel[0],
            tried: t.one,
        },
        two: Trial {
            before: words[1],
            channel: channel[1],
            tried: t.two,
        },
        count: t.count,
    }
}

// The cells at which a replaced line may have 6 erasures.
fn crowding(r: Line, erased: u32) -> Word
    requires { erased < designed_distance }
    ensures { (n : ℕ) (rs : List ℕ) → Packs n rs r → (k : ℕ) → bit_at (value result) k ≡ 0 → (eqb (erased + 1) designed_distance && eqb (cell rs k) 2) ≡ false }
{
    if erased + 1 == Line::DISTANCE {
        r.erased
    } else {
        zero_word()
    }
}

// The cells that differ from the channel's, or with exactly 6 erasures those known only there: at all others the message is the
// cell of the base line.
fn mask_of(y: Line, r: Line, erased: u32) -> Word
    ensures { (d : Degree) (ys rs : List ℕ) (f : ℕ) → Packs (size d) ys y → Packs (size d) rs r → erased ≡ erasures ys → Masks d ys rs f (value result) }
{
    if erased < Line::DISTANCE {
        y.differing(r)
    } else if erased == Line::DISTANCE {
        y.known_only_in(r)
    } else {
        zero_word()
    }
}

impl Trial {
    // The cells at which the codeword that was found may leave reach: it lies at 2, and the change at the cell leads away from it.
    fn leaving(&self, found: Correction) -> Word
        ensures { (k : ℕ) → bit_at (value result) k ≡ 0 → stays self.now found k ≡ true }
    {
        let moved = xor_words(self.before, self.channel);
        if found.changed < Line::RADIUS {
            zero_word()
        } else {
            without(moved, xor_words(found.word, self.before))
        }
    }
}

impl Base<'_> {
    // The cells that are settled one by one, by masks. Where both fillings decoded to one codeword, it is the message of each cell at
    // which it stays in reach of both, and it is the base line. Where both failed, the message is the channel's cell wherever that is
    // known, and so is the base line's cell.
    fn left_by_masks(&self) -> Word
        ensures { (d : Degree) (ys rs : List ℕ) (f : ℕ) → Based d ys rs f self.now → Masks d ys rs f (value result) }
    {
        let all = mask_of(self.incoming, self.channel, self.erased);
        if self.erased >= Line::DISTANCE {
            all
        } else {
            match (self.one.tried, self.two.tried) {
                (Some(one), Some(two)) => {
                    if one.word == two.word {
                        let crowded = crowding(self.channel, self.erased);
                        let leaving = or_words(self.one.leaving(one), self.two.leaving(two));
                        and_words(all, or_words(leaving, crowded))
                    } else {
                        all
                    }
                }
                (None, None) => and_words(all, self.channel.erased),
                _ => all,
            }
        }
    }

    // The cells that the masks leave, settled one by one.
    fn settle_left(&self) -> Tally<Line>
        requires { self.now.count ≤ 2 }
        ensures { (result.count ≤ 258) × ((d : Degree) (ys rs : List ℕ) (f : ℕ) → Based d ys rs f self.now → Packs (size d) (messages (bounded d) ys rs f) result.value × (result.count ≡ count (bounded d) ys rs f)) }
    {
        let mut line = self.own;
        let mut count = self.count;
        let mut left = self.left_by_masks();
        // An iterator over the set cells, for a `for` here, would need laws of its own for this one loop.
        while !is_zero(left) {
            let k = CellNumber::lowest(left);
            let m = self.message_at(k, count);
            line = line.put(k, m.value);
            count = m.count;
            left = rest(left);
        }
        Tally { value: line, count }
    }
}

// `==` says of two words that their parts are the same; this says it of what they stand for.
fn same_words(one: Word, two: Word) -> bool
    ensures { result ≡ eqb (value one) (value two) }
{
    one == two
}

// The codeword that both fillings decoded to, where no change of one cell takes it out of reach and no cell is crowded. It is then the
// message of every cell; in a decode most lines are so, and nothing else is looked at.
fn quiet_word(erased: u32, t: Both) -> Option<Word>
    ensures { MatchOption result (quiet erased t ≡ false) (Quiet erased t) }
{
    match (t.one, t.two) {
        (Some(one), Some(two)) => {
            let near = (one.changed < Line::RADIUS) & (two.changed < Line::RADIUS);
            if ((erased < Line::DISTANCE - 1) & near) & same_words(one.word, two.word) {
                Some(one.word)
            } else {
                None
            }
        }
        _ => None,
    }
}

// All messages of incoming line y with channel line r.
pub fn messages_of(y: Line, r: Line, filling: Word, tables: &LineTables) -> Tally<Line>
    ensures { (result.count ≤ 258) × ((ys rs : List ℕ) → Packs (size tables.now.degree) ys y → Packs (size tables.now.degree) rs r → Packs (size tables.now.degree) (messages (bounded tables.now.degree) ys rs (value filling)) result.value × (result.count ≡ count (bounded tables.now.degree) ys rs (value filling))) }
{
    let erased = y.count_erasures();
    let t = both_tried(y, filling, erased, tables);
    match quiet_word(erased, t) {
        Some(word) => Tally {
            value: Line::full(word),
            count: t.count,
        },
        None => base_of(y, r, filling, erased, t, tables).settle_left(),
    }
}
