// The error positions that fit two check sums: by a search for two, and at degree 6 by a fixed table.
ghost use Rattle.std.specs.Prelude.{◌≡◌, ◌≢◌, ℕ, ◌+◌, ◌*◌, ◌<◌, eqb};
ghost use Rattle.laws.specs.Digits.{digits};
ghost use Rattle.words.specs.Working.Word.{value, width};
ghost use Rattle.degree.specs.Degree.{size, order};
ghost use Rattle.field.specs.Working.Positions.{located, at_most_one, usable, Below};
ghost use Rattle.field.specs.Working.Fitting.{Paired};
ghost use Rattle.field.specs.Working.Places.{positions_of, IsPlace};

use crate::places::place_six;
use crate::tables::FieldTables;
use degree::Degree;
use words::word::Word;

// No Option: that no cells fit is an answer like the others, and a `match` names all four at once.
// Cells below n - 1 that are wrong.
#[derive(Clone, Copy, PartialEq, Eq, Debug)]
pub enum Positions {
    Zero,
    One(usize),
    Two(usize, usize),
    Unfit,
}

// Where a word is wrong: its error positions, as an entry of the table, from which a word is mended without a branch on how many there
// are; and its parity. Both are 0 exactly where the word needs no mending.
#[derive(Clone, Copy)]
pub struct Place {
    pub entry: u16,
    pub parity: u16,
}

// The entry that stands for positions.
fn entry_of(positions: Positions) -> u16
    requires { Below 128 positions }
    ensures { positions_of result ≡ positions }
{
    match positions {
        Positions::Zero => 0,
        Positions::One(only) => 16384 + only as u16,
        Positions::Two(low, high) => 32768 + low as u16 + 128 * (high as u16),
        Positions::Unfit => 49152,
    }
}

// That a check sum is below n is asked, and no type keeps it: it would carry the degree once more, beside the tables.

impl FieldTables<'_> {
    // At most one position that fits. It needs no search: s1 is its power.
    pub fn locate_single(&self, s1: u16, s3: u16) -> Positions
        requires { s1 < size self.now.degree }
        ensures { result ≡ at_most_one (located self.now.degree s1 s3) }
    {
        if s1 == 0 {
            if s3 == 0 {
                Positions::Zero
            } else {
                Positions::Unfit
            }
        } else {
            let i = self.log(s1);
            if self.weight(i) / 128 % 128 == s3 {
                Positions::One(i)
            } else {
                Positions::Unfit
            }
        }
    }

    // Two positions that fit, one of them i, if there are. What i leaves of s1 is the power of the other; both sums are compared at once,
    // side by side as in a weight. Whether the other is above i is not asked: the search would have met it before.
    fn pair_with(&self, s1: u16, s3: u16, i: usize) -> Option<Positions>
        requires { (s1 < size self.now.degree) × (s3 < size self.now.degree) × (s1 ≢ 0) × (i < order self.now.degree) }
        ensures { Paired self.now.degree s1 s3 i result }
    {
        let weight = self.weight(i);
        let rest = s1 ^ (weight % 128);
        if rest == 0 {
            None
        } else {
            let j = self.log(rest);
            let sums = s1 + 128 * s3;
            if weight ^ self.weight(j) == sums {
                Some(Positions::Two(i, j))
            } else {
                None
            }
        }
    }

    // Two positions that fit, where no fewer do: a search over the lower one.
    fn locate_pair(&self, s1: u16, s3: u16) -> Positions
        requires { (s1 < size self.now.degree) × (s3 < size self.now.degree) × (s1 ≢ 0) × (at_most_one (located self.now.degree s1 s3) ≡ Positions.Unfit) }
        ensures { result ≡ located self.now.degree s1 s3 }
    {
        (0..self.order())
            .find_map(|i| self.pair_with(s1, s3, i))
            .unwrap_or(Positions::Unfit)
    }

    // The at most two positions whose powers add up to s1 and whose cubes add up to s3. No two powers add up to 0.
    pub fn locate(&self, s1: u16, s3: u16) -> Positions
        requires { (s1 < size self.now.degree) × (s3 < size self.now.degree) }
        ensures { result ≡ located self.now.degree s1 s3 }
    {
        let single = self.locate_single(s1, s3);
        if s1 == 0 {
            single
        } else {
            match single {
                Positions::Unfit => self.locate_pair(s1, s3),
                _ => single,
            }
        }
    }

    // The positions that fit two check sums, by a search, as an entry. Two wrong positions make an even word; of an odd word, in which
    // the last cell is wrong too, they can't be mended, and no time is spent on a search for them. It is not compiled into its caller,
    // where the registers that it needs would be saved for every word of degree 6.
    #[inline(never)]
    fn searched_place(&self, s1: u16, s3: u16, parity: u16) -> u16
        requires { (s1 < size self.now.degree) × (s3 < size self.now.degree) }
        ensures { usable (eqb parity 0) (positions_of result) ≡ usable (eqb parity 0) (located self.now.degree s1 s3) }
    {
        let positions = if parity == 0 {
            self.locate(s1, s3)
        } else {
            self.locate_single(s1, s3)
        };
        entry_of(positions)
    }

    // The positions that fit two check sums, as an entry: at degree 6 read off the table, at another degree by a search.
    fn place(&self, s1: u16, s3: u16, parity: u16) -> u16
        requires { (s1 < size self.now.degree) × (s3 < size self.now.degree) }
        ensures { usable (eqb parity 0) (positions_of result) ≡ usable (eqb parity 0) (located self.now.degree s1 s3) }
    {
        match self.degree {
            Degree::Six => place_six(s1, s3),
            _ if (s1 == 0) & (s3 == 0) => 0, // mostly so, and then nothing is looked for
            _ => self.searched_place(s1, s3, parity),
        }
    }

    // A word's place. The word is lent: handed over by value it is copied first, and that took a tenth of a decode.
    pub fn word_place(&self, word: &Word) -> Place
        ensures { IsPlace self.now.degree (digits width (value word.now)) result }
    {
        let s = self.syndrome(word);
        let entry = self.place(s.s1, s.s3, s.parity);
        Place {
            entry,
            parity: s.parity,
        }
    }
}
