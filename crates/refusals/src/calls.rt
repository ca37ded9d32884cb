// What a call is made of, by one number: its digits choose the degree, the iterations, the lengths of up to three slices, the row, and the
// cell that is spoilt in the first and in the second slice. Digit 0 is always right.
ghost use Rattle.std.specs.Prelude.{◌+◌, ◌≤◌};

use line::refusals::{Refusal, refusal_of};
use second::codes::Code;
use second::tallies::{Tally, same, tick_if};

pub type Digits = [usize; 8];

// How many more values than 0 each digit has.
pub type More = [u8; 8];

pub(crate) fn digits_of(more: &More, t: usize) -> Digits {
    let mut digits = [0usize; 8];
    let mut rest = t;
    for (digit, more) in digits.iter_mut().zip(more) {
        let values = 1 + usize::from(*more);
        *digit = rest % values;
        rest /= values;
    }
    digits
}

// Two lots of four degrees, whose calls are counted apart.
pub type Lot = [u64; 4];

pub const LOWER: Lot = [4, 6, 5, 0];

pub const HIGHER: Lot = [7, 8, 3, u64::MAX];

const ITERATIONS: [u64; 4] = [1, 20, 0, 21];

// The length of a slice, beside the right one. Half as many filling numbers is one for a word and not two.
#[derive(Clone, Copy, PartialEq, Eq, Debug)]
pub enum Length {
    Right,
    OneLess,
    OneMore,
    Half,
    // So many, if that is less.
    Few(usize),
}

impl Length {
    pub fn of(self, right: usize) -> usize
        requires { right ≤ 16514 }
        ensures { result ≤ right + 1 }
    {
        match self {
            Length::Right => right,
            Length::OneLess => right.saturating_sub(1),
            Length::OneMore => right + 1,
            Length::Half => right / 2,
            Length::Few(many) => many.min(right),
        }
    }
}

const LENGTHS: [Length; 4] = [
    Length::Right,
    Length::OneLess,
    Length::OneMore,
    Length::Half,
];

// Room for the longest slice.
pub type Room = [u8; 16385];

// The cells before a call: all are one cell, but digit 1 says that the first of so many is spoilt, and digit 2 the last.
pub(crate) fn prepared(long: usize, cell: u8, digit: usize, spoilt: u8) -> Room
    requires { long ≤ 16385 }
{
    let mut room = [cell; 16385];
    match digit {
        1 => room[0] = spoilt,
        2 if 0 < long => room[long - 1] = spoilt,
        _ => (),
    }
    room
}

// How many calls are to be taken, and to be refused with each number.
#[derive(Clone, Copy)]
pub struct Refusals {
    pub tally: Tally,
    pub told: [u64; 10],
}

impl Refusals {
    pub(crate) fn none() -> Refusals {
        Refusals {
            tally: Tally::none(),
            told: [0; 10],
        }
    }

    // One more with a number, of which 0 is taken.
    pub(crate) fn count(&mut self, number: u64) {
        tick_if(&mut self.told[(number % 10) as usize], true);
    }
}

// ---- the entries on lines and arrays

#[derive(Clone, Copy, PartialEq, Eq, Debug)]
pub enum Entry {
    Decode,
    Encode,
    Extract,
    Row,
    BoundedDistance,
    DecodeLine,
    LineMessages,
}

// What a slice is lent for.
#[derive(Clone, Copy, PartialEq, Eq, Debug)]
enum Slice {
    Line,
    Array,
    Message,
    Filling,
}

impl Slice {
    fn right_length(self, code: Code, iterations: u64) -> usize
        ensures { result ≤ 16384 }
    {
        match self {
            Slice::Line => code.n,
            Slice::Array => code.area(),
            Slice::Message => code.message_area(),
            Slice::Filling if iterations == 20 => 80 * code.n,
            Slice::Filling => 4 * code.n,
        }
    }
}

// The numbers of a call.
#[derive(Clone, Copy)]
struct Numbers {
    degree: u64,
    iterations: u64,
    index: usize,
}

// A look-up is taken if it finds a row of n cells; refused with a number that it has not, where `row` finds another one, a refused one has
// cells, or `row_refusal` tells another number.
fn look_up(degree: u64, cells: &[u8], index: usize) -> Result<(), Refusal> {
    let n = Code::of_degree(degree).n;
    let long = array::rows::row(degree, cells, index).len();
    let number = array::rows::row_refusal(degree, cells, index);
    let found = array::rows::look_up(degree, cells, index);
    let told = refusal_of(&found) == number;
    match found {
        Ok(row) if told & (row.len() == n) & (long == n) => Ok(()),
        Err(why) if told & (long == 0) => Err(why),
        _ => Err(Refusal::TooMany),
    }
}

impl Entry {
    fn more(self) -> More {
        match self {
            Entry::Decode => [3, 3, 2, 2, 2, 0, 2, 0],
            Entry::Encode | Entry::Extract => [3, 0, 2, 0, 2, 0, 2, 0],
            Entry::Row => [3, 0, 2, 0, 0, 3, 2, 0],
            Entry::BoundedDistance | Entry::DecodeLine => [3, 0, 2, 0, 0, 0, 2, 0],
            Entry::LineMessages => [3, 0, 2, 2, 2, 0, 2, 2],
        }
    }

    // Those that it does not take are lines, and not lent.
    fn slices(self) -> [Slice; 3] {
        match self {
            Entry::Decode => [Slice::Array, Slice::Filling, Slice::Array],
            Entry::Encode => [Slice::Message, Slice::Line, Slice::Array],
            Entry::Extract => [Slice::Array, Slice::Line, Slice::Message],
            Entry::Row => [Slice::Array, Slice::Line, Slice::Line],
            Entry::BoundedDistance | Entry::DecodeLine | Entry::LineMessages => [Slice::Line; 3],
        }
    }

    // The cells of the first slice, and what it is spoilt with.
    fn cells(self) -> (u8, u8) {
        match self {
            Entry::Decode => (0, 3),
            Entry::Encode => (1, 2),
            Entry::Extract | Entry::Row | Entry::LineMessages => (2, 3),
            Entry::BoundedDistance => (0, 2),
            Entry::DecodeLine => (0, 3),
        }
    }

    fn call(
        self,
        by: Numbers,
        one: &mut [u8],
        other: &[u8],
        filling: &[u64],
        third: &mut [u8],
    ) -> Result<(), Refusal> {
        let degree = by.degree;
        match self {
            Entry::Decode => {
                array::entry::decode(degree, by.iterations, one, filling, third).map(|_| ())
            }
            Entry::Encode => array::encoding::encode(degree, one, third),
            Entry::Extract => array::extraction::extract(degree, one, third),
            Entry::Row => look_up(degree, one, by.index),
            Entry::BoundedDistance => line::entry::bounded_distance(degree, one).map(|_| ()),
            Entry::DecodeLine => line::entry::decode_line(degree, one, 0, 0).map(|_| ()),
            Entry::LineMessages => {
                line::entry::line_messages(degree, one, other, 0, 0, third).map(|_| ())
            }
        }
    }
}

// The first test that fails, if any does.
fn wanted(by: Numbers, digits: Digits) -> Result<(), Refusal> {
    let [_, _, one, other, third, row, first_cell, second_cell] = digits;
    if !matches!(by.degree, 4 | 6 | 7) {
        Err(Refusal::BadDegree)
    } else if (by.iterations == 0) | (20 < by.iterations) {
        Err(Refusal::BadIterations)
    } else if (one != 0) | (other != 0) | (third != 0) | (1 < row) {
        Err(Refusal::BadLength)
    } else if (first_cell != 0) | (second_cell != 0) {
        Err(Refusal::BadCell)
    } else {
        Ok(())
    }
}

// What is seen of a call: what it answers, and whether every cell of the rooms that its slices lie in is as before.
#[derive(Clone, Copy)]
struct Seen {
    answer: Result<(), Refusal>,
    kept: bool,
}

fn seen_call(entry: Entry, by: Numbers, digits: Digits) -> Seen {
    let code = Code::of_degree(by.degree);
    let [
        _,
        _,
        one_digit,
        other_digit,
        third_digit,
        _,
        first_cell,
        second_cell,
    ] = digits;
    let [one_slice, other_slice, third_slice] = entry.slices();
    let one_long = LENGTHS[one_digit % 4].of(one_slice.right_length(code, by.iterations));
    let other_long = LENGTHS[other_digit % 4].of(other_slice.right_length(code, by.iterations));
    let third_long = LENGTHS[third_digit % 4].of(third_slice.right_length(code, by.iterations));
    let (cell, spoilt) = entry.cells();
    let before = prepared(one_long, cell, first_cell, spoilt);
    let other = prepared(other_long, 2, second_cell, 255);
    let blank = [7u8; 16385];
    let mut one = before;
    let mut third = blank;
    let answer = entry.call(
        by,
        &mut one[..one_long],
        &other[..other_long],
        &[0u64; 16385][..other_long],
        &mut third[..third_long],
    );
    Seen {
        answer,
        kept: same(&one, &before) & same(&third, &blank),
    }
}

impl Refusals {
    // One call, and what is to be given. The first row, the last, the one after it, and a number that no array has.
    pub(crate) fn test(&mut self, entry: Entry, degree: u64, iterations: u64, digits: Digits) {
        let n = Code::of_degree(degree).n;
        let [_, _, _, _, _, row, _, _] = digits;
        let rows = [0, n.saturating_sub(1), n, usize::MAX];
        let by = Numbers {
            degree,
            iterations,
            index: rows[row % 4],
        };
        let wanted = wanted(by, digits);
        let seen = seen_call(entry, by, digits);
        let agree = (seen.answer == wanted) & (seen.kept | wanted.is_ok());
        self.tally
            .note(b"", b"", 0, agree, refusal_of(&seen.answer));
        self.count(refusal_of(&wanted));
    }

    // All calls of an entry with a lot of degrees.
    pub(crate) fn test_all(&mut self, entry: Entry, lot: &Lot, many: usize) {
        for t in 0..many {
            let digits = digits_of(&entry.more(), t);
            let [degree, iterations, _, _, _, _, _, _] = digits;
            self.test(entry, lot[degree % 4], ITERATIONS[iterations % 4], digits);
        }
    }

    // Calls of decode at each degree, with 1 and with 20 iterations and half the filling numbers.
    pub(crate) fn test_halves(&mut self) {
        for iterations in [1, 20] {
            for degree in [4, 6, 7] {
                self.test(Entry::Decode, degree, iterations, [0, 0, 0, 3, 0, 0, 0, 0]);
            }
        }
    }
}
