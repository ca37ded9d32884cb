// Files and loads: calls of the second implementation and of the entry, on slices that lie in rooms.
ghost use Rattle.std.specs.Prelude.{◌≤◌, ◌<◌};

use crate::calls::{Digits, HIGHER, LOWER, Length, More, Refusals, Room, digits_of, prepared};
use damage::chance::Chance;
use damage::files::{Fault, FileRoom, any_sheet, file_of, mended, spoilt};
use second::codes::Code;
use second::loads::Order;

// What is seen of a call: the sheet number that it tells, 0 where it tells none, or its refusal number, and all of the room that the slice to
// be written lies in.
#[derive(Clone, Copy)]
struct Seen {
    answer: Result<u64, u64>,
    room: Room,
}

// A call with the first cells of a room.
fn seen_call<F: FnOnce(&mut [u8]) -> Result<u64, u64>>(long: usize, call: F) -> Seen
    requires within { long ≤ 16385 }
    requires call { F.IsAlwaysCallable call }
{
    let mut room = [7u8; 16385];
    let answer = call(&mut room[..long]);
    Seen { answer, room }
}

impl Refusals {
    // A refused call of the second implementation leaves its room as it was, which is proved: so does the entry's where the rooms agree in
    // so many cells, which are more than any slice in them has.
    fn note(&mut self, own: &Seen, given: &Seen, cells: usize) {
        let agree = own.answer == given.answer;
        let number = given.answer.unwrap_or(0);
        self.tally
            .note(&own.room, &given.room, cells, agree, number);
        self.count(given.answer.err().unwrap_or(0));
    }
}

// ---- files: sheets in blocks

const FILE_CELLS: usize = 4100;

// The digits of a call choose how many cells it is lent and how many bytes, and of one that writes, the cell that is spoilt; of one that
// reads, a fault in the first four bytes of a block, one in its sums or in any byte after these were made, and a cell of 3 or filler that is
// not zero.
const WRITING: More = [3, 3, 2, 0, 0, 0, 0, 0];

const READING: More = [3, 3, 4, 3, 3, 0, 0, 0];

const LENGTHS: [Length; 4] = [
    Length::Right,
    Length::OneMore,
    Length::OneLess,
    Length::Few(2),
];

const HEADS: [Option<Fault>; 5] = [
    None,
    Some(Fault::Head(0)),
    Some(Fault::Head(1)),
    Some(Fault::Head(2)),
    Some(Fault::Head(3)),
];

const AFTER_SUMS: [Option<Fault>; 4] = [
    None,
    Some(Fault::SumA),
    Some(Fault::SumB),
    Some(Fault::AnyByte),
];

const BEFORE_SUMS: [Option<Fault>; 4] = [
    None,
    Some(Fault::Filler),
    Some(Fault::AfterRows),
    Some(Fault::CellOfThree),
];

// A file of a sheet and a number by chance, with the faults of a call's digits.
fn faulty_file(digits: Digits, chance: &mut Chance) -> FileRoom {
    let [_, _, head, after, before, _, _, _] = digits;
    let number = chance.below(65536) as u64;
    let sheet = any_sheet(chance);
    let off = spoilt(HEADS[head % 5], chance, file_of(number, sheet));
    let other = mended(spoilt(BEFORE_SUMS[before % 4], chance, off));
    spoilt(AFTER_SUMS[after % 4], chance, other)
}

impl Refusals {
    // A sheet of unsure cells, of which the first or the last is spoilt where the digit says so.
    fn test_write(&mut self, t: usize) {
        let [cells_digit, long_digit, spoilt_digit, _, _, _, _, _] = digits_of(&WRITING, t);
        let n = LENGTHS[cells_digit % 4].of(4096);
        let long = LENGTHS[long_digit % 4].of(1536);
        let cells = prepared(4096, 2, spoilt_digit, 3);
        let lent = &cells[..n];
        let own = seen_call(long, |file| {
            let done = second::blocks::write_blocks(65535, lent, file);
            done.map(|()| 0).map_err(u64::from)
        });
        let given = seen_call(long, |file| {
            let done = blocks::entry::write_blocks(65535, lent, file);
            done.map(|()| 0).map_err(u64::from)
        });
        self.note(&own, &given, FILE_CELLS);
    }

    pub(crate) fn test_writes(&mut self, many: usize) {
        for t in 0..many {
            self.test_write(t);
        }
    }

    fn test_file(&mut self, file: &FileRoom, long: usize, n: usize)
        requires { (long ≤ 1537) × (n ≤ 4097) }
    {
        let file = &file[..long];
        let own = seen_call(n, |cells| {
            second::blocks::read_blocks(file, cells).map_err(u64::from)
        });
        let given = seen_call(n, |cells| {
            blocks::entry::read_blocks(file, cells)
                .map(u64::from)
                .map_err(u64::from)
        });
        self.note(&own, &given, FILE_CELLS);
    }

    // Every so many-th of the calls that read.
    pub(crate) fn test_reads(&mut self, many: usize, step: usize) {
        let mut chance = Chance { state: 1812433253 };
        for t in 0..many {
            let digits = digits_of(&READING, t.wrapping_mul(step));
            let [cells_digit, long_digit, _, _, _, _, _, _] = digits;
            let n = LENGTHS[cells_digit % 4].of(4096);
            let long = LENGTHS[long_digit % 4].of(1536);
            let file = faulty_file(digits, &mut chance);
            self.test_file(&file, long, n);
        }
    }

    // A sheet of zeros whose number makes a sum of block 0 zero, as it is and with 255 for that sum, which is the same number modulo 255.
    pub(crate) fn test_zero_sum(&mut self, number: u64, at: usize)
        requires { at < 1536 }
    {
        let mut file = file_of(number, [0u8; 4096]);
        self.test_file(&file, 1536, 4096);
        file[at] = 255;
        self.test_file(&file, 1536, 4096);
    }
}

// ---- loads

// The digits of a call choose the degree, the lengths of the message and of the cells, the message cell that is spoilt, seed 0, and how many
// cells are asked for.
const LOADING: More = [7, 2, 2, 2, 1, 7, 0, 0];

// Digits 0 and 1 ask for as many cells as there are, the others for more; the sums of the last three wrap past 64 bits to fewer.
fn order_by(digit: usize, seed: u64, area: u64) -> Order
    requires { area ≤ 16384 }
{
    let part = area / 4;
    let (wrong, unsure) = match digit {
        0 => (part, area - part),
        1 => (area, 0),
        2 => (area + 1, 0),
        3 => (0, area + 1),
        4 => (area, 1),
        5 => (u64::MAX, 1),
        6 => (0x8000000000000000, 0x8000000000000000),
        _ => (2, u64::MAX),
    };
    Order {
        seed,
        wrong,
        unsure,
    }
}

impl Refusals {
    fn test_load(&mut self, t: usize) {
        let [
            lot,
            message_digit,
            cells_digit,
            spoilt_digit,
            seed_digit,
            order_digit,
            _,
            _,
        ] = digits_of(&LOADING, t);
        let degree = if lot < 4 { LOWER[lot] } else { HIGHER[lot % 4] };
        let code = Code::of_degree(degree);
        let message_long = LENGTHS[message_digit % 4].of(code.message_area());
        let long = LENGTHS[cells_digit % 4].of(code.area());
        let message = prepared(message_long, 1, spoilt_digit, 2);
        let lent = &message[..message_long];
        let seed = if seed_digit == 0 {
            88172645463325252
        } else {
            0
        };
        let by = order_by(order_digit, seed, code.area() as u64);
        let own = seen_call(long, |cells| {
            let done = second::loads::load(degree, by, lent, cells);
            done.map(|()| 0).map_err(u64::from)
        });
        let given = seen_call(long, |cells| {
            let done = load::entry::load(degree, by.seed, by.wrong, by.unsure, lent, cells);
            done.map(|()| 0).map_err(u64::from)
        });
        self.note(&own, &given, long + 1);
    }

    pub(crate) fn test_loads(&mut self, many: usize) {
        for t in 0..many {
            self.test_load(t);
        }
    }
}
