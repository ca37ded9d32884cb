// Arrays: decoding, encoding, taking the message out, and the look-up of a row.
ghost use Rattle.std.specs.Prelude.{◌≤◌, length};

use crate::given;
use damage::arrays::{ALMOST_CLOSED, DAMAGES, Damage, damage_array, make_almost_closed, make_sent};
use damage::chance::{Chance, FILLINGS, Filling};
use second::arrays::{Cells, Faults};
use second::codes::Code;
use second::codewords::Decoder;
use second::encoding::Message;
use second::lines::FillingWord;
use second::tallies::{Clauses, Tally, mix, same, tick_if};

pub(crate) fn note_cells(
    code: Code,
    tally: &mut Tally,
    own: &Cells,
    given: &Cells,
    numbers_agree: bool,
    number: u64,
) {
    let room = Code::room_of(code.n).area();
    tally.note(own, given, room, numbers_agree, number);
}

// ---- decoding

// Iterations from 1 to 20; at degree 6, where they take long, mostly 1 to 3, and at degree 7, where they take longer, 1 or 2 and once 20.
fn iterations_of(code: Code, trial: usize) -> usize
    ensures { result ≤ 20 }
{
    match code.n {
        16 => 1 + trial % 20,
        128 if trial == 44 => 20,
        128 => 1 + trial % 8 / 7,
        _ if trial % 5 == 0 => 1 + trial / 5 % 20,
        _ => 1 + trial % 3,
    }
}

// The words for 20 iterations.
type Words = [FillingWord; 5120];

// At degree 4 as many as at degree 6.
fn make_words(code: Code, filling: Filling, chance: &mut Chance) -> Words {
    let mut words = [FillingWord { low: 0, high: 0 }; 5120];
    let many = 40 * Code::room_of(code.n).n;
    for word in words[..many].iter_mut() {
        *word = chance.filling_word(filling);
    }
    words
}

// Both numbers of each word.
fn numbers_of(words: &Words) -> [u64; 10240] {
    let mut numbers = [0u64; 10240];
    for (w, word) in words.iter().enumerate() {
        numbers[2 * w] = word.low;
        numbers[2 * w + 1] = word.high;
    }
    numbers
}

// What is told of a decoding.
#[derive(Clone, Copy, PartialEq, Eq, Debug)]
pub struct Told {
    pub count: u64,
    pub unsure: u64,
    pub closed: bool,
}

// By the entry: what it tells if the call is not refused. The cells are written.
pub(crate) fn given_decoding(
    code: Code,
    iterations: usize,
    received: &Cells,
    numbers: &[u64],
    cells: &mut Cells,
) -> Option<Told> {
    given::decode(code, iterations, received, numbers, cells)
        .ok()
        .map(|report| Told {
            count: report.count,
            unsure: report.erasures,
            closed: report.closed,
        })
}

// An array by chance, as it was sent and as it is received, and whether its damage is within the row condition.
#[derive(Clone, Copy)]
pub struct Received {
    sent: Cells,
    cells: Cells,
    within: bool,
}

// Sent and damaged in one of the ways.
pub(crate) fn damaged(code: Code, trial: usize, chance: &mut Chance) -> Received {
    let damage = DAMAGES[trial % DAMAGES.len()];
    let mut sent = [0u8; 16384];
    make_sent(code, chance, &mut sent);
    let mut cells = sent;
    damage_array(damage, code, chance, &mut cells);
    Received {
        sent,
        cells,
        within: damage == Damage::RowsWithin,
    }
}

// One that fails one of the tests of closed alone. It counts as restored where decoding leaves it as it was received.
pub(crate) fn almost_closed(code: Code, trial: usize, chance: &mut Chance) -> Received {
    let kind = ALMOST_CLOSED[trial % ALMOST_CLOSED.len()];
    let mut sent = [0u8; 16384];
    make_almost_closed(kind, code, chance, &mut sent);
    Received {
        sent,
        cells: sent,
        within: false,
    }
}

// How many are closed, and in how many the sent array came out; of the arrays within the row condition, how many there are and in how many
// of them both are so. Almost closed is what fails one of the tests of closed alone: rows are off, or columns, or cells unsure.
#[derive(Clone, Copy)]
pub struct Decodings {
    tally: Tally,
    closed: u64,
    restored: u64,
    within: u64,
    within_restored: u64,
    rows_off: u64,
    columns_off: u64,
    cells_unsure: u64,
    pub met: Clauses,
}

impl Decodings {
    pub(crate) fn none() -> Decodings {
        Decodings {
            tally: Tally::none(),
            closed: 0,
            restored: 0,
            within: 0,
            within_restored: 0,
            rows_off: 0,
            columns_off: 0,
            cells_unsure: 0,
            met: Clauses::none(),
        }
    }

    fn note_faults(&mut self, left: Faults) {
        let known = left.unsure == 0;
        let across = left.rows == 0;
        let down = left.columns == 0;
        tick_if(&mut self.rows_off, known & !across & down);
        tick_if(&mut self.columns_off, known & across & !down);
        tick_if(&mut self.cells_unsure, !known & across & down);
    }

    // By the second implementation. The cells are those that are received, and then those that are left.
    fn own_decoding(
        &mut self,
        decoder: &Decoder,
        received: &Cells,
        words: &[FillingWord],
        cells: &mut Cells,
    ) -> Told
        requires { length words.now ≤ 5120 }
    {
        let count = decoder.decode_array(received, words, cells, &mut self.met);
        let left = decoder.faults_in(cells);
        self.note_faults(left);
        Told {
            count,
            unsure: left.unsure,
            closed: left.is_closed(),
        }
    }

    // A received array decoded twice, with filling bits of zero, of one, or by chance.
    fn test(&mut self, decoder: &Decoder, trial: usize, received: &Received, chance: &mut Chance) {
        let code = decoder.code;
        let iterations = iterations_of(code, trial);
        let filling = FILLINGS[trial / DAMAGES.len() % FILLINGS.len()];
        let words = make_words(code, filling, chance);
        let many = 2 * (iterations * code.n);
        let mut own = received.cells;
        let told = self.own_decoding(decoder, &received.cells, &words[..many], &mut own);
        let mut given = [0u8; 16384];
        let numbers = &numbers_of(&words)[..2 * many];
        let answer = given_decoding(code, iterations, &received.cells, numbers, &mut given);
        let number = mix(told.count, told.unsure);
        note_cells(
            code,
            &mut self.tally,
            &own,
            &given,
            answer == Some(told),
            number,
        );
        let restored = same(&own, &received.sent);
        tick_if(&mut self.closed, told.closed);
        tick_if(&mut self.restored, restored);
        tick_if(&mut self.within, received.within);
        tick_if(
            &mut self.within_restored,
            received.within & restored & told.closed,
        );
    }

    // So many arrays, each as it is made by chance.
    pub(crate) fn test_all<F: Fn(usize, &mut Chance) -> Received>(
        &mut self,
        decoder: &Decoder,
        many: usize,
        make: F,
    )
        requires { F.IsAlwaysCallable make }
    {
        let mut chance = Chance { state: 2463534242 };
        for trial in 0..many {
            let received = make(trial, &mut chance);
            self.test(decoder, trial, &received, &mut chance);
        }
    }

    pub(crate) fn counts(&self) -> [u64; 8] {
        [
            self.tally.tried,
            self.tally.agree,
            self.tally.differ,
            self.tally.sum,
            self.closed,
            self.restored,
            self.within,
            self.within_restored,
        ]
    }

    pub(crate) fn almost_closed(&self) -> [u64; 3] {
        [self.rows_off, self.columns_off, self.cells_unsure]
    }
}

// ---- the other entries on arrays

// A test of sent arrays by chance, each as it was sent and with one of the kinds of damage.
pub(crate) fn test_each<F: Fn(&Cells, &Cells, &mut Tally)>(
    code: Code,
    many: usize,
    test: F,
    tally: &mut Tally,
)
    requires { F.IsAlwaysCallable test }
{
    let mut chance = Chance { state: 521288629 };
    for trial in 0..many {
        let received = damaged(code, trial, &mut chance);
        test(&received.sent, &received.cells, tally);
    }
}

// The message of a sent array.
pub(crate) fn message_of(code: Code, sent: &Cells) -> Message {
    let mut message = [0u8; 12769];
    code.extract(sent, &mut message);
    message
}

// Encodes the message of a sent array anew.
pub(crate) fn test_encode(code: Code, sent: &Cells, tally: &mut Tally) {
    let mut given = [0u8; 16384];
    let taken = given::encode(code, &message_of(code, sent), &mut given).is_ok();
    note_cells(code, tally, sent, &given, taken, 0);
}

// Takes the message out of a received array, unsure cells too.
pub(crate) fn test_extract(code: Code, received: &Cells, tally: &mut Tally) {
    let mut given = [0u8; 12769];
    let taken = given::extract(code, received, &mut given).is_ok();
    let room = Code::room_of(code.n).message_area();
    tally.note(&message_of(code, received), &given, room, taken, 0);
}

// Looks up each row. The three calls for it must find the same: the row, and no reason to refuse it.
pub(crate) fn test_rows(code: Code, cells: &Cells, tally: &mut Tally) {
    for i in 0..code.n {
        let own = code.take_line(i, cells);
        let given = given::row(code, cells, i);
        let taken = given::row_refusal(code, cells, i) == 0;
        let found = given::look_up(code, cells, i).is_ok_and(|row| same(row, given));
        let agree = taken & found & (given.len() == code.n);
        tally.note(&own, given, code.n, agree, 0);
    }
}
