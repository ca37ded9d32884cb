// Repeatable loads: their draws, the cells that they hit, and the acceptance run.
ghost use Rattle.std.specs.Prelude.{◌≤◌};

use crate::arrays::{given_decoding, message_of, note_cells};
use crate::given;
use damage::arrays::make_sent;
use damage::chance::Chance;
use second::arrays::Cells;
use second::codes::Code;
use second::encoding::Message;
use second::lines::{differences, unsure};
use second::loads::{Order, draw, shift};
use second::tallies::{Tally, mix, tick_if};

// A small seed, or one of 64 bits.
fn seed_of(trial: u64) -> u64 {
    if trial % 2 == 0 {
        1 + trial / 2
    } else {
        mix(trial, 0)
    }
}

// ---- draws

// How many draws are made is bounded, so that the number of a draw does not wrap.

// The first draws of a seed.
fn test_draws(seed: u64, many: u32, tally: &mut Tally) {
    let mut s = seed;
    let mut state = load::draws::start(seed);
    for k in 0..many {
        s = shift(s);
        state = load::draws::next(state);
        let given = load::draws::drawn(state);
        tally.note(b"", b"", 0, draw(s, k + 1) == given, given);
    }
}

pub(crate) fn test_seeds(seeds: u64, many: u32, tally: &mut Tally) {
    for trial in 0..seeds {
        test_draws(seed_of(trial), many, tally);
    }
}

// ---- loads

// How many cells of a sheet are inverted and how many unsure.
#[derive(Clone, Copy, PartialEq, Eq, Debug)]
struct Hits {
    wrong: u64,
    unsure: u64,
}

// Kinds of numbers that a load is asked for: the last is any that fit.
#[derive(Clone, Copy, PartialEq, Eq, Debug)]
enum Share {
    NoCell,
    AllInverted,
    AllUnsure,
    // Inverted or unsure.
    EveryCell,
    Few,
    Any,
}

const SHARES: [Share; 6] = [
    Share::NoCell,
    Share::AllInverted,
    Share::AllUnsure,
    Share::EveryCell,
    Share::Few,
    Share::Any,
];

fn so_many(wrong: usize, unsure: usize) -> Hits {
    Hits {
        wrong: wrong as u64,
        unsure: unsure as u64,
    }
}

fn hits_of(share: Share, code: Code, chance: &mut Chance) -> Hits {
    let area = code.area();
    let wrong = chance.below(area + 1);
    let left = area - wrong;
    let unsure = chance.below(left + 1);
    match share {
        Share::NoCell => so_many(0, 0),
        Share::AllInverted => so_many(area, 0),
        Share::AllUnsure => so_many(0, area),
        Share::EveryCell => so_many(wrong, left),
        Share::Few => so_many(wrong % code.n.max(1), unsure % code.n.max(1)),
        Share::Any => so_many(wrong, unsure),
    }
}

// The hits of a sheet, by what was sent.
fn hits_in(code: Code, sent: &Cells, cells: &Cells) -> Hits {
    let mut hits = so_many(0, 0);
    for i in 0..code.n {
        let line = &code.take_line(i, cells)[..code.n];
        let wrong = differences(line, &code.take_line(i, sent));
        hits.wrong = hits.wrong.wrapping_add(wrong);
        hits.unsure = hits.unsure.wrapping_add(unsure(line));
    }
    hits
}

// What is seen of a load: whether it is taken, and what it leaves in room that held no cell of a sheet.
#[derive(Clone, Copy)]
struct Seen {
    taken: bool,
    cells: Cells,
}

fn loaded<F: FnOnce(&[u8], &mut [u8]) -> bool>(code: Code, message: &Message, load: F) -> Seen
    requires { F.IsAlwaysCallable load }
{
    let mut cells = [9u8; 16384];
    let taken = load(&message[..code.message_area()], &mut cells[..code.area()]);
    Seen { taken, cells }
}

fn given_load(code: Code, order: Order, message: &Message) -> Seen {
    loaded(
        code,
        message,
        |lent, room| given::load(code, order, lent, room).is_ok(),
    )
}

fn own_load(code: Code, order: Order, message: &Message) -> Seen {
    let degree = code.degree();
    loaded(code, message, |lent, room| {
        second::loads::load(degree, order, lent, room).is_ok()
    })
}

// How many cells are hit.
#[derive(Clone, Copy)]
pub struct Loads {
    tally: Tally,
    hits: Hits,
}

impl Loads {
    pub(crate) fn none() -> Loads {
        Loads {
            tally: Tally::none(),
            hits: so_many(0, 0),
        }
    }

    // One message by chance, with one of the kinds of hits. They agree where both are taken, both leave the same cells, and exactly so many
    // are hit as were asked for.
    fn test(&mut self, code: Code, trial: u64, chance: &mut Chance) {
        let share = SHARES[(trial / 2) as usize % SHARES.len()];
        let asked = hits_of(share, code, chance);
        let order = Order {
            seed: seed_of(trial),
            wrong: asked.wrong,
            unsure: asked.unsure,
        };
        let mut sent = [0u8; 16384];
        make_sent(code, chance, &mut sent);
        let message = message_of(code, &sent);
        let own = own_load(code, order, &message);
        let given = given_load(code, order, &message);
        let taken = own.taken & given.taken;
        let hit = hits_in(code, &sent, &given.cells);
        note_cells(
            code,
            &mut self.tally,
            &own.cells,
            &given.cells,
            taken & (hit == asked),
            0,
        );
        self.hits.wrong = self.hits.wrong.wrapping_add(hit.wrong);
        self.hits.unsure = self.hits.unsure.wrapping_add(hit.unsure);
    }

    pub(crate) fn test_all(&mut self, code: Code, many: u64) {
        let mut chance = Chance { state: 362436069 };
        for trial in 0..many {
            self.test(code, trial, &mut chance);
        }
    }

    pub(crate) fn counts(&self) -> [u64; 6] {
        [
            self.tally.tried,
            self.tally.agree,
            self.tally.differ,
            self.tally.sum,
            self.hits.wrong,
            self.hits.unsure,
        ]
    }
}

// ---- the acceptance run, which is the same for every caller: loads of seeds 1 to 20, decoded by 4 iterations with fillings of 0

// Cell i of the message is i / 3 modulo 2.
fn acceptance_message() -> Message {
    let mut message = [0u8; 12769];
    for (i, cell) in message.iter_mut().enumerate() {
        *cell = (i / 3 % 2) as u8;
    }
    message
}

// Each cell times its place, of which the first counts as 1.
fn sum_of_cells(code: Code, cells: &Cells) -> u64 {
    let mut sum: u64 = 0;
    for i in 0..code.area() {
        sum = sum.wrapping_add((i as u64 + 1) * u64::from(cells[i]));
    }
    sum
}

// Seed times n / 16 cells are inverted, and twice as many made unsure.
fn acceptance_order(code: Code, seed: u64) -> Order
    requires { seed ≤ 20 }
{
    let wrong = seed * (code.n as u64) / 16;
    Order {
        seed,
        wrong,
        unsure: 2 * wrong,
    }
}

#[derive(Clone, Copy)]
pub struct Acceptance {
    sheets: u64,
    cells: u64,
    count: u64,
    unsure: u64,
    closed: u64,
}

impl Acceptance {
    fn test(&mut self, code: Code, seed: u64, message: &Message)
        requires { seed ≤ 20 }
    {
        let received = given_load(code, acceptance_order(code, seed), message).cells;
        let mut cells = [0u8; 16384];
        let numbers = &[0u64; 2048][..16 * code.n];
        let left = given_decoding(code, 4, &received, numbers, &mut cells);
        self.sheets = self.sheets.wrapping_add(1);
        self.cells = self.cells.wrapping_add(sum_of_cells(code, &received));
        if let Some(told) = left {
            self.count = self.count.wrapping_add(told.count);
            self.unsure = self.unsure.wrapping_add(told.unsure);
            tick_if(&mut self.closed, told.closed);
        }
    }

    pub(crate) fn of(code: Code) -> Acceptance {
        let mut run = Acceptance {
            sheets: 0,
            cells: 0,
            count: 0,
            unsure: 0,
            closed: 0,
        };
        let message = acceptance_message();
        for seed in 1..21 {
            run.test(code, seed, &message);
        }
        run
    }

    pub(crate) fn counts(&self, degree: u64) -> [u64; 6] {
        [
            degree,
            self.sheets,
            self.cells,
            self.count,
            self.unsure,
            self.closed,
        ]
    }
}
