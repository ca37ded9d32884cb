// Words and lines: bounded distance, line decoding and messages.

use crate::given;
use damage::chance::{Chance, FILLINGS};
use damage::lines::{Hit, damaged_by, hit_some};
use second::codes::Code;
use second::codewords::{Decoder, Line};
use second::lines::{FillingWord, differences};
use second::tallies::{Clauses, Tally, tick_if};

// ---- lines by chance

// A codeword with up to 3 flips, or a word far from any.
fn damaged_word(code: Code, chance: &mut Chance, sent: Line) -> Line {
    match chance.below(5) {
        4 => hit_some(Hit::AnyBit, 200, code, chance, sent),
        flips => hit_some(Hit::Flipped, flips, code, chance, sent),
    }
}

// A sent codeword as the channel leaves it: mostly with near 6 unsure cells, where line decoding gives up.
fn damaged_line(code: Code, chance: &mut Chance, sent: Line) -> Line {
    let flips = chance.below(4);
    let erased = match chance.below(8) {
        1 => chance.below(64),
        few => few,
    };
    damaged_by(flips, erased, code, chance, sent)
}

// The incoming line: the channel's with a few cells changed, or the same codeword with other damage.
fn incoming_line(code: Code, chance: &mut Chance, sent: Line, channel: Line) -> Line {
    if chance.below(5) < 2 {
        let changes = chance.below(6);
        hit_some(Hit::AnyCell, changes, code, chance, channel)
    } else {
        damaged_line(code, chance, sent)
    }
}

// One codeword, damaged in each way.
#[derive(Clone, Copy)]
pub struct Damaged {
    pub word: Line,
    pub channel: Line,
    pub incoming: Line,
    pub filling: FillingWord,
}

impl Damaged {
    fn of(code: Code, chance: &mut Chance, sent: Line) -> Damaged {
        let word = damaged_word(code, chance, sent);
        let channel = damaged_line(code, chance, sent);
        let incoming = incoming_line(code, chance, sent, channel);
        let filling = FILLINGS[chance.below(FILLINGS.len())];
        Damaged {
            word,
            channel,
            incoming,
            filling: chance.filling_word(filling),
        }
    }
}

// What takes a test asks that it may be called, as each function does that calls a closure.

// Codewords of messages by chance, each made from the one before.
pub(crate) fn each_line<F: FnMut(Damaged)>(code: Code, many: usize, mut test: F)
    requires { F.IsAlwaysCallable test }
{
    let mut chance = Chance {
        state: 88172645463325252,
    };
    let mut sent = [0u8; 128];
    for _ in 0..many {
        sent = code.encode_line(hit_some(Hit::AnyBit, 200, code, &mut chance, sent));
        test(Damaged::of(code, &mut chance, sent));
    }
}

// A word with an even number of ones, which has the digits of x in its first cells and 0 in all others but the last.
fn word_of_digits(code: Code, x: u64) -> Line {
    let mut word = [0u8; 128];
    for i in 0..14 {
        word[i] = ((x >> i) % 2) as u8;
    }
    word[code.n.saturating_sub(1)] = (x.count_ones() % 2) as u8;
    word
}

// A word for each pair of the first two check sums, of which there are n times n: the first cells, as many as these have digits, can have
// every pair, and each once.
pub(crate) fn each_check_sum<F: FnMut(Line)>(code: Code, mut test: F)
    requires { F.IsAlwaysCallable test }
{
    for x in 0..code.area() {
        test(word_of_digits(code, x as u64));
    }
}

// ---- what is compared

fn note_line(
    code: Code,
    tally: &mut Tally,
    own: &Line,
    given: &Line,
    numbers_agree: bool,
    number: u64,
) {
    tally.note(own, given, Code::room_of(code.n).n, numbers_agree, number);
}

// How many words are found, and with how many cells changed.
#[derive(Clone, Copy)]
pub struct Words {
    tally: Tally,
    found: u64,
    unchanged: u64,
    one_changed: u64,
    two_changed: u64,
}

impl Words {
    pub(crate) fn none() -> Words {
        Words {
            tally: Tally::none(),
            found: 0,
            unchanged: 0,
            one_changed: 0,
            two_changed: 0,
        }
    }

    // The number that is noted is 0 for a word that is not found, and else 1 more than the cells that are changed.
    pub(crate) fn test(&mut self, decoder: &Decoder, word: Line) {
        let code = decoder.code;
        let own = decoder.bounded_distance(word);
        let cells = &word[..code.n];
        let changed = own.map(|line| differences(cells, &line));
        let mut given = word;
        let told = given::bounded_distance(code, &mut given);
        let number = changed.map_or(0, |many| many.wrapping_add(1));
        note_line(
            code,
            &mut self.tally,
            &own.unwrap_or(word),
            &given,
            told == Ok(changed),
            number,
        );
        tick_if(&mut self.found, own.is_some());
        tick_if(&mut self.unchanged, changed == Some(0));
        tick_if(&mut self.one_changed, changed == Some(1));
        tick_if(&mut self.two_changed, changed == Some(2));
    }

    pub(crate) fn counts(&self) -> [u64; 8] {
        [
            self.tally.tried,
            self.tally.agree,
            self.tally.differ,
            self.tally.sum,
            self.found,
            self.unchanged,
            self.one_changed,
            self.two_changed,
        ]
    }
}

// How many lines are found.
#[derive(Clone, Copy)]
pub struct Lines {
    tally: Tally,
    found: u64,
}

impl Lines {
    pub(crate) fn none() -> Lines {
        Lines {
            tally: Tally::none(),
            found: 0,
        }
    }

    pub(crate) fn test(&mut self, decoder: &Decoder, line: Line, filling: FillingWord) {
        let own = decoder.decode(line, filling);
        let mut given = line;
        let told = given::decode_line(decoder.code, &mut given, filling);
        note_line(
            decoder.code,
            &mut self.tally,
            &own.unwrap_or(line),
            &given,
            told == Ok(own.is_some()),
            u64::from(own.is_some()),
        );
        tick_if(&mut self.found, own.is_some());
    }

    pub(crate) fn counts(&self) -> [u64; 5] {
        [
            self.tally.tried,
            self.tally.agree,
            self.tally.differ,
            self.tally.sum,
            self.found,
        ]
    }
}

// How often each clause is met by the messages.
#[derive(Clone, Copy)]
pub struct Messages {
    pub tally: Tally,
    pub met: Clauses,
}

impl Messages {
    pub(crate) fn none() -> Messages {
        Messages {
            tally: Tally::none(),
            met: Clauses::none(),
        }
    }

    pub(crate) fn test(
        &mut self,
        decoder: &Decoder,
        incoming: Line,
        channel: Line,
        filling: FillingWord,
    ) {
        let own = decoder.messages(incoming, channel, filling, &mut self.met);
        let mut given = [0u8; 128];
        let told = given::messages(decoder.code, &incoming, &channel, filling, &mut given);
        note_line(
            decoder.code,
            &mut self.tally,
            &own.line,
            &given,
            told == Ok(own.count),
            own.count,
        );
    }
}
