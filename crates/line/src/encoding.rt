// Encoding a line on packed words, by a table of encoded units, which is made from a fixed table of their check cells for each degree.
ghost use Rattle.std.specs.Prelude.{◌≡◌, ◌<◌};
ghost use Rattle.degree.specs.Degree.{size};
ghost use Rattle.line.specs.Cells.{IsWord};
ghost use Rattle.line.specs.Working.Packed.{PacksWord};
ghost use Rattle.line.specs.Encoding.{message_size, encode_line};
ghost use Rattle.line.specs.Working.Units.{unit_of, UnitChecks, Units};
ghost use Rattle.words.specs.Working.Word.{value};

use crate::packed::Line;
use degree::{Degree, order_of};
use words::word::grid::Grid;
use words::word::{Word, single, xor_where, xor_words, zero_word};

// The encoded lines of the messages with one 1: word a, below k, is that of cell a. The words stay where room for them is made, and the
// table refers to them: handed back by value they would be copied.
#[derive(Clone, Copy)]
pub struct UnitTable<'a> {
    pub degree: Degree,
    pub words: &'a Grid,
    pub ghost made: { Units degree words.now },
}

// Entry a: the check cells of the line of unit a, bit i being cell i, and in bit 14 its parity cell.
const CHECKS_FOUR: [u16; Line::K_FOUR] = [16593, 115, 230, 16413, 16442, 16500, 16616];

const CHECKS_SIX: [u16; Line::K_SIX] = [
    17721, 19058, 477, 954, 1908, 3816, 18665, 1259, 2518, 18069, 19754, 3949, 19427, 767, 1534,
    3068, 17089, 17794, 19204, 817, 1634, 3268, 19633, 3163, 19855, 3623, 18807, 2007, 4014, 19045,
    499, 998, 1996, 3992, 18953, 299, 598, 1196, 2392, 18313, 20242, 2845, 17155, 17926, 19468,
    3361, 20347, 3023, 17063, 17742, 19100,
];

const CHECKS_SEVEN: [u16; Line::K_SEVEN] = [
    17271, 18158, 19932, 23480, 30576, 11671, 22617, 28850, 8723, 18257, 20130, 23876, 31368,
    13927, 28601, 7173, 14346, 29539, 9649, 18453, 20522, 24660, 991, 1982, 3964, 7928, 15856,
    30871, 12889, 26565, 3325, 6650, 13300, 25759, 2633, 5266, 10532, 20799, 25214, 1931, 3862,
    7724, 15448, 31687, 13561, 27269, 5757, 11514, 23171, 29958, 10619, 20865, 25346, 1395, 2790,
    5580, 11160, 21575, 26766, 4715, 9430, 19163, 21942, 27500, 5551, 11102, 21963, 27542, 5211,
    10422, 21019, 25654, 2843, 5686, 11372, 23471, 30558, 11723, 22753, 29122, 8435, 17041, 17698,
    19012, 21640, 26896, 4439, 8878, 17963, 19542, 22700, 29016, 8647, 16633, 16882, 17380, 18376,
    20368, 24352, 32320, 16375, 31897, 14917, 30717, 11405, 23149, 29914, 10947, 22257, 28130,
    6323, 12646, 25019,
];

// The entries of a degree.
fn checks_of(d: Degree) -> &'static [u16]
    ensures { UnitChecks d result.now }
{
    match d {
        Degree::Four => &CHECKS_FOUR,
        Degree::Six => &CHECKS_SIX,
        Degree::Seven => &CHECKS_SEVEN,
    }
}

// The word of a unit: its check cells, its one message cell and its parity cell.
fn unit_word(d: Degree, a: usize, checks: u16) -> Word
    requires { a < message_size d }
    ensures { value result ≡ unit_of d a checks }
{
    let cell = Line::check_cells(d) + a;
    let last = order_of(d);
    let check = Word::from((checks % 16384) as u64);
    let message = single(1, cell as u32);
    let parity = single((checks / 16384 % 2) as u64, last as u32);
    xor_words(check, xor_words(message, parity))
}

// The words of the units, from their check cells.
fn put_units(d: Degree, words: &mut Grid)
    ensures { Units d words.new }
{
    let checks = checks_of(d);
    for (a, entry) in checks.iter().enumerate() {
        words.put(a, unit_word(d, a, *entry));
    }
}

impl<'a> UnitTable<'a> {
    // The table of a degree, made in place in room that is lent.
    pub fn new(degree: Degree, words: &'a mut Grid) -> UnitTable<'a>
        ensures { result.degree ≡ degree }
    {
        put_units(degree, words);
        UnitTable { degree, words }
    }

    // A message, encoded: the sum of the units at its ones.
    pub fn encoded_word(&self, message: &[u8]) -> Word
        requires { IsWord (message_size self.now.degree) message.now }
        ensures { PacksWord (size self.now.degree) (encode_line self.now.degree message.now) (value result) }
    {
        let mut sum = zero_word();
        for (a, cell) in message.iter().enumerate() {
            sum = xor_where(*cell == 1, sum, self.words.word(a));
        }
        sum
    }
}
