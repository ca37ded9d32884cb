// The powers of α: a fixed table for each degree. Every other table is made of these.
ghost use Rattle.std.specs.Prelude.{◌≡◌, ◌*◌, ◌<◌};
ghost use Rattle.degree.specs.Degree.{order};
ghost use Rattle.field.specs.Field.{power};
ghost use Rattle.field.specs.Working.Tables.{Powers};

use degree::{Degree, order_of};

const POWERS_FOUR: [u16; 15] = [1, 2, 4, 8, 3, 6, 12, 11, 5, 10, 7, 14, 15, 13, 9];

const POWERS_SIX: [u16; 63] = [
    1, 2, 4, 8, 16, 32, 3, 6, 12, 24, 48, 35, 5, 10, 20, 40, 19, 38, 15, 30, 60, 59, 53, 41, 17,
    34, 7, 14, 28, 56, 51, 37, 9, 18, 36, 11, 22, 44, 27, 54, 47, 29, 58, 55, 45, 25, 50, 39, 13,
    26, 52, 43, 21, 42, 23, 46, 31, 62, 63, 61, 57, 49, 33,
];

const POWERS_SEVEN: [u16; 127] = [
    1, 2, 4, 8, 16, 32, 64, 9, 18, 36, 72, 25, 50, 100, 65, 11, 22, 44, 88, 57, 114, 109, 83, 47,
    94, 53, 106, 93, 51, 102, 69, 3, 6, 12, 24, 48, 96, 73, 27, 54, 108, 81, 43, 86, 37, 74, 29,
    58, 116, 97, 75, 31, 62, 124, 113, 107, 95, 55, 110, 85, 35, 70, 5, 10, 20, 40, 80, 41, 82, 45,
    90, 61, 122, 125, 115, 111, 87, 39, 78, 21, 42, 84, 33, 66, 13, 26, 52, 104, 89, 59, 118, 101,
    67, 15, 30, 60, 120, 121, 123, 127, 119, 103, 71, 7, 14, 28, 56, 112, 105, 91, 63, 126, 117,
    99, 79, 23, 46, 92, 49, 98, 77, 19, 38, 76, 17, 34, 68,
];

// α^0 to α^(n - 2).
pub fn powers_of(d: Degree) -> &'static [u16]
    ensures { Powers d result.now }
{
    match d {
        Degree::Four => &POWERS_FOUR,
        Degree::Six => &POWERS_SIX,
        Degree::Seven => &POWERS_SEVEN,
    }
}

// The exponent below n - 1 with the same power: α^(n - 1) is 1.
pub fn reduced(d: Degree, k: usize) -> usize
    requires { k < 2 * order d }
    ensures { (result < order d) × (power d result ≡ power d k) }
{
    let order = order_of(d);
    if k < order { k } else { k - order }
}
