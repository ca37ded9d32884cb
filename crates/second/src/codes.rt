// What is fixed for each degree. A code is named by n, the cells of a line, which is 2 to the power of its degree.
ghost use Rattle.std.specs.Prelude.{◌≡◌, ◌+◌, ◌*◌, ◌<◌, ◌≤◌};
ghost use Rattle.second.specs.Working.Codes.{cells_of, degree_of, polynomial_of, generator_of};

// n of a degree.
pub fn cells_of(degree: u64) -> usize
    ensures { (result ≡ cells_of degree) × (16 ≤ result) × (result ≤ 128) }
{
    match degree {
        4 => 16,
        6 => 64,
        _ => 128,
    }
}

// The degree; the polynomial whose root α makes the field, bit i the coefficient of α^i; and the generator polynomial, bit i the
// coefficient of x^i, as the tables of BCH codes have it.
#[derive(Clone, Copy)]
pub struct Constants {
    pub degree: u64,
    pub polynomial: usize,
    pub generator: u64,
}

// A row for each degree: BCH (15, 7), BCH (63, 51) and BCH (127, 113), each with one cell more. The last fact: k, which is n - 1 - 2v, is
// at most 113.
pub fn constants_of(n: usize) -> Constants
    ensures { (result.degree ≡ degree_of n) × (result.polynomial ≡ polynomial_of n) × (result.generator ≡ generator_of n) × (result.degree ≤ 7) × (n ≤ 128 → n ≤ 114 + 2 * result.degree) }
{
    match n {
        16 => Constants {
            degree: 4,
            polynomial: 0b10011,
            generator: 0o721,
        },
        64 => Constants {
            degree: 6,
            polynomial: 0b1000011,
            generator: 0o12471,
        },
        _ => Constants {
            degree: 7,
            polynomial: 0b10001001,
            generator: 0o41567,
        },
    }
}

// The code of lines of n cells, which are at most 128.
#[derive(Clone, Copy)]
pub struct Code {
    pub n: usize,
    pub ghost short: { n ≤ 128 },
}

impl Code {
    pub fn of_degree(degree: u64) -> Code
        ensures { (result.n ≡ cells_of degree) × (16 ≤ result.n) }
    {
        Code {
            n: cells_of(degree),
        }
    }

    // That whose cells are compared, and go into a sum, in place of those of a line of n: 64 at the lower degrees, of which those past n
    // are 0.
    pub fn room_of(n: usize) -> Code
        ensures { 16 ≤ result.n }
    {
        Code {
            n: if n <= 64 { 64 } else { 128 },
        }
    }

    pub fn degree(self) -> u64
        ensures { (result ≡ degree_of self.n) × (result ≤ 7) }
    {
        constants_of(self.n).degree
    }

    // How many cells an array has.
    pub fn area(self) -> usize
        ensures { (result ≡ self.n * self.n) × (0 < self.n → 0 < result) × (result ≤ 16384) }
    {
        self.n * self.n
    }
}
