// The degree of the field, and the numbers that go with it. Nothing here knows of codes.
#![tactic(auto)]

ghost use Rattle.std.specs.Prelude.{◌≡◌};
ghost use Rattle.degree.specs.Degree.{bits, size, order, Names};

use std::error::Error;
use std::fmt;

// The degree of the field. Below an entry there is no other.
#[derive(Clone, Copy, Debug, PartialEq, Eq)]
pub enum Degree {
    Four,
    Six,
    Seven,
}

// A number that names no degree.
#[derive(Clone, Copy, Debug, PartialEq, Eq)]
pub struct UnknownDegree(pub u64);

impl TryFrom<u64> for Degree {
    type Error = UnknownDegree;

    ghost try_from_gives = { Names };

    fn try_from(number: u64) -> Result<Self, UnknownDegree> {
        match number {
            4 => Ok(Degree::Four),
            6 => Ok(Degree::Six),
            7 => Ok(Degree::Seven),
            _ => Err(UnknownDegree(number)),
        }
    }
}

impl From<Degree> for u64 {
    ghost from_gives = { λ d number. number ≡ bits d };

    fn from(d: Degree) -> u64 {
        match d {
            Degree::Four => 4,
            Degree::Six => 6,
            Degree::Seven => 7,
        }
    }
}

impl fmt::Display for UnknownDegree {
    fn fmt<W: fmt::Write>(&self, f: &mut fmt::Formatter<W>) -> fmt::Result {
        write!(f, "no field here has degree {}", self.0)
    }
}

impl Error for UnknownDegree {}

// n, the cells of a line.
pub fn size_of(d: Degree) -> usize
    ensures { result ≡ size d }
{
    match d {
        Degree::Four => 16,
        Degree::Six => 64,
        Degree::Seven => 128,
    }
}

// n - 1, the powers of α.
pub fn order_of(d: Degree) -> usize
    ensures { result ≡ order d }
{
    match d {
        Degree::Four => 15,
        Degree::Six => 63,
        Degree::Seven => 127,
    }
}
