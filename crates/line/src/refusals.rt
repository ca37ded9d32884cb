// When a call is turned down: the refusals, the numbers of document 01's table, and the tests of a call that lends lines. They run in
// number order, and no cell is read before the lengths are known to be right.
ghost use Rattle.std.specs.Prelude.{◌≡◌, not, [], ◌∷◌};
ghost use Rattle.degree.specs.Degree.{bits};
ghost use Rattle.line.specs.declared.refusals.Refusal.TheVariants.{BadDegree};
ghost use Rattle.line.specs.Refusals.{number, refusal_of, at_most, line_tests, messages_tests};
ghost use Rattle.line.specs.Working.Calls.{Tested};

use crate::packed::Line;
use degree::{Degree, UnknownDegree};
use std::error::Error;
use std::fmt;

// Why a call is turned down, in the order of the numbers: document 01's numbers 1 to 4, and those that document 02 adds.
#[derive(Clone, Copy, Debug, PartialEq, Eq)]
pub enum Refusal {
    BadDegree,
    BadIterations,
    BadLength,
    BadCell,
    BadFile,
    BadSum,
    BadContent,
    BadSeed,
    TooMany,
}

impl From<UnknownDegree> for Refusal {
    ghost from_gives = { λ _ why. why ≡ BadDegree };

    fn from(_unknown: UnknownDegree) -> Self {
        Self::BadDegree
    }
}

// The number of a refusal in the table, as a caller outside sees it.
impl From<Refusal> for u64 {
    ghost from_gives = { λ why result. result ≡ number why };

    fn from(why: Refusal) -> u64 {
        match why {
            Refusal::BadDegree => 1,
            Refusal::BadIterations => 2,
            Refusal::BadLength => 3,
            Refusal::BadCell => 4,
            Refusal::BadFile => 5,
            Refusal::BadSum => 6,
            Refusal::BadContent => 7,
            Refusal::BadSeed => 8,
            Refusal::TooMany => 9,
        }
    }
}

impl fmt::Display for Refusal {
    fn fmt<W: fmt::Write>(&self, f: &mut fmt::Formatter<W>) -> fmt::Result {
        f.write_str(match self {
            Refusal::BadDegree => "the degree is not 4, 6 or 7",
            Refusal::BadIterations => "the iterations are not 1 to 20",
            Refusal::BadLength => "a slice has the wrong length",
            Refusal::BadCell => "a cell has a value that is none here",
            Refusal::BadFile => "the file does not begin as one of these does",
            Refusal::BadSum => "a check sum of the file is wrong",
            Refusal::BadContent => "the file's content is not what its head says",
            Refusal::BadSeed => "the seed is 0",
            Refusal::TooMany => "there are more wrong and unsure cells than cells",
        })
    }
}

impl Error for Refusal {}

// The refusal number of an answer, 0 for none.
pub fn refusal_of<T>(answer: &Result<T, Refusal>) -> u64
    ensures { result ≡ refusal_of answer.now }
{
    match answer {
        Ok(_) => 0,
        Err(why) => u64::from(*why),
    }
}

// Is no cell above the bound? It looks at all cells, also after one that is above, since a loop that stops early can't look at many cells
// at once.
pub fn at_most(bound: u8, cells: &[u8]) -> bool
    ensures { result ≡ at_most bound cells.now }
{
    cells.iter().fold(true, |all, cell| all & (*cell <= bound))
}

// Test 4 of a slice, after all others.
fn cells_test(d: Degree, bound: u8, cells: &[u8]) -> Result<Degree, Refusal>
    ensures { Tested (bits d) ((4, not (at_most bound cells.now)) ∷ []) result }
{
    if at_most(bound, cells) {
        Ok(d)
    } else {
        Err(Refusal::BadCell)
    }
}

// Tests 3 and 4 of a slice, where it is known whether a length is wrong: then no cell is read.
pub fn lent_test(d: Degree, wrong: bool, bound: u8, cells: &[u8]) -> Result<Degree, Refusal>
    ensures { Tested (bits d) ((3, wrong) ∷ (4, not (at_most bound cells.now)) ∷ []) result }
{
    if wrong {
        Err(Refusal::BadLength)
    } else {
        cells_test(d, bound, cells)
    }
}

// A call that lends one line, or one word.
pub fn line_test(degree: u64, cells: &[u8], bound: u8) -> Result<Degree, Refusal>
    ensures { Tested degree (line_tests bound degree cells.now []) result }
{
    let d = Degree::try_from(degree)?;
    lent_test(d, cells.len() != Line::cells(d), bound, cells)
}

// Tests 3 and 4 of a call for messages.
fn lines_test(
    d: Degree,
    incoming: &[u8],
    channel: &[u8],
    messages: &[u8],
) -> Result<Degree, Refusal>
    ensures { Tested (bits d) (messages_tests (bits d) incoming.now channel.now messages.now []) result }
{
    let n = Line::cells(d);
    let wrong = (incoming.len() != n) | ((channel.len() != n) | (messages.len() != n));
    lent_test(d, wrong, 2, incoming)?;
    cells_test(d, 2, channel)
}

// A call that lends an incoming and a channel line, and room for the messages.
pub fn messages_test(
    degree: u64,
    incoming: &[u8],
    channel: &[u8],
    messages: &[u8],
) -> Result<Degree, Refusal>
    ensures { Tested degree (messages_tests degree incoming.now channel.now messages.now []) result }
{
    let d = Degree::try_from(degree)?;
    lines_test(d, incoming, channel, messages)
}
