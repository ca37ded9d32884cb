// Numbers drawn by chance, the same on every run.
ghost use Rattle.std.specs.Prelude.{◌<◌, ◌≡◌, ◌≤◌};

use second::lines::FillingWord;
use second::tallies::mix;

// A filling word: zeros below cell 64 and ones from there on, the opposite, or by chance. The two numbers of a word differ, so that it
// shows where the wrong one is read.
#[derive(Clone, Copy, PartialEq, Eq, Debug)]
pub enum Filling {
    OnesAbove,
    OnesBelow,
    AnyWord,
}

pub const FILLINGS: [Filling; 3] = [Filling::OnesAbove, Filling::OnesBelow, Filling::AnyWord];

// What was drawn last decides over all that is drawn after it.
#[derive(Clone, Copy)]
pub struct Chance {
    pub state: u64,
}

impl Chance {
    // The next 64 bits, by Marsaglia's shifts of 13, 7 and 17.
    fn draw(&mut self) -> u64 {
        let a = self.state ^ (self.state << 13);
        let b = a ^ (a >> 7);
        self.state = b ^ (b << 17);
        self.state
    }

    // A number below a bound; 0 where the bound is 0.
    pub fn below(&mut self, bound: usize) -> usize
        ensures { (0 < bound → result < bound) × (result ≤ bound) }
    {
        let drawn = (self.draw() >> 20) as usize;
        drawn % bound.max(1)
    }

    // A word by chance takes one draw: the high number is stirred from the low one.
    pub fn filling_word(&mut self, filling: Filling) -> FillingWord
        ensures above { filling ≡ Filling.OnesAbove → (result.low ≡ 0) × (result.high ≡ 18446744073709551615) }
        ensures below { filling ≡ Filling.OnesBelow → (result.low ≡ 18446744073709551615) × (result.high ≡ 0) }
    {
        match filling {
            Filling::OnesAbove => FillingWord {
                low: 0,
                high: u64::MAX,
            },
            Filling::OnesBelow => FillingWord {
                low: u64::MAX,
                high: 0,
            },
            Filling::AnyWord => {
                let low = self.draw();
                FillingWord {
                    low,
                    high: mix(low, 0),
                }
            }
        }
    }
}
