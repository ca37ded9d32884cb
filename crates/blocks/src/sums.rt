// The two Fletcher sums of a block, A and B. They are reduced at its end only: those of 510 bytes fit a number.
ghost use Rattle.std.specs.Prelude.{◌≡◌, [], ◌∷◌, ◌<◌, ◌%◌, replicate};
ghost use Rattle.blocks.specs.Working.Adding.{Bytes, both, added, Room};

// How many bytes are still to come is no part of a sum: each call says it, and asks for that much room.
#[derive(Clone, Copy)]
pub struct Sums {
    pub a: u64,
    pub b: u64,
}

impl Sums {
    // Those of the first four bytes.
    pub fn of_header(index: u8, degree: u8, high: u8, low: u8) -> Sums
        ensures { (both result ≡ added (0, 0) (index ∷ degree ∷ high ∷ low ∷ [])) × Bytes (index ∷ degree ∷ high ∷ low ∷ []) }
    {
        let one = u64::from(index);
        let two = one + u64::from(degree);
        let three = two + u64::from(high);
        let a = three + u64::from(low);
        let b = one + two + three + a;
        Sums { a, b }
    }

    // The byte is added to A, then A to B.
    pub fn with_byte(self, byte: u8) -> Sums
        requires { Room 1 (both self) }
        ensures { (both result ≡ added (both self) (byte ∷ [])) × (byte < 256) }
    {
        let a = self.a + u64::from(byte);
        let b = self.b + a;
        Sums { a, b }
    }

    // So many bytes of zero: A stays.
    pub fn with_zeros(self, many: usize) -> Sums
        requires { Room many (both self) }
        ensures { both result ≡ added (both self) (replicate many 0) }
    {
        let a = self.a;
        let b = self.b + a * (many as u64);
        Sums { a, b }
    }
}

// A sum as the byte that is kept.
pub fn reduced(sum: u64) -> u8
    ensures { result ≡ sum % 255 }
{
    (sum % 255) as u8
}
