// A line packed in two words.
ghost use Rattle.std.specs.Prelude.{◌≡◌, List, ℕ, ◌*◌, ◌<◌, ◌≤◌, ◌%◌, length, set};
ghost use Rattle.std.specs.Int.Bits.{bit_and, bit_or, bit_xor};
ghost use Rattle.degree.specs.Degree.{size};
ghost use Rattle.line.specs.Cells.{cell, erasures, distance, filled};
ghost use Rattle.words.specs.Working.Word.{value, width};
ghost use Rattle.line.specs.Encoding.{check_size, message_size};
ghost use Rattle.line.specs.Working.Packed.{Packs, PacksWord, side_word, known_else};

use crate::number::CellNumber;
use crate::side::Side;
use degree::Degree;
use words::word::pairs::{gather_pair, spread_pair};
use words::word::{
    Word, and_words, bit_at, count_bits, is_zero, not_word, or_words, put_bit, without, xor_words,
    zero_word,
};

// Bit i of `ones` says that cell i is 1, bit i of `erased` that it is unsure. Which cells it packs (`Packs`) is not kept in the type: it
// does not know how many there are, and words in which a cell is both 1 and unsure pack none.
#[derive(Clone, Copy, Debug, PartialEq, Eq)]
pub struct Line {
    pub ones: Word,
    pub erased: Word,
}

impl Line {
    // Of each degree: n, the cells of a line, and k, its message cells. The radius and the designed distance are the same for
    // all.
    pub const N_FOUR: usize = 16;

    pub const K_FOUR: usize = 7;

    pub const N_SIX: usize = 64;

    pub const K_SIX: usize = 51;

    pub const N_SEVEN: usize = 128;

    pub const K_SEVEN: usize = 113;

    pub const RADIUS: u64 = 2;

    pub const DISTANCE: u32 = 6;

    // n. The sizes of a line belong to its type, so it stands here and not with the degree alone.
    pub fn cells(d: Degree) -> usize
        ensures { result ≡ size d }
    {
        match d {
            Degree::Four => Line::N_FOUR,
            Degree::Six => Line::N_SIX,
            Degree::Seven => Line::N_SEVEN,
        }
    }

    // k: all cells but the 2v check cells below them and the parity cell above
    pub fn message_cells(d: Degree) -> usize
        ensures { result ≡ message_size d }
    {
        match d {
            Degree::Four => Line::K_FOUR,
            Degree::Six => Line::K_SIX,
            Degree::Seven => Line::K_SEVEN,
        }
    }

    // 2v: the check cells below the message cells
    pub fn check_cells(d: Degree) -> usize
        ensures { result ≡ check_size d }
    {
        match d {
            Degree::Four => 8,
            Degree::Six => 12,
            Degree::Seven => 14,
        }
    }

    pub fn new(ones: Word, erased: Word) -> Line
        ensures { (result.ones ≡ ones) × (result.erased ≡ erased) }
    {
        Line { ones, erased }
    }

    // A full word as a line without erasures.
    pub fn full(word: Word) -> Line
        ensures { (n : ℕ) (ws : List ℕ) → PacksWord n ws (value word) → Packs n ws result }
    {
        let none = zero_word();
        Line {
            ones: word,
            erased: none,
        }
    }

    // ---- cells

    pub fn cell_at(self, k: CellNumber) -> u64
        ensures { (result < 4) × ((n : ℕ) (cs : List ℕ) → Packs n cs self → result ≡ cell cs k.number) }
    {
        bit_at(self.ones, k.number) + 2 * bit_at(self.erased, k.number)
    }

    // The line with cell k made c.
    pub fn put(self, k: CellNumber, c: u64) -> Line
        ensures { (n : ℕ) (cs : List ℕ) → Packs n cs self → k.number < n → c < 3 → Packs n (set cs k.number c) result }
    {
        Line {
            ones: put_bit(self.ones, k.number, c % 2),
            erased: put_bit(self.erased, k.number, c / 2 % 2),
        }
    }

    // ---- fillings, erasures, distances

    // Word one and word two.
    pub fn fill(self, filling: Word) -> [Word; 2]
        ensures { (n : ℕ) (cs : List ℕ) → Packs n cs self → (s : Side) → PacksWord n (filled s cs (value filling)) (value (side_word s result)) }
    {
        let one = or_words(self.ones, and_words(self.erased, filling));
        let two = xor_words(one, self.erased);
        [one, two]
    }

    // The same, made for lines that mostly have no erasures, as in a decode: both words are then the line's own, and they are there before
    // the filling word is read.
    pub fn fill_if_erased(self, filling: Word) -> [Word; 2]
        ensures { (n : ℕ) (cs : List ℕ) → Packs n cs self → (s : Side) → PacksWord n (filled s cs (value filling)) (value (side_word s result)) }
    {
        if is_zero(self.erased) {
            let own = self.ones;
            [own, own]
        } else {
            self.fill(filling)
        }
    }

    // The erasures of a line. In a decode there are mostly none, and then there is nothing to count.
    pub fn count_erasures(self) -> u32
        ensures { (result ≤ width) × ((n : ℕ) (cs : List ℕ) → Packs n cs self → result ≡ erasures cs) }
    {
        if is_zero(self.erased) {
            0
        } else {
            count_bits(self.erased)
        }
    }

    // The differences of a line from a word, at the line's known cells: none where the word is the line's own, as it mostly is.
    pub fn count_differences(self, word: Word) -> u32
        ensures { (n : ℕ) (cs ws : List ℕ) → Packs n cs self → PacksWord n ws (value word) → result ≡ distance cs ws }
    {
        if word == self.ones {
            0
        } else {
            let known = not_word(self.erased);
            count_bits(and_words(xor_words(word, self.ones), known))
        }
    }

    // The cells in which two lines differ.
    pub fn differing(self, other: Line) -> Word
        ensures { value result ≡ bit_or (bit_xor (value self.ones) (value other.ones)) (bit_xor (value self.erased) (value other.erased)) }
    {
        or_words(
            xor_words(self.ones, other.ones),
            xor_words(self.erased, other.erased),
        )
    }

    // The cells that are unsure in the line and known in the other.
    pub fn known_only_in(self, other: Line) -> Word
        ensures { value result ≡ bit_xor (value self.erased) (bit_and (value self.erased) (value other.erased)) }
    {
        without(self.erased, other.erased)
    }

    // The cells of the line where they are known, and those of the other elsewhere.
    pub fn known_else(self, other: Line) -> Line
        ensures { (n : ℕ) (cs es : List ℕ) → Packs n cs self → Packs n es other → Packs n (known_else cs es) result }
    {
        Line {
            ones: or_words(self.ones, and_words(self.erased, other.ones)),
            erased: and_words(self.erased, other.erased),
        }
    }

    // ---- from cells in bytes to a packed line, and back

    // The lowest bit of a cell says that it is 1, the one above that it is unsure.
    pub fn pack(cells: &[u8]) -> Line
        requires { (length cells.now ≤ width) × (length cells.now % 8 ≡ 0) × ((i : ℕ) → cell cells.now i < 3) }
        ensures { Packs (length cells.now) cells.now result }
    {
        let (ones, erased) = gather_pair(cells);
        Line { ones, erased }
    }

    pub fn unpack(self, cells: &mut [u8])
        requires { length cells.old % 8 ≡ 0 }
        ensures { (length cells.new ≡ length cells.old) × ((cs : List ℕ) → Packs (length cells.old) cs self → cells.new ≡ cs) }
    {
        spread_pair(self.ones, self.erased, cells)
    }
}

// Cell k of a full word.
pub fn word_cell(word: Word, k: CellNumber) -> u64
    ensures { (result < 2) × ((n : ℕ) (ws : List ℕ) → PacksWord n ws (value word) → result ≡ cell ws k.number) }
{
    bit_at(word, k.number)
}

// Word one or word two.
pub fn word_of(words: [Word; 2], s: Side) -> Word
    ensures { result ≡ side_word s words }
{
    match s {
        Side::One => words[0],
        Side::Two => words[1],
    }
}
