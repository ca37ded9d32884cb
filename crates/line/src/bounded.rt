// Bounded-distance decoding of a packed word.
ghost use Rattle.std.specs.Prelude.{◌≡◌, List, ℕ, ◌+◌, ◌<◌, eqb};
ghost use Rattle.degree.specs.Degree.{size};
ghost use Rattle.field.specs.Working.Places.{positions_of};
ghost use Rattle.field.specs.Working.Positions.{usable, Below};
ghost use Rattle.words.specs.Working.Word.{value};
ghost use Rattle.line.specs.Working.Packed.{PacksWord};
ghost use Rattle.line.specs.Working.Tries.{Mends, Decodes};

use crate::packed::Line;
use crate::tables::LineTables;
use crate::tally::Tally;
use field::locate::Place;
use words::word::{Word, single, xor_words};

// What bounded-distance decoding of a word found: a codeword, and how many cells of the word are changed for it.
#[derive(Clone, Copy, Debug, PartialEq, Eq)]
pub struct Correction {
    pub word: Word,
    pub changed: u64,
}

// The word with the cells flipped that an entry of places and the parity say: the last cell too where the ones would stay odd in
// number. Three flips are too many, and the mark that nothing fits is three. It goes one way for all entries: which cells are wrong
// can't be foretold, and a branch on it would be taken wrongly as often as not.
fn mend(word: Word, place: Place, tables: &LineTables) -> Option<Correction>
    requires { (place.parity < 2) × Below (size tables.now.degree) (usable (eqb place.parity 0) (positions_of place.entry)) }
    ensures { (ws : List ℕ) → PacksWord (size tables.now.degree) ws (value word) → Mends tables.now.degree ws (positions_of place.entry) (eqb place.parity 0) result }
{
    let entry = place.entry as u64;
    let number = entry / 16384;
    let odd = (number + place.parity as u64) % 2;
    let low = single((number + 1) / 2 % 2, (entry % 128) as u32);
    let high = single(number / 2 % 2, (entry / 128 % 128) as u32);
    let end = single(odd, tables.order() as u32);
    let flips = xor_words(low, xor_words(high, end)); // joined before the word is looked at
    let changed = number + odd;
    let word = xor_words(word, flips);
    if changed <= Line::RADIUS {
        Some(Correction { word, changed })
    } else {
        None
    }
}

// What is found for a word with that place. In a decode most words are codewords, and so is a word whose place is 0: then there is
// nothing to mend.
fn mended(word: Word, place: Place, tables: &LineTables) -> Option<Correction>
    requires { (place.parity < 2) × Below (size tables.now.degree) (usable (eqb place.parity 0) (positions_of place.entry)) }
    ensures { (ws : List ℕ) → PacksWord (size tables.now.degree) ws (value word) → Mends tables.now.degree ws (positions_of place.entry) (eqb place.parity 0) result }
{
    if (place.entry == 0) & (place.parity == 0) {
        Some(Correction { word, changed: 0 })
    } else {
        mend(word, place, tables)
    }
}

// Bounded-distance decoding of a packed word, where nothing is counted.
pub fn bounded_word(word: Word, tables: &LineTables) -> Option<Correction>
    ensures { (ws : List ℕ) → PacksWord (size tables.now.degree) ws (value word) → Decodes tables.now.degree ws result }
{
    mended(word, tables.word_place(&word), tables)
}

// That a count is small is asked, so that no sum of it wraps; a type that keeps it would ask the same at each step.

// The one way of a line's messages to bounded-distance decoding: it is handed the running count and gives it back one higher, and
// nothing else adds to a line's count. Like `bounded_word` it asks for the word's place itself: if one of them did for both,
// `word_place` would be called once, and the search of other degrees than 6 be compiled into the path of every line.
pub fn counted(word: Word, count: u64, tables: &LineTables) -> Tally<Option<Correction>>
    requires { count < 1000 }
    ensures { (result.count ≡ count + 1) × ((ws : List ℕ) → PacksWord (size tables.now.degree) ws (value word) → Decodes tables.now.degree ws result.value) }
{
    let value = mended(word, tables.word_place(&word), tables);
    let next = count + 1;
    Tally { value, count: next }
}
