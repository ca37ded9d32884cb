// The places of a sheet in shuffled order.
ghost use Rattle.std.specs.Prelude.{◌≡◌, ◌+◌, ◌-◌, ◌%◌, ◌<◌, ◌≤◌, length};
ghost use Rattle.line.specs.Decoding.{list_to};
ghost use Rattle.load.specs.Load.{start, shuffled, order};

use crate::draws::{drawn, next, start};

// A place is kept in 16 bits, so there may be 65,536: that is asked, for the places are a lent slice.

// Place i is i.
fn number_places(places: &mut [u16])
    requires { length places.old ≤ 65536 }
    ensures { places.new ≡ list_to (λ p. p) (length places.old) }
{
    for (i, place) in places.iter_mut().enumerate() {
        *place = i as u16;
    }
}

// The place that changes with place i, by a draw.
fn partner(i: usize, draw: u64) -> usize
    requires { (0 < i) × (i < 65536) }
    ensures { result ≡ draw % (i + 1) }
{
    (draw % (i as u64 + 1)) as usize
}

// From the last place down to place 1.
fn shuffle(seed: u64, places: &mut [u16])
    requires { (0 < length places.old) × (length places.old ≤ 65536) }
    ensures { places.new ≡ shuffled (length places.old - 1) (start seed) places.old }
{
    let mut state = start(seed);
    for i in (1..places.len()).rev() {
        state = next(state);
        places.swap(i, partner(i, drawn(state)));
    }
}

// All places of a sheet, shuffled.
pub fn put_order(seed: u64, places: &mut [u16])
    requires { (0 < length places.old) × (length places.old ≤ 65536) }
    ensures { places.new ≡ order (length places.old) seed }
{
    number_places(places);
    shuffle(seed, places);
}
