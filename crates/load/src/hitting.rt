// Damage to a sheet: cells inverted and made unsure, at places that are handed in.
ghost use Rattle.std.specs.Prelude.{◌≡◌, ℕ, ◌+◌, ◌<◌, ◌≤◌, length};
ghost use Rattle.line.specs.Cells.{IsWord};
ghost use Rattle.load.specs.Load.{changed, damaged};
ghost use Rattle.load.specs.Working.Within.{Within};

// Changes the cells at the places, each by what the closure makes of it.
fn change<F: Fn(u8) -> u8>(by: F, places: &[u16], cells: &mut [u8])
    requires places { Within (length cells.old) places.now }
    requires calls { F.IsAlwaysCallable by }
    ensures { (f : ℕ → ℕ) → ((c x : ℕ) → F.post by c x → x ≡ f c) → cells.new ≡ changed f places.now cells.old }
{
    for place in places {
        let at = usize::from(*place);
        cells[at] = by(cells[at]);
    }
}

// The first places are inverted, the next made unsure.
pub fn put_damage(wrong: usize, unsure: usize, places: &[u16], cells: &mut [u8])
    requires { (wrong + unsure ≤ length places.now) × Within (length cells.old) places.now × IsWord (length cells.old) cells.old }
    ensures { cells.new ≡ damaged wrong unsure places.now cells.old }
{
    let end = wrong + unsure;
    change(|bit| 1u8.saturating_sub(bit), &places[..wrong], cells);
    change(|_| 2, &places[wrong..end], cells);
}
