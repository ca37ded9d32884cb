// Numbers from a seed. The state is s, which three shifts stir, and w, which grows by a constant; a draw is their sum.
ghost use Rattle.std.specs.Prelude.{◌≡◌};
ghost use Rattle.load.specs.Load.{stirred, grown, drawn};

#[derive(Clone, Copy)]
pub struct State {
    pub s: u64,
    pub w: u64,
}

// The state before the first draw.
pub fn start(seed: u64) -> State
    ensures { (result.s ≡ seed) × (result.w ≡ 0) }
{
    State { s: seed, w: 0 }
}

// Marsaglia's shifts, by 13, 7 and 17.
fn stir(s: u64) -> u64
    ensures { result ≡ stirred s }
{
    let a = s ^ (s << 13);
    let b = a ^ (a >> 7);
    b ^ (b << 17)
}

// The state after one draw more.
pub fn next(state: State) -> State
    ensures { (result.s ≡ stirred state.s) × (result.w ≡ grown state.w) }
{
    let s = stir(state.s);
    let w = state.w.wrapping_add(0x9E3779B97F4A7C15);
    State { s, w }
}

// The draw that led to this state.
pub fn drawn(state: State) -> u64
    ensures { result ≡ drawn (state.s, state.w) }
{
    state.s.wrapping_add(state.w)
}
