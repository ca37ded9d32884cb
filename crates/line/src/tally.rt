// A value, and the decodings counted so far.
#[derive(Clone, Copy, Debug, PartialEq, Eq)]
pub struct Tally<T> {
    pub value: T,
    pub count: u64,
}
