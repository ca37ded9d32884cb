// What a comparison notes, and how it is printed. A kind of test keeps a tally: how many were tried, agree and differ, and the sum of
// their results. Beside it stand how often each clause was met, and how often an array was left almost closed: it fails one of the tests of
// closed alone. Counts wrap, so that nothing has to be known of them; none comes near 2^64.
ghost use Rattle.std.specs.Prelude.{◌≡◌, ◌≤◌, true, cond, length, ◌==◌, replicate, take, drop, decimal, IfOk, OnOk, OnErr};
ghost use Rattle.std.specs.Io.KnownBytes.{Appends, Keeps};
ghost use Rattle.laws.specs.Sums.{sum_to};
ghost use Rattle.second.specs.Working.Lines.{one_where, is_like};
ghost use Rattle.second.specs.Working.Digits.{last_digits, IsDigitCount};
ghost use Rattle.second.specs.Working.Tallies.{mixed, next, counts_of, clause_place, ticked, AppendsPart, said_byte, said_text};

use crate::lines::Clause;
use std::io;
use std::io::{ErrorKind, Write};

// A sum of all the numbers mixed into it so far, in their order: it tells two runs apart that saw different results.
pub fn mix(sum: u64, value: u64) -> u64
    ensures { result ≡ mixed sum value }
{
    let a = sum.wrapping_add(value).wrapping_add(0x9E3779B97F4A7C15);
    let b = a ^ (a >> 29);
    let c = b ^ (b << 17);
    c ^ (c >> 32)
}

// One more where the fact holds.
pub fn tick_if(count: &mut u64, fact: bool)
    ensures { count.new ≡ cond fact (next count.old) count.old }
{
    if fact {
        *count = count.wrapping_add(1);
    }
}

// How often each clause was met.
#[derive(Clone, Copy)]
pub struct Clauses {
    equal: u64,
    crowded: u64,
    both: u64,
    neither: u64,
    agreeing: u64,
    unchanged: u64,
    open: u64,
    afresh: u64,
    channel: u64,
}

impl Clauses {
    pub fn none() -> Clauses
        ensures { counts_of result ≡ replicate 9 0 }
    {
        Clauses {
            equal: 0,
            crowded: 0,
            both: 0,
            neither: 0,
            agreeing: 0,
            unchanged: 0,
            open: 0,
            afresh: 0,
            channel: 0,
        }
    }

    // One more of this clause, and no more of any other.
    pub fn meet(&mut self, clause: Clause)
        ensures { counts_of self.new ≡ ticked (clause_place clause) (counts_of self.old) }
    {
        match clause {
            Clause::Equal => tick_if(&mut self.equal, true),
            Clause::Crowded => tick_if(&mut self.crowded, true),
            Clause::Both => tick_if(&mut self.both, true),
            Clause::Neither => tick_if(&mut self.neither, true),
            Clause::Agreeing => tick_if(&mut self.agreeing, true),
            Clause::Unchanged => tick_if(&mut self.unchanged, true),
            Clause::Open => tick_if(&mut self.open, true),
            Clause::Afresh => tick_if(&mut self.afresh, true),
            Clause::Channel => tick_if(&mut self.channel, true),
        }
    }

    // In the order in which they are printed.
    pub fn counts(&self) -> [u64; 9]
        ensures { result ≡ counts_of self.now }
    {
        [
            self.equal,
            self.crowded,
            self.both,
            self.neither,
            self.agreeing,
            self.unchanged,
            self.open,
            self.afresh,
            self.channel,
        ]
    }
}

// What is counted of every kind of test.
#[derive(Clone, Copy)]
pub struct Tally {
    pub tried: u64,
    pub agree: u64,
    pub differ: u64,
    pub sum: u64,
}

// A cell of a room, which is 0 past the cells that are lent.
fn cell_at(cells: &[u8], i: usize) -> u64 {
    u64::from(cells.get(i).copied().unwrap_or(0))
}

impl Tally {
    pub fn none() -> Tally
        ensures { (result.tried ≡ 0) × (result.agree ≡ 0) × (result.differ ≡ 0) × (result.sum ≡ 0) }
    {
        Tally {
            tried: 0,
            agree: 0,
            differ: 0,
            sum: 0,
        }
    }

    // Compares the cells that the second implementation and a proved entry leave in a room of so many cells, and notes whether they
    // agree, and the numbers beside them. The result is a number and the given cells.
    pub fn note(&mut self, own: &[u8], given: &[u8], room: usize, numbers_agree: bool, number: u64)
        ensures { self.new.tried ≡ next self.old.tried }
    {
        let mut agreed = numbers_agree;
        let mut sum = number;
        for i in 0..room {
            let cell = cell_at(given, i);
            agreed &= cell_at(own, i) == cell;
            sum = mix(sum, cell);
        }
        tick_if(&mut self.tried, true);
        tick_if(&mut self.agree, agreed);
        tick_if(&mut self.differ, !agreed);
        self.sum = mix(self.sum, sum);
    }
}

// Are all cells the same?
pub fn same(one: &[u8], other: &[u8]) -> bool
    ensures { result ≡ true → one.now ≡ other.now }
{
    one == other
}

// One write of at least one byte; gives how many were written. An interrupted write wrote none, and is no error, since it is tried again;
// a stream that takes none of them without being interrupted is full.
fn write_some<W: Write>(out: &mut W, bytes: &[u8]) -> io::Result<usize>
    ensures within { IfOk result (λ n. n ≤ length bytes.now) }
    ensures text { IfOk result (λ n. Appends (W.contents out.old) (W.contents out.new) (take n bytes.now)) }
    ensures left { OnErr result (Keeps (W.contents out.old) (W.contents out.new)) }
{
    match out.write(bytes) {
        Ok(0) => Err(io::Error::new(ErrorKind::WriteZero, "failed to write whole buffer")),
        Ok(n) => Ok(n),
        Err(e) if e.kind() == ErrorKind::Interrupted => Ok(0),
        Err(e) => Err(e),
    }
}

// Writes all the bytes, as write_all of std does. That promises nothing after an error; this promises that a part of their front is
// written. Nothing says that a stream ever takes them, so the tries are counted.
fn write_bytes<W: Write>(out: &mut W, bytes: &[u8]) -> io::Result<()>
    ensures text { OnOk result (Appends (W.contents out.old) (W.contents out.new) bytes.now) }
    ensures left { OnErr result (AppendsPart (W.contents out.old) (W.contents out.new) bytes.now) }
{
    let mut at = 0;
    let mut tries = u64::MAX;
    while at < bytes.len() && tries > 0 {
        at += write_some(out, &bytes[at..])?;
        tries -= 1;
    }
    if at < bytes.len() {
        Err(io::Error::new(ErrorKind::TimedOut, "gave up writing after 2^64 tries"))
    } else {
        Ok(())
    }
}

// The digits are put by hand, since std's `write!` may answer an error and then promises nothing of what it wrote.

// How many decimal digits a number has.
fn digit_count(number: u64) -> usize
    ensures { IsDigitCount number result × (result ≤ 20) }
{
    number.checked_ilog10().map_or(1, |log| log as usize + 1)
}

// Puts the last so many decimal digits of a number at the start of a room, the highest first.
fn put_digits(number: u64, many: usize, digits: &mut [u8; 20])
    requires { many ≤ 20 }
    ensures digits { take many digits.new ≡ last_digits many number }
    ensures others { drop many digits.new ≡ drop many digits.old }
{
    let mut rest = number;
    for i in (0..many).rev() {
        digits[i] = b'0' + (rest % 10) as u8;
        rest /= 10;
    }
}

// Puts the decimal digits of a number at the start of a room, and gives how many there are.
fn decimal(number: u64, digits: &mut [u8; 20]) -> usize
    ensures within { result ≤ 20 }
    ensures count { IsDigitCount number result }
    ensures digits { take result digits.new ≡ last_digits result number }
    ensures others { drop result digits.new ≡ drop result digits.old }
{
    let many = digit_count(number);
    put_digits(number, many, digits);
    many
}

// Writes a number in decimal.
fn write_number<W: Write>(out: &mut W, number: u64) -> io::Result<()>
    ensures text { OnOk result (Appends (W.contents out.old) (W.contents out.new) (decimal number)) }
    ensures left { OnErr result (AppendsPart (W.contents out.old) (W.contents out.new) (decimal number)) }
{
    let mut digits = [0u8; 20];
    let many = decimal(number, &mut digits);
    write_bytes(out, &digits[..many])
}

// Writes a byte, or, for a '#', the number at a place; gives how many numbers were written. Places are counted modulo 32, and past the
// numbers that are lent each is 0.
fn say_byte<W: Write>(out: &mut W, byte: u8, numbers: &[u64], place: usize) -> io::Result<usize>
    ensures count { IfOk result (λ said. (said ≡ one_where (byte == 35)) × (said ≤ 1)) }
    ensures text { OnOk result (Appends (W.contents out.old) (W.contents out.new) (said_byte byte numbers.now place)) }
    ensures left { OnErr result (AppendsPart (W.contents out.old) (W.contents out.new) (said_byte byte numbers.now place)) }
{
    if byte == b'#' {
        write_number(out, numbers.get(place % 32).copied().unwrap_or(0))?;
        Ok(1)
    } else {
        write_bytes(out, &[byte; 1])?;
        Ok(0)
    }
}

// Writes a line in which each '#' stands for the next of the numbers; gives how many numbers were written. An error leaves a part of the
// front of this text written, and nothing else.
pub fn say<W: Write>(out: &mut W, line: &[u8], numbers: &[u64]) -> io::Result<usize>
    ensures count { IfOk result (λ said. said ≡ sum_to (is_like 35 line.now) (length line.now)) }
    ensures text { OnOk result (Appends (W.contents out.old) (W.contents out.new) (said_text line.now numbers.now (length line.now))) }
    ensures left { OnErr result (AppendsPart (W.contents out.old) (W.contents out.new) (said_text line.now numbers.now (length line.now))) }
{
    let mut said = 0;
    for byte in line {
        said += say_byte(out, *byte, numbers, said)?;
    }
    Ok(said)
}
