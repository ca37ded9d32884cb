// The program `sheet`: reads standard input, has the crate `text` say what is printed for it, and prints that. An input longer
// than the buffer is too long for an array of any degree, and so is the part of it that is read. What could not be read or written is
// told on standard error, and the program then ends with that error; what was read before it is still decoded and printed.
#![tactic(auto)]

ghost use Rattle.std.specs.Prelude.{◌≡◌, ◌<◌, ◌≤◌, length, take, OnOk, IfSome};
ghost use Rattle.std.specs.Io.KnownBytes.{Appends, Consumes, IsAtEnd};
ghost use Rattle.text.specs.Text.{printed};

use std::io;
use std::io::{Read, Write};

// How many bytes were read, and the error, where a read failed: what was read before it is printed all the same.
#[derive(Drop)]
struct Reading {
    got: usize,
    end: io::Result<()>,
}

// One read, to the start of a buffer. A read gives as many bytes as it likes.
fn read_once<R: Read>(input: &mut R, buffer: &mut [u8]) -> Reading
    ensures within { (result.got ≤ length buffer.new) × (length buffer.new ≡ length buffer.old) }
    ensures bytes { Consumes (R.remaining input.old) (R.remaining input.new) (take result.got buffer.new) }
    ensures end { OnOk result.end (result.got ≡ 0 → 0 < length buffer.new → IsAtEnd (R.remaining input.new)) }
{
    match input.read(buffer) {
        Ok(got) => Reading { got, end: Ok(()) },
        Err(error) => Reading {
            got: 0,
            end: Err(error),
        },
    }
}

// Reads until the buffer is full, the input ends or a read fails.
fn read_input<R: Read>(input: &mut R, buffer: &mut [u8]) -> Reading
    ensures within { (result.got ≤ length buffer.new) × (length buffer.new ≡ length buffer.old) }
    ensures bytes { Consumes (R.remaining input.old) (R.remaining input.new) (take result.got buffer.new) }
    ensures whole { OnOk result.end (result.got < length buffer.new → IsAtEnd (R.remaining input.new)) }
{
    let mut got = 0;
    let mut more = true;
    let mut end = Ok(());
    while more & (got < buffer.len()) {
        let last = read_once(input, &mut buffer[got..]);
        got += last.got;
        more = last.got > 0;
        end = last.end;
    }
    Reading { got, end }
}

// Says on standard error that something went wrong, where it did. Where that cannot be written either, nothing can be said.
fn complain(rt: &impl Eprint, wrong: bool, text: &str) {
    if wrong {
        let _ = rt.eprint(text);
    }
}

fn print<W: Write>(out: &mut W, rt: &impl Eprint, text: &[u8]) -> io::Result<()>
    ensures { OnOk result (Appends (W.contents out.old) (W.contents out.new) text.now) }
{
    let written = out.write_all(text);
    complain(
        rt,
        written.is_err(),
        "sheet: standard output could not be written\n",
    );
    written
}

fn run<W: Write>(out: &mut W, rt: &impl Eprint, input: &[u8]) -> io::Result<()>
    ensures { OnOk result (Appends (W.contents out.old) (W.contents out.new) (printed input.now)) }
{
    let mut output = [0u8; 16596];
    let long = text::sheet::sheet_text(input, &mut output);
    print(out, rt, &output[..long])
}

// What the program does, with any input and any output: it writes what is printed for the bytes that the input has, of which the buffer
// takes the first 65536.
fn read_and_print<R: Read, W: Write>(input: &mut R, out: &mut W, rt: &impl Eprint) -> io::Result<()>
    ensures { OnOk result (IfSome (R.remaining input.old) (λ bytes. Appends (W.contents out.old) (W.contents out.new) (printed (take 65536 bytes)))) }
{
    let mut buffer = [0u8; 65536];
    let reading = read_input(input, &mut buffer);
    complain(
        rt,
        reading.end.is_err(),
        "sheet: standard input could not be read\n",
    );
    run(out, rt, &buffer[..reading.got])?;
    reading.end
}

fn main(rt: HostRuntime) -> io::Result<()> {
    read_and_print(&mut rt.stdin(), &mut rt.stdout(), &rt)
}
