// Texts: good inputs of `sheet`, and inputs that are spoilt in each way.
ghost use Rattle.std.specs.Prelude.{◌≤◌, ◌<◌};

use crate::calls::{Length, Refusals};
use damage::arrays::{DAMAGES, damage_array, make_sent};
use damage::chance::Chance;
use second::codes::Code;
use second::codewords::Decoder;
use second::sheets::Page;

#[derive(Clone, Copy, PartialEq, Eq, Debug)]
enum Fault {
    // Another length: empty, one byte, the first line alone, a byte less, a byte more.
    Long(Length),
    // Another first line: degree 5, a carriage return, another degree, and the degree with a zero before it.
    DegreeFive,
    CarriageReturn,
    OtherDegree,
    ZeroBefore,
    // Another byte in the lines: a newline, mostly in a cell's place; a cell in a newline's place; a character that is no cell, mostly in a
    // cell's place; and a space in a newline's place with it.
    Newline,
    NoNewline,
    NoCell,
    NoCellAndSpace,
}

const FAULTS: [Option<Fault>; 16] = [
    Some(Fault::Long(Length::Few(0))),
    Some(Fault::Long(Length::Few(1))),
    Some(Fault::Long(Length::Few(2))),
    Some(Fault::Long(Length::OneLess)),
    Some(Fault::Long(Length::OneMore)),
    Some(Fault::DegreeFive),
    Some(Fault::CarriageReturn),
    Some(Fault::OtherDegree),
    Some(Fault::Newline),
    Some(Fault::NoNewline),
    Some(Fault::NoCell),
    Some(Fault::NoCellAndSpace),
    Some(Fault::ZeroBefore),
    None,
    None,
    None,
];

// The digit of the degree.
fn digit_of(code: Code) -> u8 {
    b'0' + (code.degree() % 8) as u8
}

// The text with a fault, at a place of its lines where it is in one of these; gives its length.
fn spoil(fault: Fault, code: Code, p: usize, page: &mut Page) -> Length
    requires { p < 272 }
{
    let bytes = &mut page.bytes;
    match fault {
        Fault::Long(_) => (),
        Fault::DegreeFive => bytes[0] = b'5',
        Fault::CarriageReturn => bytes[1] = b'\r',
        Fault::OtherDegree => bytes[0] = if code.n == 16 { b'6' } else { b'4' },
        Fault::ZeroBefore => {
            bytes[0] = b'0';
            bytes[1] = digit_of(code);
            bytes[2] = b'\n';
        }
        Fault::Newline => bytes[2 + p] = b'\n',
        Fault::NoNewline => bytes[2 + code.n] = b'0',
        Fault::NoCell => bytes[2 + p] = b'2',
        Fault::NoCellAndSpace => {
            bytes[2 + p] = b'2';
            bytes[2 + code.n] = b' ';
        }
    }
    match fault {
        Fault::Long(length) => length,
        _ => Length::Right,
    }
}

// How many bytes the text of an array has.
fn long_of(code: Code) -> usize
    ensures { result ≤ 16514 }
{
    2 + code.area() + code.n
}

// The text of an array; the bytes past its end are newlines.
fn text_of(code: Code, cells: &[u8; 16384]) -> Page {
    let mut page = Page {
        bytes: [b'\n'; 16700],
        length: 2,
    };
    page.bytes[0] = digit_of(code);
    page.put_lines(code, cells);
    page
}

impl Refusals {
    // What is printed for an input: of an array at most four numbers of 21 bytes, and the lines. The refusal number is the first character.
    fn test_text(&mut self, decoder: &Decoder, input: &[u8]) {
        let own = decoder.sheet_text(input);
        let mut given = [0u8; 16596];
        let long = text::sheet::sheet_text(input, &mut given);
        let room = Code::room_of(decoder.code.n);
        let compared = 84 + room.area() + room.n;
        self.tally
            .note(&own.bytes, &given, compared, own.length == long, 0);
        self.count(u64::from(given[0] % 8));
    }

    // The texts of arrays, spoilt or not.
    pub(crate) fn test_texts(&mut self, decoder: &Decoder, many: usize) {
        let code = decoder.code;
        let mut chance = Chance { state: 362436069 };
        for trial in 0..many {
            let mut cells = [0u8; 16384];
            make_sent(code, &mut chance, &mut cells);
            damage_array(
                DAMAGES[trial % DAMAGES.len()],
                code,
                &mut chance,
                &mut cells,
            );
            let mut page = text_of(code, &cells);
            let p = chance.below(272);
            let length = match FAULTS[trial % FAULTS.len()] {
                Some(fault) => spoil(fault, code, p, &mut page),
                None => Length::Right,
            };
            self.test_text(decoder, &page.bytes[..length.of(long_of(code))]);
        }
    }

    // The text of one array, with each digit as its first line.
    pub(crate) fn test_first_lines(&mut self, decoder: &Decoder) {
        let code = decoder.code;
        let mut cells = [0u8; 16384];
        make_sent(code, &mut Chance { state: 362436069 }, &mut cells);
        let mut page = text_of(code, &cells);
        for digit in b"0123456789" {
            page.bytes[0] = *digit;
            self.test_text(decoder, &page.bytes[..long_of(code)]);
        }
    }
}
