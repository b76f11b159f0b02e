// A reader that goes over bytes from the front, and stands at the first that is not good.
ghost use Rattle.std.specs.Prelude.{◌≡◌};
ghost use Rattle.reading.specs.Grammar.{exactly, digit, number, direction, call_line};
ghost use Rattle.reading.specs.Headings.{heading_numbers};
ghost use Rattle.reading.specs.Places.{Reads};
ghost use Rattle.reading.specs.Readers.{front, ReadsByte, any_byte, heads, lettered, one_number, two_numbers, number_and_direction};

use block::order::Direction;
use rules::calls::Call;
use std::marker::Model;

#[derive(Drop)]
pub struct Reader<'a> {
    bytes: &'a [u8],
    at: usize,
}

impl<'a> Model for Reader<'a> {
    ghost use Rattle.std.specs.Prelude.{drop};
    ghost use Rattle.reading.specs.Places.{Place};

    ghost Value = { Place };

    ghost view = { λ r. record { at = r.at; ahead = drop r.at r.bytes.now } };
}

impl<'a> Reader<'a> {
    pub fn new(bytes: &'a [u8]) -> Reader<'a>
        ensures { result ≡ record { at = 0; ahead = bytes.now } }
    {
        Reader { bytes, at: 0 }
    }

    // How many bytes it has gone over.
    pub fn at(&self) -> usize
        ensures { result ≡ self.now.at }
    {
        self.at
    }

    // The byte that it stands at.
    fn byte(&self) -> Option<u8>
        ensures { result ≡ front self.now.ahead }
    {
        self.bytes.get(self.at).copied()
    }

    // Goes over one byte, where `read` makes something of it.
    fn read_byte<T, F: FnOnce(u8) -> Option<T>>(&mut self, read: F) -> Option<T>
        requires { F.IsAlwaysCallable read }
        ensures { ReadsByte (F.post read) self.old result self.new }
    {
        let value = read(self.byte()?)?;
        self.at += 1;
        Some(value)
    }

    // Goes over one byte, whichever it is.
    fn letter(&mut self) -> Option<u8>
        ensures { Reads any_byte self.old result self.new }
    {
        self.read_byte(Some)
    }

    // Goes over one byte, where it is this one.
    fn take(&mut self, byte: u8) -> Option<()>
        ensures { Reads (exactly byte) self.old result self.new }
    {
        self.read_byte(|found| (found == byte).then_some(()))
    }

    // Goes over one digit.
    fn digit(&mut self) -> Option<u32>
        ensures { Reads digit self.old result self.new }
    {
        self.read_byte(|found| found.is_ascii_digit().then(|| u32::from(found - b'0')))
    }

    // Goes over a number and the byte that ends it: one to five digits, no leading zero.
    fn number(&mut self, end: u8) -> Option<u32>
        ensures { Reads (number end) self.old result self.new }
    {
        let mut number = self.digit()?;
        while self.take(end).is_none() {
            // No digit may follow a zero that leads, nor a number of five digits.
            if !(1..=9_999).contains(&number) {
                return None;
            }
            number = number * 10 + self.digit()?;
        }
        Some(number)
    }

    fn direction(&mut self) -> Option<Direction>
        ensures { Reads direction self.old result self.new }
    {
        self.read_byte(|found| match found {
            b'u' => Some(Direction::Up),
            b'd' => Some(Direction::Down),
            _ => None,
        })
    }

    // Goes over a letter and the space after it.
    fn head(&mut self) -> Option<()>
        ensures { Reads heads self.old result self.new }
    {
        self.letter()?;
        self.take(b' ')
    }

    // Goes over a letter and one number, up to the end of the line.
    fn one(&mut self) -> Option<u32>
        ensures { Reads (lettered one_number) self.old result self.new }
    {
        self.head()?;
        self.number(b'\n')
    }

    // Goes over two numbers, up to the end of the line.
    fn two_numbers(&mut self) -> Option<(u32, u32)>
        ensures { Reads two_numbers self.old result self.new }
    {
        let first = self.number(b' ')?;
        let second = self.number(b'\n')?;
        Some((first, second))
    }

    // Goes over a letter and two numbers.
    fn two(&mut self) -> Option<(u32, u32)>
        ensures { Reads (lettered two_numbers) self.old result self.new }
    {
        self.head()?;
        self.two_numbers()
    }

    // Goes over the letter of a heading and its two numbers.
    pub fn heading(&mut self) -> Option<(u32, u32)>
        ensures { Reads heading_numbers self.old result self.new }
    {
        self.take(b'I')?;
        self.take(b' ')?;
        self.two_numbers()
    }

    // Goes over a letter, a number and a direction.
    fn sided(&mut self) -> Option<(u32, Direction)>
        ensures { Reads (lettered number_and_direction) self.old result self.new }
    {
        self.head()?;
        let number = self.number(b' ')?;
        let direction = self.direction()?;
        self.take(b'\n')?;
        Some((number, direction))
    }

    // Goes over a call: its letter and the fields that the letter asks for.
    pub fn call(&mut self) -> Option<Call>
        ensures { Reads call_line self.old result self.new }
    {
        match char::from(self.byte()?) {
            'N' => self
                .two()
                .map(|(train, post)| Call::PlaceTrain { train, post }),
            'W' => self.one().map(|train| Call::WithdrawTrain { train }),
            'G' => self.sided().map(|(section, direction)| Call::GiveRelease {
                section,
                direction,
            }),
            'O' => self.sided().map(|(section, direction)| Call::OpenSignal { section, direction }),
            'F' => self.sided().map(|(section, direction)| Call::CloseSignal {
                section,
                direction,
            }),
            'E' => self
                .two()
                .map(|(train, section)| Call::EnterSection { train, section }),
            'R' => self.sided().map(|(section, direction)| Call::ReturnRelease {
                section,
                direction,
            }),
            'H' => self.sided().map(|(section, direction)| Call::OpenHome { section, direction }),
            'S' => self.sided().map(|(section, direction)| Call::ShutHome { section, direction }),
            'T' => self
                .two()
                .map(|(train, section)| Call::ReachPedal { train, section }),
            'L' => self
                .two()
                .map(|(train, section)| Call::LeaveSection { train, section }),
            'D' => self.sided().map(|(section, direction)| Call::ClearSection {
                section,
                direction,
            }),
            'U' => self.sided().map(|(section, direction)| Call::UnsealSection {
                section,
                direction,
            }),
            'Z' => self.sided().map(|(section, direction)| Call::RestoreSection {
                section,
                direction,
            }),
            _ => None,
        }
    }
}
