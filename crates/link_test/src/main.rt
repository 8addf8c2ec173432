// Runs the calls of tests/vectors on the library, a line in and a line out; tests/vectors/rattle.py makes stdin and stdout.
//
// A line in: the call's letter, the setting, and j or D (16 digits each), the lengths of three areas (4 digits each), with a space after each,
// then the areas, two digits a byte, one after the other. All digits are hexadecimal.
// A line out: number, place, altered and unknown symbols of the answer in decimal, then what the call returned and what it left in the areas; for a desk line,
// its answer.
#![tactic(auto)]

ghost use Rattle.std.specs.Prelude.{◌≤◌, ◌<◌, length};

use display::Marks;
use link::woven::WovenAnswer;
use question::answer::{Answer, Counts};
use question::refusal::Refusal;
use question::shape::MOST_FRAMES;
use std::fmt;
use std::io::{Error, ErrorKind, Read, Stdout, Write};

// The bytes of a line before its areas.
const START: usize = 51;

// The most bytes of an area.
const MOST_BYTES: usize = 16400;

// The value of a digit, and 0 for any other byte. That of `line` is private, and a test reads its input by itself. By std it is no plainer: `to_digit` wants a
// `char` and gives an `Option<u32>`, and `from_str_radix` wants a `str`.
fn value(digit: u8) -> u8
    ensures { result < 16 }
{
    match digit {
        b'0'..=b'9' => digit - b'0',
        b'a'..=b'f' => digit - b'a' + 10,
        _ => 0,
    }
}

// The number that the last sixteen digits of a text say.
fn word(digits: &[u8]) -> u64 {
    digits
        .iter()
        .fold(0, |word, digit| word << 4 | u64::from(value(*digit)))
}

// Reads bytes, two digits each, by way of an array with room for them.
fn read(rt: &HostRuntime, room: &mut [u8; 2 * MOST_BYTES], bytes: &mut [u8]) -> Result<(), Error>
    requires { length bytes.old ≤ MOST_BYTES }
{
    let digits = &mut room[..2 * bytes.len()];
    rt.stdin().read_exact(digits)?;
    for (byte, pair) in bytes.iter_mut().zip(digits.chunks_exact(2)) {
        *byte = value(pair[0]) << 4 | value(pair[1]);
    }
    Ok(())
}

// Standard output, where what can't be written is passed over: the lines run to the end of the input, whatever becomes of their answers.
#[derive(Clone, Copy)]
struct Output {
    to: Stdout,
}

impl Output {
    fn new(rt: &HostRuntime) -> Output {
        Output { to: rt.stdout() }
    }
}

impl Write for Output {
    fn write(&mut self, bytes: &[u8]) -> Result<usize, Error> {
        let _ = self.to.write_all(bytes);
        Ok(bytes.len())
    }

    fn flush(&mut self) -> Result<(), Error> {
        Ok(())
    }
}

// Writes bytes, two digits each, by one write: standard output keeps nothing back, and each write is a call of the system. No area has more than MOST_BYTES.
fn show_digits(rt: &HostRuntime, bytes: &[u8]) -> Result<(), Error> {
    let digits = *b"0123456789abcdef";
    let mut room = [0u8; 2 * MOST_BYTES];
    for (pair, byte) in room.chunks_exact_mut(2).zip(bytes) {
        pair[0] = digits[usize::from(byte >> 4)];
        pair[1] = digits[usize::from(byte & 15)];
    }
    if let Some(written) = room.get(..2 * bytes.len()) {
        Output::new(rt).write_all(written)?;
    }
    Ok(())
}

// An answer, written as its number, its place, and how many symbols are altered and unknown.
#[derive(Clone, Copy)]
struct Numbers {
    of: Answer,
}

impl fmt::Display for Numbers {
    fn fmt<W: fmt::Write>(&self, f: &mut fmt::Formatter<W>) -> fmt::Result {
        write!(
            f,
            "{} {} {} {}",
            self.of.number, self.of.place, self.of.altered, self.of.unknown
        )
    }
}

// The answer of a call that counts nothing, and what it returned or left in its one area.
fn show_outcome(rt: &HostRuntime, outcome: Result<(), Refusal>, area: &[u8]) -> Result<(), Error> {
    let answer = Numbers {
        of: Answer::from(outcome.map(|()| Counts::default())),
    };
    write!(Output::new(rt), "{answer} ")?;
    show_digits(rt, area)?;
    writeln!(Output::new(rt))
}

// What a call left in both of its areas.
fn show_areas(rt: &HostRuntime, message: &[u8], transmission: &[u8]) -> Result<(), Error> {
    write!(Output::new(rt), " ")?;
    show_digits(rt, message)?;
    write!(Output::new(rt), " ")?;
    show_digits(rt, transmission)?;
    writeln!(Output::new(rt))
}

fn decode(
    rt: &HostRuntime,
    number: u64,
    reception: &[u8],
    message: &mut [u8],
    transmission: &mut [u8],
) -> Result<(), Error> {
    let outcome = link::decode::decode(number, reception, message, transmission);
    let answer = Numbers {
        of: Answer::from(outcome),
    };
    write!(Output::new(rt), "{answer}")?;
    show_areas(rt, message, transmission)
}

fn window(rt: &HostRuntime, number: u64, reception: &[u8], j: u64) -> Result<(), Error> {
    let outcome = display::window_answer(number, reception, j);
    show_outcome(rt, outcome, display::window(number, reception, j))
}

fn marks(
    rt: &HostRuntime,
    number: u64,
    reception: &[u8],
    transmission: &[u8],
    j: u64,
) -> Result<(), Error> {
    let found = Marks::from(display::mark::marks(number, reception, transmission, j));
    let answer = Numbers { of: found.answer };
    writeln!(Output::new(rt), "{} {} {}", answer, found.marks, found.set)
}

// The answers of all frames; those that are not there are zeros.
fn show_frames(rt: &HostRuntime, answers: [Answer; MOST_FRAMES]) -> Result<(), Error> {
    for answer in answers {
        write!(Output::new(rt), " {}", Numbers { of: answer })?;
    }
    Ok(())
}

fn decode_woven(
    rt: &HostRuntime,
    number: u64,
    frames: u64,
    reception: &[u8],
    message: &mut [u8],
    transmission: &mut [u8],
) -> Result<(), Error> {
    let outcome = link::woven::decode_woven(number, frames, reception, message, transmission);
    let woven = WovenAnswer::from(outcome);
    write!(Output::new(rt), "{}", Numbers { of: woven.answer })?;
    show_frames(rt, woven.frame)?;
    show_areas(rt, message, transmission)
}

// The answer to a desk line; areas with room for every line are made here.
fn desk_line(rt: &HostRuntime, text: &[u8]) -> Result<(), Error> {
    let mut reception = [0u8; line::MOST_SYMBOLS];
    let mut message = [0u8; line::MOST_INFORMATION];
    let mut transmission = [0u8; line::MOST_SYMBOLS];
    let mut output = [0u8; line::MOST_ANSWER];
    let long = line::answer_line(
        text,
        &mut reception,
        &mut message,
        &mut transmission,
        &mut output,
    );
    if let Some(answer) = output.get(..long) {
        Output::new(rt).write_all(answer)?;
        Output::new(rt).write_all(b"\n")?;
    }
    Ok(())
}

// What stands at the start of a line.
#[derive(Clone, Copy)]
struct Head {
    call: u8,
    number: u64,
    chosen: u64,
    first: usize,
    second: usize,
    third: usize,
}

// What the bytes before the areas say.
fn head_of(start: [u8; START]) -> Head {
    Head {
        call: start[0],
        number: word(&start[2..18]),
        chosen: word(&start[19..35]),
        first: word(&start[36..40]) as usize,
        second: word(&start[41..45]) as usize,
        third: word(&start[46..50]) as usize,
    }
}

// The calls get the numbers of their input, wrong ones too.
//
// E: encoding of the first area into the third. D: decoding of the first into the second and the third. W: window j of the first. M: marks of the first and
// the second in window j. V: weaving of the first into the third; U: unweaving. F: decoding of woven frames, the areas as with D. L: the first as a line at
// the planning desk. The number is the setting, `chosen` is j or D. The letters are read here alone; an enum of the calls would be no plainer,
// as it would list them three times.
fn call_on(
    rt: &HostRuntime,
    head: Head,
    first: &[u8],
    second: &mut [u8],
    third: &mut [u8],
) -> Result<(), Error> {
    let number = head.number;
    let chosen = head.chosen;
    match head.call {
        b'E' => show_outcome(rt, link::encode::encode(number, first, third), third),
        b'D' => decode(rt, number, first, second, third),
        b'W' => window(rt, number, first, chosen),
        b'M' => marks(rt, number, first, second, chosen),
        b'V' => show_outcome(rt, weave::weave(number, chosen, first, third), third),
        b'U' => show_outcome(rt, weave::unweave(number, chosen, first, third), third),
        b'F' => decode_woven(rt, number, chosen, first, second, third),
        b'L' => desk_line(rt, first),
        _ => Ok(()),
    }
}

// Reads the areas of a line and its end, and hands them to its call.
fn run(rt: &HostRuntime, head: Head) -> Result<(), Error> {
    if MOST_BYTES < head.first.max(head.second).max(head.third) {
        return Err(Error::from(ErrorKind::InvalidData));
    }
    let mut first = [0u8; MOST_BYTES];
    let mut second = [0u8; MOST_BYTES];
    let mut third = [0u8; MOST_BYTES];
    let first = &mut first[..head.first];
    let second = &mut second[..head.second];
    let third = &mut third[..head.third];
    let mut room = [0u8; 2 * MOST_BYTES];
    read(rt, &mut room, first)?;
    read(rt, &mut room, second)?;
    read(rt, &mut room, third)?;
    let mut newline = [0u8; 1];
    rt.stdin().read_exact(&mut newline)?;
    call_on(rt, head, first, second, third)
}

// One line; an error where the input ends.
fn turn(rt: &HostRuntime) -> Result<(), Error> {
    let mut start = [0u8; START];
    rt.stdin().read_exact(&mut start)?;
    run(rt, head_of(start))
}

// Nothing says that an input ends, so the lines are counted up to a number that no run reaches.
fn main(rt: HostRuntime) {
    for _ in 0..1000000 {
        if turn(&rt).is_err() {
            return;
        }
    }
}
