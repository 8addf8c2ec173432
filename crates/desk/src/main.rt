// The planning desk: reads lines from standard input to its end and writes one line for each (01, "Lines at the planning desk").
#![tactic(auto)]

mod lines;
mod text;

ghost use Rattle.std.specs.Prelude.{◌≤◌, [], length, IfOk, IfSome};
ghost use Rattle.std.specs.Option.{option_copied};
ghost use Rattle.desk.specs.Turns.{kept_line, Kept};

use lines::{Desk, LINE};
use std::fmt;
use std::fmt::Write as _;
use std::io::{Error, ErrorKind, Read, Write};
use text::Text;

// How much a read may give.
const INPUT: usize = 4096;

// Room for the answers of a turn, each with a newline. An answer is at most six characters longer than its line: a character that is kept of a line costs one,
// and one that is read seven, since it may end a line. The end of the input may end one too.
const OUTPUT: usize = LINE + 7 * (INPUT + 1);

// Room for a message on standard error, and for that with a newline.
const MESSAGE: usize = 255;

const MESSAGE_LINE: usize = MESSAGE + 1;

// What stands between an error's message and its number.
const NUMBER: &[u8] = b" (os error ";

// Which stream failed, and why.
#[derive(Drop)]
enum Failure {
    Input(Error),
    Output(Error),
}

impl fmt::Display for Failure {
    fn fmt<W: fmt::Write>(&self, f: &mut fmt::Formatter<W>) -> fmt::Result {
        match self {
            Failure::Input(error) => write!(f, "standard input: {error}"),
            Failure::Output(error) => write!(f, "standard output: {error}"),
        }
    }
}

// An error's message without its number.
fn without_number(message: &[u8]) -> &[u8] {
    match message
        .windows(NUMBER.len())
        .position(|part| part == NUMBER)
    {
        Some(end) => &message[..end],
        None => message,
    }
}

// Says on standard error what failed, without the number of the error.
fn fail(rt: &HostRuntime, failure: Failure) {
    let mut message = Text::<MESSAGE>::new();
    let _ = write!(message, "desk: {failure}");
    let mut line = Text::<MESSAGE_LINE>::new();
    line.append(without_number(message.as_bytes()));
    line.append(b"\n");
    let _ = rt.stderr().write_all(line.as_bytes());
}

// What a read gives; nothing where a signal interrupted it, which is no failure: it is tried again.
fn read<'a>(rt: &HostRuntime, input: &'a mut [u8]) -> Result<Option<&'a [u8]>, Error>
    ensures { IfOk result (λ read. IfSome (option_copied read) (λ text. length text ≤ length input.old)) }
{
    match rt.stdin().read(input) {
        Ok(n) => Ok(Some(&input[..n])),
        Err(error) if error.kind() == ErrorKind::Interrupted => Ok(None),
        Err(error) => Err(error),
    }
}

// Reads, answers and writes, turn by turn; an interrupted read is a turn that fills nothing. Nothing says that an input ends, so the turns are counted up
// to a number that no run reaches.
fn run(rt: &HostRuntime, input: &mut [u8; INPUT], desk: &mut Desk<OUTPUT>) -> Result<(), Failure>
    requires { Kept [] (kept_line LINE desk.old.line) }
{
    for _ in 0..u64::MAX {
        let read = read(rt, input).map_err(Failure::Input)?;
        desk.turn(read);
        rt.stdout()
            .write_all(desk.output.as_bytes())
            .map_err(Failure::Output)?;
        if read.is_some_and(|text| text.is_empty()) {
            break;
        }
    }
    Ok(())
}

fn main(rt: HostRuntime) {
    let mut input = [0; INPUT];
    let mut desk = Desk::new();
    if let Err(failure) = run(&rt, &mut input, &mut desk) {
        fail(&rt, failure);
    }
}
