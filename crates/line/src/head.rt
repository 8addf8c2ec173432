// The head of a line: its forms, and the shape of the line that it heads.
ghost use Rattle.std.specs.Prelude.{◌≡◌, length};
ghost use Rattle.line.specs.Heads.{form_of, form_in, head_length};

use super::characters;
use question::shape::{MOST_BLOCKS, Shape};

// A form of heads.
#[derive(Clone, Copy)]
pub struct HeadForm {
    // How far the first digit is above the setting's number.
    pub above: u8,
    // How many digits T has.
    pub digits: u8,
    // The largest T.
    pub most: usize,
}

const SHORT: HeadForm = HeadForm {
    above: 0,
    digits: 3,
    most: 512,
};

const LONG: HeadForm = HeadForm {
    above: 9,
    digits: 4,
    most: MOST_BLOCKS,
};

// How many characters the longest head has.
pub const LONGEST: usize = 1 + LONG.digits as usize;

// The form of a head with this first digit: here alone it is asked which it is.
fn form_of(digit: u8) -> HeadForm
    ensures { result ≡ form_of digit }
{
    match digit {
        10..=14 => LONG,
        _ => SHORT,
    }
}

// The form of a line's head; an empty line has the head of one that begins wrong.
pub fn form_in(line: &[u8]) -> HeadForm
    ensures { result ≡ form_in line.now }
{
    let first = line.first().copied().unwrap_or(0);
    form_of(characters::value(first))
}

impl HeadForm {
    // How many characters a head has.
    pub fn length(self) -> usize
        ensures { result ≡ head_length self }
    {
        1 + usize::from(self.digits)
    }
}

// The shape of a line: the form of its head, and the shape of its frame.
#[derive(Clone, Copy)]
pub struct LineShape {
    pub form: HeadForm,
    pub frame: Shape,
}
