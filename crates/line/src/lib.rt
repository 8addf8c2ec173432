// One line at the planning desk: a line in, a line out.
#![tactic(auto)]

ghost use Rattle.std.specs.Prelude.{◌≡◌, List, ℕ, true};
ghost use Rattle.question.specs.Refusals.{answered};
ghost use Rattle.line.specs.Answering.{line_areas, has_room, room_in, FrameLeft, Answered};
ghost use Rattle.line.specs.parts.Frames.{FrameOf};

mod characters;
mod head;
mod questions;
mod writing;

use head::LineShape;
use question::answer::Counts;
use question::refusal::Refusal;
use question::shape::MOST_BLOCKS;

// The most symbols of a frame, setting 4's, and of a message, setting 5's.
pub const MOST_SYMBOLS: usize = (MOST_BLOCKS + 3) * 15;

pub const MOST_INFORMATION: usize = MOST_BLOCKS * 5;

// The longest line: a head, and a frame. The longest answer: six characters, the head again, and a message.
pub const MOST_CHARACTERS: usize = head::LONGEST + MOST_SYMBOLS;

pub const MOST_ANSWER: usize = 6 + head::LONGEST + MOST_INFORMATION;

// The working areas are parts of any size that the caller lends, by 01: they stay three slices, which no struct of arrays can be.

// Whether working areas of these sizes have room for a line's frame of this shape.
fn has_room(shape: LineShape, reception: usize, message: usize, transmission: usize) -> bool
    ensures { (line : List ℕ) → FrameOf line shape → result ≡ has_room line reception message transmission }
{
    let long = shape.frame.transmission_length();
    long <= reception && long <= transmission && shape.frame.message_length() <= message
}

// Questions 4 and 7 of a line that holds a frame of this shape: its symbols are read into the reception and decoded.
fn decode_line(
    line: &[u8],
    shape: LineShape,
    reception: &mut [u8],
    message: &mut [u8],
    transmission: &mut [u8],
) -> Result<Counts, Refusal>
    requires { FrameOf line.now shape × (room_in line.now (line_areas reception.old message.old transmission.old) ≡ true) }
    ensures { FrameLeft line.now (line_areas reception.old message.old transmission.old) (answered result) (line_areas reception.new message.new transmission.new) }
{
    let number = u64::from(shape.frame.setting);
    let head = shape.form.length();
    let long = line.len() - head;
    characters::read_digits(&line[head..], &mut reception[..long]);
    link::decode::decode(number, &reception[..long], message, transmission)
}

// The output line for one line, at the front of the output area, and its length; a line's frame is decoded in the working areas, whatever they hold.
// An output area too small for the output line is left as it was, and the length is 0. Where a working area is too small for the line's frame, nothing
// is written and the length is 0.
pub fn answer_line(
    line: &[u8],
    reception: &mut [u8],
    message: &mut [u8],
    transmission: &mut [u8],
    output: &mut [u8],
) -> usize
    ensures { Answered line.now (line_areas reception.old message.old transmission.old) output.old result (line_areas reception.new message.new transmission.new) output.new }
{
    let shape = match questions::first_questions(line) {
        Ok(shape) => shape,
        Err(refusal) => return writing::write_refusal(refusal, output),
    };
    if !has_room(shape, reception.len(), message.len(), transmission.len()) {
        return 0;
    }
    match decode_line(line, shape, reception, message, transmission) {
        Ok(counts) => writing::write_success(
            counts.altered,
            shape,
            &message[..shape.frame.message_length()],
            output,
        ),
        Err(refusal) => writing::write_refusal(refusal, output),
    }
}
