// Output lines.
ghost use Rattle.std.specs.Prelude.{◌≡◌, ◌+◌, ◌≤◌, ◌%◌, length};
ghost use Rattle.field.specs.Symbols.{Symbols};
ghost use Rattle.question.specs.Questions.{most_information};
ghost use Rattle.question.specs.Refusals.{answered};
ghost use Rattle.line.specs.Characters.{character_of, hex};
ghost use Rattle.line.specs.Heads.{head_length, head_text};
ghost use Rattle.line.specs.Answering.{refusal as refusal_line, opening, success, Shown};
ghost use Rattle.line.specs.parts.Frames.{head_of};
ghost use Rattle.line.specs.parts.Writing.{Placed, WrittenBehind};

use super::characters;
use super::head::LineShape;
use question::refusal::Refusal;

// The last digit of a number.
fn last_digit(number: u64) -> u8
    ensures { result ≡ character_of (number % 16) }
{
    characters::character((number % 16) as u8)
}

// A number in as many digits as the area has places: from the last place back.
fn write_number(number: u64, area: &mut [u8])
    ensures { area.new ≡ hex (length area.old) number }
{
    let mut left = number;
    // By index: of `area.iter_mut().rev()` no invariant can name what was written.
    for i in (0..area.len()).rev() {
        area[i] = last_digit(left);
        left /= 16;
    }
}

// Writes a number behind what is written, from this place on in so many digits.
fn put_number(number: u64, from: usize, count: usize, output: &mut [u8])
    requires { from + count ≤ length output.old }
    ensures { WrittenBehind from (hex count number) output.old output.new }
{
    write_number(number, &mut output[from..from + count]);
}

// "two digits of the question's number and four of the place"; its length, or 0 where there is no room, as 01 has `answer_line` give it.
pub fn write_refusal(refusal: Refusal, output: &mut [u8]) -> usize
    ensures { Shown (refusal_line (answered (Err refusal))) output.old result output.new }
{
    if output.len() < 6 {
        return 0;
    }
    put_number(u64::from(refusal.number()), 0, 2, output);
    put_number(refusal.place(), 2, 4, output);
    6
}

// "the setting digit, three of T", or four, behind what is written.
fn put_head(shape: LineShape, from: usize, output: &mut [u8])
    requires { from + head_length shape.form ≤ length output.old }
    ensures { WrittenBehind from (head_text (head_of shape)) output.old output.new }
{
    let digit = u64::from(shape.form.above) + u64::from(shape.frame.setting);
    put_number(digit, from, 1, output);
    let count = usize::from(shape.form.digits);
    put_number(shape.frame.blocks as u64, from + 1, count, output);
}

// "`00`, four digits of altered count", and the head.
fn write_opening(altered: u32, shape: LineShape, output: &mut [u8])
    requires { 6 + head_length shape.form ≤ length output.old }
    ensures { Placed (opening altered (head_of shape)) output.old output.new }
{
    put_number(0, 0, 2, output);
    put_number(u64::from(altered), 2, 4, output);
    put_head(shape, 6, output);
}

// The opening "and the message symbols"; its length, or 0 as above.
pub fn write_success(altered: u32, shape: LineShape, message: &[u8], output: &mut [u8]) -> usize
    requires { Symbols 16 message.now × (length message.now ≤ most_information) }
    ensures { Shown (success altered (head_of shape) message.now) output.old result output.new }
{
    let start = 6 + shape.form.length();
    let end = start + message.len();
    if output.len() < end {
        return 0;
    }
    write_opening(altered, shape, output);
    characters::write_symbols(message, &mut output[start..end]);
    end
}
