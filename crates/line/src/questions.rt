// The questions of a line before its symbols are read: 11, 9, 1, 3 and 10.
ghost use Rattle.std.specs.Prelude.{◌≡◌, ◌++◌, ◌≤◌, IfOk, length};
ghost use Rattle.question.specs.Questions.{first_no};
ghost use Rattle.question.specs.Refusals.{asked};
ghost use Rattle.line.specs.Heads.{form_in, head_length};
ghost use Rattle.line.specs.Questions.{character_questions, head_questions};
ghost use Rattle.line.specs.parts.Frames.{HeadOf, FrameOf};

use super::head::{HeadForm, LineShape, form_in};
use super::{MOST_CHARACTERS, characters};
use code::SettingNumber;
use question::refusal::Refusal;
use question::shape::Shape;

// Questions 11 and 9: the form of the line's head.
fn character_questions(line: &[u8]) -> Result<HeadForm, Refusal>
    ensures answer { asked result ≡ first_no (character_questions line.now) }
    ensures form { IfOk result (λ form. form ≡ form_in line.now) }
{
    if MOST_CHARACTERS < line.len() {
        return Err(Refusal::LineTooLong);
    }
    let form = form_in(line);
    let head = line.len().min(form.length());
    if let Some(place) = characters::first_wrong_in_head(&line[..head]) {
        return Err(Refusal::WrongCharacter(place));
    }
    if head < form.length() {
        return Err(Refusal::WrongCharacter(head));
    }
    if let Some(place) = characters::first_wrong_in_frame(&line[head..]) {
        return Err(Refusal::WrongCharacter(head + place));
    }
    Ok(form)
}

// Questions 1, 3 and 10. T = 0 is asked for before there is a shape, and gets 10.
fn head_questions(line: &[u8], form: HeadForm) -> Result<LineShape, Refusal>
    requires { (form ≡ form_in line.now) × (head_length form ≤ length line.now) }
    ensures answer { asked result ≡ first_no (head_questions line.now) }
    ensures shape { IfOk result (HeadOf line.now) }
{
    let number = characters::value(line[0]) - form.above;
    let setting = SettingNumber::try_from(u64::from(number))?;
    let blocks = characters::read_number(&line[1..form.length()]);
    if form.most < blocks {
        return Err(Refusal::TooManyBlocks);
    }
    if blocks < 1 {
        return Err(Refusal::LineLength);
    }
    let frame = Shape { setting, blocks };
    if line.len() - form.length() != frame.transmission_length() {
        return Err(Refusal::LineLength);
    }
    Ok(LineShape { form, frame })
}

// Questions 11, 9, 1, 3 and 10: the shape of the line whose frame it holds.
pub fn first_questions(line: &[u8]) -> Result<LineShape, Refusal>
    ensures answer { asked result ≡ first_no (character_questions line.now ++ head_questions line.now) }
    ensures shape { IfOk result (FrameOf line.now) }
{
    let form = character_questions(line)?;
    head_questions(line, form)
}
