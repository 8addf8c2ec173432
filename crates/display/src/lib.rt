// What is shown of a window: window j of a reception, as that part of the caller's own bytes, and where it is unknown or differs from a transmission (`mark`).
// The calls take any number for the setting: the questions are asked here.
#![tactic(auto)]

pub mod mark;

ghost use Rattle.std.specs.Prelude.{◌≡◌, ◌<◌, length};
ghost use Rattle.code.specs.parts.SettingNumbers.{parameters_of};
ghost use Rattle.code.specs.Windows.{window_length};
ghost use Rattle.code.specs.parts.Residual.{frame_length, window_at};
ghost use Rattle.question.specs.Questions.{first_no, display_questions};
ghost use Rattle.question.specs.Refusals.{asked};
ghost use Rattle.display.specs.Display.{window_of};
ghost use Rattle.display.specs.Marks.{marks_answer};

use mark::Differences;
use question::answer::{Answer, Counts};
use question::refusal::Refusal;
use question::shape::Shape;

// The marks of a window as C programs get them, which have no `Result`: the answer, and the differences.
#[repr(C)]
#[derive(Clone, Copy)]
pub struct Marks {
    pub answer: Answer,
    pub marks: u64,
    pub set: u32,
}

// "Refused marks and their number set are 0."
impl From<Result<Differences, Refusal>> for Marks {
    ghost from_gives = { λ outcome r. r ≡ marks_answer outcome };

    fn from(outcome: Result<Differences, Refusal>) -> Marks {
        let answer = Answer::from(outcome.map(|_| Counts::default()));
        let found = outcome.unwrap_or_default();
        Marks {
            answer,
            marks: found.marks,
            set: found.set,
        }
    }
}

// Window j of a frame of this shape.
fn window_part(shape: Shape, frame: &[u8], j: u64) -> &[u8]
    requires inside { j < shape.blocks }
    requires long { length frame.now ≡ frame_length (parameters_of shape.setting) shape.blocks }
    ensures window { result.now ≡ window_at (parameters_of shape.setting) frame.now j }
    ensures long { length result.now ≡ window_length (parameters_of shape.setting) }
{
    let p = shape.parameters();
    code::window_of_frame(p, frame, j as usize)
}

// Window j of a reception; where one of questions 1, 2, 3 and 12 gets "no", empty and no `Err`: 01 wants the part, and `window_answer` says why.
pub fn window(number: u64, reception: &[u8], j: u64) -> &[u8]
    ensures { result.now ≡ window_of number reception.now j }
{
    let Ok(shape) = question::display_questions(number, reception.len(), j) else {
        return &reception[..0];
    };
    window_part(shape, reception, j)
}

// Whether `window` shows the window, or why it does not.
pub fn window_answer(number: u64, reception: &[u8], j: u64) -> Result<(), Refusal>
    ensures { asked result ≡ first_no (display_questions number (length reception.now) j) }
{
    question::display_questions(number, reception.len(), j)?;
    Ok(())
}
