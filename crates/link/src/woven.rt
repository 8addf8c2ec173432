// Decoding of frames that were woven against bursts (02, #104).
ghost use Rattle.std.specs.Prelude.{◌≡◌, ◌*◌, ◌≤◌, Ok, length};
ghost use Rattle.code.specs.parts.SettingNumbers.{parameters_of};
ghost use Rattle.code.specs.parts.Residual.{frame_length};
ghost use Rattle.link.specs.parts.WovenFrames.{EachDecoded};
ghost use Rattle.link.specs.Woven.{woven_answer, DecodedWoven};

use question::answer::{Answer, Counts};
use question::refusal::Refusal;
use question::shape::{MOST_FRAMES, Rooms, WovenShape};
use weave::column::Column;

// What is counted of a frame that there is not.
const NOTHING: Counts = Counts {
    altered: 0,
    unknown: 0,
};

// One common answer, to the questions before 7, and the frames' own answers in order; zeros in the places of frames that there are not, and after a refusal.
#[repr(C)]
#[derive(Clone, Copy)]
pub struct WovenAnswer {
    pub answer: Answer,
    pub frame: [Answer; MOST_FRAMES],
}

// The answers that the frames' outcomes stand for, as C programs get them.
impl From<Result<[Result<Counts, Refusal>; MOST_FRAMES], Refusal>> for WovenAnswer {
    ghost from_gives = { λ outcome r. r ≡ woven_answer outcome };

    fn from(outcome: Result<[Result<Counts, Refusal>; MOST_FRAMES], Refusal>) -> WovenAnswer {
        match outcome {
            Ok(frames) => WovenAnswer {
                answer: Answer::from(Ok(NOTHING)),
                frame: frames.map(|outcome| Answer::from(outcome)),
            },
            Err(refusal) => WovenAnswer {
                answer: Answer::from(Err(refusal)),
                frame: [Answer::from(Ok(NOTHING)); MOST_FRAMES],
            },
        }
    }
}

// The frames in order, each with its own part of both areas; nothing counted in the frames that there are not.
fn decode_frames(
    shape: WovenShape,
    woven: &[u8],
    message: &mut [u8],
    transmission: &mut [u8],
) -> [Result<Counts, Refusal>; MOST_FRAMES]
    requires { (length woven.now ≡ frame_length (parameters_of shape.frame.setting) shape.frame.blocks * shape.frames) × (shape.frames * (shape.frame.blocks * (parameters_of shape.frame.setting).k) ≤ length message.old) × (shape.frames * frame_length (parameters_of shape.frame.setting) shape.frame.blocks ≤ length transmission.old) }
    ensures { EachDecoded (parameters_of shape.frame.setting) shape.frame.blocks shape.frames woven.now message.old transmission.old (woven_answer (Ok result)) message.new transmission.new }
{
    let short = shape.frame.message_length();
    let long = shape.frame.transmission_length();
    let mut outcomes = [Ok(NOTHING); MOST_FRAMES];
    // By index: after `chunks_exact_mut` a proof knows the length of the area and none of its symbols. The lent parts are cut out here: a function that returned a part
    // of a lent `&mut` area would have to say what the area holds once that part is written.
    for f in 0..shape.frames {
        let message_start = f * short;
        let message_end = message_start + short;
        let start = f * long;
        let end = start + long;
        let frame = Column {
            rows: woven,
            columns: shape.frames,
            c: f,
            long,
        };
        outcomes[f] = super::decode::decode_frame(
            shape.frame,
            &frame,
            &mut message[message_start..message_end],
            &mut transmission[start..end],
        );
    }
    outcomes
}

// Decodes the frames of a woven area: the first "no" to questions 1, 14, 15, 2, 3, 4, 5 and 6, or each frame's answer to 7 and altered count; the frames'
// messages and transmissions one after another at the front of their areas, zeros in the places of a frame that no message fits.
pub fn decode_woven(
    number: u64,
    frames: u64,
    reception: &[u8],
    message: &mut [u8],
    transmission: &mut [u8],
) -> Result<[Result<Counts, Refusal>; MOST_FRAMES], Refusal>
    ensures { DecodedWoven number frames reception.now message.old transmission.old (woven_answer result) message.new transmission.new }
{
    let rooms = Rooms {
        message: message.len(),
        transmission: transmission.len(),
    };
    let shape = question::woven_decoding_questions(number, frames, reception, rooms)?;
    Ok(decode_frames(shape, reception, message, transmission))
}
