// The questions of 01 and 02, asked in order by every call: the first "no" is the refusal.
// They take a setting as the number that the caller gave, since whether it is one's is question 1; what they give has its type.
#![tactic(auto)]

pub mod answer;
pub mod refusal;
pub mod shape;

ghost use Rattle.std.specs.Prelude.{◌≡◌, ◌+◌, ◌∷◌, [], Bool, true, not, List, ℕ, IfOk, length, position};
ghost use Rattle.field.specs.Symbols.{Symbols};
ghost use Rattle.code.specs.parts.SettingNumbers.{number_of, parameters_of};
ghost use Rattle.question.specs.Questions.{first_no, is_symbol, is_received, symbol_question, length_questions, frame_questions, area_questions};
ghost use Rattle.question.specs.Questions.{decoding_questions, encoding_questions, display_questions, marks_questions};
ghost use Rattle.question.specs.Questions.{woven_questions, weaving_questions, woven_decoding_questions};
ghost use Rattle.question.specs.Refusals.{asked};
ghost use Rattle.question.specs.parts.Shapes.{ReceptionOf, MessageOf, WovenOf};

pub use answer::Answer;
use code::{Setting, SettingNumber};
use refusal::Refusal;
pub use shape::{MOST_BLOCKS, MOST_FRAMES};
use shape::{Rooms, Shape, WovenShape};

// "Byte 255 in a reception .. means an unknown symbol" (02, #106).
pub const UNKNOWN_MARK: u8 = 255;

// Whether question 4 admits a byte in a message: it is a symbol.
pub fn is_symbol(q: usize, byte: u8) -> bool
    ensures { result ≡ is_symbol q byte }
{
    usize::from(byte) < q
}

// Whether question 4 admits a byte in a reception: it is a symbol, or the mark of an unknown one.
pub fn is_received(q: usize, byte: u8) -> bool
    ensures { result ≡ is_received q byte }
{
    is_symbol(q, byte) || byte == UNKNOWN_MARK
}

// The largest byte, which no byte exceeds. No early exit: the compiler looks at many bytes at once.
fn largest_byte(bytes: &[u8]) -> u8
    ensures { Symbols (result + 1) bytes.now }
{
    bytes.iter().fold(0, |most, byte| most.max(*byte))
}

// Whether all bytes are symbols. None is looked at by itself.
fn all_symbols(q: usize, bytes: &[u8]) -> bool
    ensures { result ≡ true → Symbols q bytes.now }
{
    usize::from(largest_byte(bytes)) < q
}

// Question 4, by the place of the first byte that it does not admit, if there is one.
fn all_admitted(refused: Option<usize>) -> Result<(), Refusal>
    ensures { (admits : ℕ → Bool) (l : List ℕ) → refused ≡ position (λ b. not (admits b)) l → asked result ≡ first_no (symbol_question admits l ∷ []) }
{
    match refused {
        Some(place) => Err(Refusal::NoSymbol(place)),
        None => Ok(()),
    }
}

// Question 4 of a message.
fn message_question(q: usize, message: &[u8]) -> Result<(), Refusal>
    ensures { asked result ≡ first_no (symbol_question (is_symbol q) message.now ∷ []) }
{
    if all_symbols(q, message) {
        return Ok(());
    }
    all_admitted(message.iter().position(|byte| !is_symbol(q, *byte)))
}

// Question 4 of a reception.
fn reception_question(q: usize, reception: &[u8]) -> Result<(), Refusal>
    ensures { asked result ≡ first_no (symbol_question (is_received q) reception.now ∷ []) }
{
    if all_symbols(q, reception) {
        return Ok(());
    }
    all_admitted(reception.iter().position(|byte| !is_received(q, *byte)))
}

// Questions 2 and 3 of a frame of this many symbols.
fn length_questions(setting: SettingNumber, long: usize) -> Result<Shape, Refusal>
    ensures answer { asked result ≡ first_no (length_questions (parameters_of setting) «long») }
    ensures shape { IfOk result (ReceptionOf (number_of setting) «long») }
{
    let p = Setting::from(setting);
    if long % p.n != 0 || long < code::window_length(p) {
        return Err(Refusal::FrameLength);
    }
    let blocks = long / p.n - p.m;
    if MOST_BLOCKS < blocks {
        return Err(Refusal::TooManyBlocks);
    }
    Ok(Shape { setting, blocks })
}

// Questions 1, 2 and 3 of a frame of this many symbols.
pub fn frame_questions(number: u64, long: usize) -> Result<Shape, Refusal>
    ensures answer { asked result ≡ first_no (frame_questions number «long») }
    ensures shape { IfOk result (ReceptionOf number «long») }
{
    let setting = SettingNumber::try_from(number)?;
    length_questions(setting, long)
}

// 4, 5 and 6 of frames of this shape, in areas with these rooms for each.
fn area_questions(shape: Shape, reception: &[u8], rooms: Rooms) -> Result<(), Refusal>
    ensures { asked result ≡ first_no (area_questions (parameters_of shape.setting) shape.blocks reception.now rooms.message rooms.transmission) }
{
    reception_question(shape.parameters().q, reception)?;
    if rooms.message < shape.message_length() {
        return Err(Refusal::MessageRoom);
    }
    if rooms.transmission < shape.transmission_length() {
        return Err(Refusal::TransmissionRoom);
    }
    Ok(())
}

// Decoding: 1, 2, 3, 4, 5, 6.
pub fn decoding_questions(number: u64, reception: &[u8], rooms: Rooms) -> Result<Shape, Refusal>
    ensures answer { asked result ≡ first_no (decoding_questions number reception.now rooms.message rooms.transmission) }
    ensures shape { IfOk result (ReceptionOf number (length reception.now)) }
{
    let shape = frame_questions(number, reception.len())?;
    area_questions(shape, reception, rooms)?;
    Ok(shape)
}

// Encoding: 1, 8, 3, 4, 6.
pub fn encoding_questions(
    number: u64,
    message: &[u8],
    transmission_room: usize,
) -> Result<Shape, Refusal>
    ensures answer { asked result ≡ first_no (encoding_questions number message.now transmission_room) }
    ensures shape { IfOk result (MessageOf number (length message.now)) }
{
    let setting = SettingNumber::try_from(number)?;
    let p = Setting::from(setting);
    if message.len() % p.k != 0 || message.len() < p.k {
        return Err(Refusal::MessageLength);
    }
    let blocks = message.len() / p.k;
    if MOST_BLOCKS < blocks {
        return Err(Refusal::TooManyBlocks);
    }
    let shape = Shape { setting, blocks };
    message_question(p.q, message)?;
    if transmission_room < shape.transmission_length() {
        return Err(Refusal::TransmissionRoom);
    }
    Ok(shape)
}

// Display: 1, 2, 3, 12.
pub fn display_questions(number: u64, long: usize, j: u64) -> Result<Shape, Refusal>
    ensures answer { asked result ≡ first_no (display_questions number «long» j) }
    ensures shape { IfOk result (ReceptionOf number «long») }
{
    let shape = frame_questions(number, long)?;
    if (shape.blocks as u64) <= j {
        return Err(Refusal::NoWindow);
    }
    Ok(shape)
}

// Marks: 1, 2, 3, 12, 13.
pub fn marks_questions(
    number: u64,
    reception_long: usize,
    transmission_long: usize,
    j: u64,
) -> Result<Shape, Refusal>
    ensures answer { asked result ≡ first_no (marks_questions number reception_long transmission_long j) }
    ensures shape { IfOk result (ReceptionOf number reception_long) }
{
    let shape = display_questions(number, reception_long, j)?;
    if reception_long != transmission_long {
        return Err(Refusal::LengthsDiffer);
    }
    Ok(shape)
}

// Of this many frames woven into this many symbols: 1, 14, 15, and 2 and 3 of one frame.
fn woven_questions(number: u64, frames: u64, long: usize) -> Result<WovenShape, Refusal>
    ensures answer { asked result ≡ first_no (woven_questions number frames «long») }
    ensures shape { IfOk result (WovenOf number frames «long») }
{
    let setting = SettingNumber::try_from(number)?;
    if frames < 2 || (MOST_FRAMES as u64) < frames {
        return Err(Refusal::FrameCount);
    }
    let frames = frames as usize;
    if long % frames != 0 {
        return Err(Refusal::UnevenFrames);
    }
    let frame = length_questions(setting, long / frames)?;
    Ok(WovenShape { frame, frames })
}

// Weaving and unweaving: 1, 14, 15, 2, 3, 4, 6.
pub fn weaving_questions(
    number: u64,
    frames: u64,
    incoming: &[u8],
    room: usize,
) -> Result<WovenShape, Refusal>
    ensures answer { asked result ≡ first_no (weaving_questions number frames incoming.now «room») }
    ensures shape { IfOk result (WovenOf number frames (length incoming.now)) }
{
    let shape = woven_questions(number, frames, incoming.len())?;
    reception_question(shape.frame.parameters().q, incoming)?;
    if room < incoming.len() {
        return Err(Refusal::TransmissionRoom);
    }
    Ok(shape)
}

// Decoding of woven frames: 1, 14, 15, 2, 3, 4, and 5 and 6 of one frame in a D-th of the room, which is the same as for all D.
pub fn woven_decoding_questions(
    number: u64,
    frames: u64,
    reception: &[u8],
    rooms: Rooms,
) -> Result<WovenShape, Refusal>
    ensures answer { asked result ≡ first_no (woven_decoding_questions number frames reception.now rooms.message rooms.transmission) }
    ensures shape { IfOk result (WovenOf number frames (length reception.now)) }
{
    let shape = woven_questions(number, frames, reception.len())?;
    area_questions(shape.frame, reception, shape.share(rooms))?;
    Ok(shape)
}
