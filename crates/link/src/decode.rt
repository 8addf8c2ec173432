// Decoding: from a reception (the received word) to the message that fits it and its transmission.
ghost use Rattle.std.specs.Prelude.{◌≡◌, ◌*◌, ◌≤◌, length, get_or};
ghost use Rattle.field.specs.Symbols.{Symbols};
ghost use Rattle.code.specs.parts.SettingNumbers.{parameters_of};
ghost use Rattle.code.specs.parts.Residual.{frame_length};
ghost use Rattle.code.specs.Windows.{transmission, known_distance, unknown_in};
ghost use Rattle.question.specs.Questions.{most_symbols};
ghost use Rattle.question.specs.Refusals.{answered};
ghost use Rattle.weave.specs.parts.Columns.{symbols_of};
ghost use Rattle.link.specs.parts.Restoring.{Restored, ReadFrom, FrameAnswered};
ghost use Rattle.link.specs.Decoding.{FrameDecoded, Decoded};

use field::Field;
use frame::Frame;
use question::answer::Counts;
use question::refusal::Refusal;
use question::shape::{Rooms, Shape};
use tables::Tables;
use weave::column::Column;

// The reception less its residual: the transmission, in the place of the residual, where no symbol is unknown.
fn restore(field: &Field, reception: &Column, residual: &mut [u8])
    requires { (length residual.old ≡ reception.now.long) × Symbols field.now.q (symbols_of reception.now) × Symbols field.now.q residual.old }
    ensures { Restored field.now.q (length residual.old) (symbols_of reception.now) residual.old residual.new }
{
    // A copy: behind the reference it would be read anew for each symbol.
    let column = *reception;
    for (i, symbol) in residual.iter_mut().enumerate() {
        *symbol = field.subtract(column.symbol(i), *symbol);
    }
}

// The transmission of the message that was read, in the place of its residual: where symbols are unknown, what is left of them says nothing, and the message is encoded.
fn transmit(shape: Shape, frame: &Frame, reception: &Column, message: &[u8], residual: &mut [u8])
    requires { (frame.now.tables.now.setting ≡ parameters_of shape.setting) × (length residual.old ≡ reception.now.long) × ReadFrom (parameters_of shape.setting) shape.blocks frame.now.unknown (symbols_of reception.now) message.now residual.old }
    ensures { residual.new ≡ transmission (parameters_of shape.setting) message.now }
{
    if frame.unknown == 0 {
        restore(&frame.tables.field, reception, residual);
    } else {
        // All questions get "yes". The whole call, for what has two callers is not inlined, and with less than it encoding took up to a tenth longer.
        let _ = super::encode::encode(u64::from(shape.setting), message, residual);
    }
}

// The altered count of a reception with this residual: how many known symbols are not zero in blocks 0 to T−1; closing blocks do not count.
fn altered_count(frame: &Frame, residual: &[u8]) -> usize
    requires { frame.now.blocks * frame.now.tables.now.setting.n ≤ length residual.now }
    ensures { result ≡ known_distance frame.now.tables.now.setting.q (frame.now.blocks * frame.now.tables.now.setting.n) (λ i. get_or residual.now i 0) (λ i. 0) }
{
    let p = frame.tables.setting;
    let counted = &residual[..frame.blocks * p.n];
    area::weight(counted) - code::unknown_symbols(p.q, counted)
}

// Question 7 of the reception that stands in the transmission area: the message and, in place of the reception, its residual; or zeros in both.
fn read_frame(frame: &Frame, message: &mut [u8], transmission: &mut [u8]) -> Result<Counts, Refusal>
    requires { (length transmission.old ≤ most_symbols) × (length message.old ≡ frame.now.blocks * frame.now.tables.now.setting.k) × (length transmission.old ≡ frame_length frame.now.tables.now.setting frame.now.blocks) × (frame.now.unknown ≡ unknown_in frame.now.tables.now.setting frame.now.blocks transmission.old) }
    ensures { FrameAnswered frame.now.tables.now.setting frame.now.blocks transmission.old (answered result) message.new transmission.new }
{
    if frame.read(message, transmission).is_none() {
        message.fill(0);
        transmission.fill(0);
        return Err(Refusal::NoneFits);
    }
    let altered = altered_count(frame, transmission);
    Ok(Counts {
        altered: altered as u32,
        unknown: frame.unknown as u32,
    })
}

// Question 7 of a reception of this shape, on areas of just the sizes that the message and its transmission take. The reception is copied to the transmission area
// and read there; the tables are made here. It is a column of a woven area: alone it is the one column. The shape has its setting by the number, so that the
// compiler knows which n and q there are (docs/DECISIONS.md).
pub fn decode_frame(
    shape: Shape,
    reception: &Column,
    message: &mut [u8],
    transmission: &mut [u8],
) -> Result<Counts, Refusal>
    requires { (length transmission.old ≡ reception.now.long) × (length message.old ≡ shape.blocks * (parameters_of shape.setting).k) × (length transmission.old ≡ frame_length (parameters_of shape.setting) shape.blocks) }
    ensures { FrameDecoded (parameters_of shape.setting) shape.blocks (symbols_of reception.now) (answered result) message.new transmission.new }
{
    let tables = Tables::new(shape.setting);
    reception.take(transmission);
    let frame = Frame {
        tables: &tables,
        blocks: shape.blocks,
        unknown: code::unknown_symbols(tables.setting.q, transmission),
    };
    let counts = read_frame(&frame, message, transmission)?;
    transmit(shape, &frame, reception, message, transmission);
    Ok(counts)
}

// Decodes a reception: the first "no" to questions 1 to 7, or the counts; the message that fits in the first T × k bytes of its
// area and its transmission in the first (T+m) × n bytes of its, or zeros there if no message fits.
pub fn decode(
    number: u64,
    reception: &[u8],
    message: &mut [u8],
    transmission: &mut [u8],
) -> Result<Counts, Refusal>
    ensures { Decoded number reception.now message.old transmission.old (answered result) message.new transmission.new }
{
    let rooms = Rooms {
        message: message.len(),
        transmission: transmission.len(),
    };
    let shape = question::decoding_questions(number, reception, rooms)?;
    let short = shape.message_length();
    let long = shape.transmission_length();
    let alone = Column {
        rows: reception,
        columns: 1,
        c: 0,
        long,
    };
    decode_frame(
        shape,
        &alone,
        &mut message[..short],
        &mut transmission[..long],
    )
}
