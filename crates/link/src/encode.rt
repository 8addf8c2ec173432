// Encoding: from a message (the information word) to its transmission (the codeword).
ghost use Rattle.std.specs.Prelude.{◌≡◌, ◌+◌, ◌*◌, ◌<◌, length};
ghost use Rattle.code.specs.parts.SettingNumbers.{parameters_of};
ghost use Rattle.code.specs.Windows.{transmission, Message};
ghost use Rattle.code.specs.parts.Residual.{frame_length};
ghost use Rattle.question.specs.Refusals.{asked};
ghost use Rattle.link.specs.parts.Sending.{SentTo};
ghost use Rattle.link.specs.Encoding.{Encoded};

use question::refusal::Refusal;
use question::shape::Shape;
use tables::Tables;

// A message to be sent, of so many information blocks, by the tables of its setting.
#[derive(Clone, Copy)]
struct Sending<'a> {
    tables: &'a Tables,
    blocks: usize,
    message: &'a [u8],
    ghost fits: { Message tables.now.setting blocks message.now },
}

impl Sending<'_> {
    // Sends information block i: adds what it contributes to the m+1 blocks that it reaches.
    fn send_block(&self, i: usize, area: &mut [u8])
        requires { (i < self.now.blocks) × SentTo self.now.tables.now.setting self.now.blocks self.now.message.now (i * self.now.tables.now.setting.k) area.old }
        ensures { SentTo self.now.tables.now.setting self.now.blocks self.now.message.now (i * self.now.tables.now.setting.k + self.now.tables.now.setting.k) area.new }
    {
        let p = self.tables.setting;
        let block = area::part(self.message, p.k, i);
        let start = i * p.n;
        let end = start + code::window_length(p);
        for (r, symbol) in block.iter().enumerate() {
            self.tables.add_rows(r, *symbol, &mut area[start..end]);
        }
    }

    // The whole transmission: zeros, to which each information block adds its part.
    fn send(&self, area: &mut [u8])
        requires { length area.old ≡ frame_length self.now.tables.now.setting self.now.blocks }
        ensures { area.new ≡ transmission self.now.tables.now.setting self.now.message.now }
    {
        area.fill(0);
        for i in 0..self.blocks {
            self.send_block(i, area);
        }
    }
}

// The transmission of a message of this shape, in an area of just its size; the tables are made here.
fn encode_frame(shape: Shape, message: &[u8], area: &mut [u8])
    requires { Message (parameters_of shape.setting) shape.blocks message.now × (length area.old ≡ frame_length (parameters_of shape.setting) shape.blocks) }
    ensures { area.new ≡ transmission (parameters_of shape.setting) message.now }
{
    let tables = Tables::new(shape.setting);
    let sending = Sending {
        tables: &tables,
        blocks: shape.blocks,
        message,
    };
    sending.send(area);
}

// Encodes a message: the first "no" to questions 1, 8, 3, 4 and 6, or the transmission in the first (T+m) × n bytes of its area.
pub fn encode(number: u64, message: &[u8], transmission: &mut [u8]) -> Result<(), Refusal>
    ensures { Encoded number message.now transmission.old (asked result) transmission.new }
{
    let shape = question::encoding_questions(number, message, transmission.len())?;
    let long = shape.transmission_length();
    encode_frame(shape, message, &mut transmission[..long]);
    Ok(())
}
