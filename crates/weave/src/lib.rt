// Frames woven against bursts (02, #104): symbol i of frame f of D goes to i × D + f. The calls take any numbers for the setting and D: the questions are asked here.
#![tactic(auto)]

pub mod column;

ghost use Rattle.std.specs.Prelude.{◌≡◌, ◌*◌, length};
ghost use Rattle.question.specs.Refusals.{asked};
ghost use Rattle.weave.specs.Weaving.{transposed, woven, unwoven, Laid};

use column::Column;
use question::refusal::Refusal;

// The columns, one after another.
fn transpose(rows: usize, columns: usize, incoming: &[u8], out: &mut [u8])
    requires { (length incoming.now ≡ rows * columns) × (length out.old ≡ rows * columns) }
    ensures { out.new ≡ transposed rows columns incoming.now }
{
    // By index: after `chunks_exact_mut` a proof knows the length of the area and none of its symbols.
    for c in 0..columns {
        let column = Column {
            rows: incoming,
            columns,
            c,
            long: rows,
        };
        let start = c * rows;
        column.take(&mut out[start..start + rows]);
    }
}

// Weaves frames that come one after another: refused by one of questions 1, 14, 15, 2, 3, 4 and 6, or the woven symbols at the front of the out area.
pub fn weave(number: u64, frames: u64, incoming: &[u8], out: &mut [u8]) -> Result<(), Refusal>
    ensures { Laid number frames incoming.now (woven frames incoming.now) out.old (asked result) out.new }
{
    let shape = question::weaving_questions(number, frames, incoming, out.len())?;
    let size = shape.frame.transmission_length();
    transpose(shape.frames, size, incoming, &mut out[..incoming.len()]);
    Ok(())
}

// Unweaves: refused by the same questions, or the frames one after another at the front of the out area. It differs from `weave` only in which size is the
// rows', so that one function for both would take a switch for that, and say less.
pub fn unweave(number: u64, frames: u64, incoming: &[u8], out: &mut [u8]) -> Result<(), Refusal>
    ensures { Laid number frames incoming.now (unwoven frames incoming.now) out.old (asked result) out.new }
{
    let shape = question::weaving_questions(number, frames, incoming, out.len())?;
    let size = shape.frame.transmission_length();
    transpose(size, shape.frames, incoming, &mut out[..incoming.len()]);
    Ok(())
}
