// Marks: where a reception and a transmission differ in a window, and where the reception has unknown symbols.
ghost use Rattle.std.specs.Prelude.{◌≡◌, ◌≤◌, length, get_or};
ghost use Rattle.display.specs.Marks.{bits, is_marked, marks_answer, Marked};

use super::window_part;
use question::UNKNOWN_MARK;
use question::refusal::Refusal;

// The differences in a window, unknown symbols among them, one bit a symbol, the earliest lowest, and how many are set.
#[derive(Clone, Copy, Default)]
pub struct Differences {
    pub marks: u64,
    pub set: u32,
}

// Whether a symbol is marked: it is unknown, whatever was sent, or it differs.
fn is_marked(received: u8, sent: u8) -> bool
    ensures { result ≡ is_marked received sent }
{
    received == UNKNOWN_MARK || received != sent
}

// The marks of two parts of one length, one bit a place, the first lowest: made from the last place on.
fn mark_bits(received: &[u8], sent: &[u8]) -> u64
    requires same { length sent.now ≡ length received.now }
    requires short { length received.now ≤ 64 }
    ensures { result ≡ bits (length received.now) (λ i. is_marked (get_or received.now i 0) (get_or sent.now i 0)) }
{
    let from_last = received.iter().rev().zip(sent.iter().rev());
    from_last.fold(0, |set, (a, b)| set << 1 | u64::from(is_marked(*a, *b)))
}

// The marks of window j and how many are set, or the first of questions 1, 2, 3, 12 and 13 that gets "no".
pub fn marks(
    number: u64,
    reception: &[u8],
    transmission: &[u8],
    j: u64,
) -> Result<Differences, Refusal>
    ensures { Marked number reception.now transmission.now j (marks_answer result) }
{
    let shape = question::marks_questions(number, reception.len(), transmission.len(), j)?;
    let received = window_part(shape, reception, j);
    let sent = window_part(shape, transmission, j);
    let marks = mark_bits(received, sent);
    Ok(Differences {
        marks,
        set: marks.count_ones(),
    })
}
