// The answer record of 01 and 02, as C programs get it.
ghost use Rattle.std.specs.Prelude.{◌≡◌};
ghost use Rattle.question.specs.Refusals.{answered};

use super::refusal::Refusal;

// What decoding counts: the altered symbols of blocks 0 to T−1, and the unknown symbols of all blocks.
#[derive(Clone, Copy, Default)]
pub struct Counts {
    pub altered: u32,
    pub unknown: u32,
}

// The answer of every call: the number and place of the first question answered "no", or 0 and 0, and what decoding counts.
#[repr(C)]
#[derive(Clone, Copy)]
pub struct Answer {
    pub number: u32,
    pub altered: u32,
    pub place: u64,
    pub unknown: u32,
}

// "When every answer is yes, number and place are 0." "A "no" gives the number .. the count is 0."
impl From<Result<Counts, Refusal>> for Answer {
    ghost from_gives = { λ outcome r. r ≡ answered outcome };

    fn from(outcome: Result<Counts, Refusal>) -> Answer {
        match outcome {
            Ok(counts) => Answer {
                number: 0,
                altered: counts.altered,
                place: 0,
                unknown: counts.unknown,
            },
            Err(refusal) => Answer {
                number: refusal.number(),
                altered: 0,
                place: refusal.place(),
                unknown: 0,
            },
        }
    }
}
