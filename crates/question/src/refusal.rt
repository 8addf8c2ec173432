// The refusals.
ghost use Rattle.std.specs.Prelude.{◌≡◌};
ghost use Rattle.question.specs.Refusals.{number_of, place_of};

use code::UnknownSetting;

// Why a call, or the planning desk, refuses: each case is the "no" to one question, with the place where the answer names one.
#[derive(Clone, Copy, Debug, PartialEq, Eq)]
pub enum Refusal {
    // 1
    UnknownSetting,
    // 2
    FrameLength,
    // 3
    TooManyBlocks,
    // 4, and the place of the first byte that is not admitted
    NoSymbol(usize),
    // 5
    MessageRoom,
    // 6
    TransmissionRoom,
    // 7
    NoneFits,
    // 8
    MessageLength,
    // 9, and the place of the first wrong character
    WrongCharacter(usize),
    // 10
    LineLength,
    // 11
    LineTooLong,
    // 12
    NoWindow,
    // 13
    LengthsDiffer,
    // 14
    FrameCount,
    // 15
    UnevenFrames,
}

impl Refusal {
    // The number of its question.
    pub fn number(self) -> u32
        ensures { result ≡ number_of self }
    {
        match self {
            Refusal::UnknownSetting => 1,
            Refusal::FrameLength => 2,
            Refusal::TooManyBlocks => 3,
            Refusal::NoSymbol(_) => 4,
            Refusal::MessageRoom => 5,
            Refusal::TransmissionRoom => 6,
            Refusal::NoneFits => 7,
            Refusal::MessageLength => 8,
            Refusal::WrongCharacter(_) => 9,
            Refusal::LineLength => 10,
            Refusal::LineTooLong => 11,
            Refusal::NoWindow => 12,
            Refusal::LengthsDiffer => 13,
            Refusal::FrameCount => 14,
            Refusal::UnevenFrames => 15,
        }
    }

    // "The place is 0 unless named."
    pub fn place(self) -> u64
        ensures { result ≡ place_of self }
    {
        match self {
            Refusal::NoSymbol(place) => place as u64,
            Refusal::WrongCharacter(place) => place as u64,
            _ => 0,
        }
    }
}

// The "no" to question 1.
impl From<UnknownSetting> for Refusal {
    ghost use Rattle.question.specs.declared.refusal.Refusal.TheVariants.{UnknownSetting as NoSetting};

    ghost from_gives = { λ _ e. e ≡ NoSetting };

    fn from(_none: UnknownSetting) -> Self {
        Self::UnknownSetting
    }
}
