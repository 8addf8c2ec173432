// The shapes of frames, and the rooms that are lent for them.
ghost use Rattle.std.specs.Prelude.{◌≡◌, ◌*◌, ◌/◌, ◌≤◌};
ghost use Rattle.code.specs.parts.SettingNumbers.{parameters_of};
ghost use Rattle.code.specs.parts.Residual.{frame_length};
ghost use Rattle.question.specs.Questions.{most_blocks, most_frames};

use code::{Setting, SettingNumber};

// "The library's limit for T becomes 4,096" (02, #107).
pub const MOST_BLOCKS: usize = 4096;

// "14 when D isn't 2 to 8"
pub const MOST_FRAMES: usize = 8;

// The shape of a frame: its setting, and its length T.
#[derive(Clone, Copy)]
pub struct Shape {
    pub setting: SettingNumber,
    pub blocks: usize,
    pub ghost some: { 1 ≤ blocks },
    pub ghost few: { blocks ≤ most_blocks },
}

impl Shape {
    // Its setting's parameters.
    pub fn parameters(self) -> Setting
        ensures { result ≡ parameters_of self.setting }
    {
        Setting::from(self.setting)
    }

    // T × k, the length of its message.
    pub fn message_length(self) -> usize
        ensures { result ≡ self.blocks * (parameters_of self.setting).k }
    {
        self.blocks * self.parameters().k
    }

    // (T+m) × n, the length of its transmission.
    pub fn transmission_length(self) -> usize
        ensures { result ≡ frame_length (parameters_of self.setting) self.blocks }
    {
        let p = self.parameters();
        (self.blocks + p.m) * p.n
    }
}

// Room for messages and for their transmissions, in symbols.
#[derive(Clone, Copy)]
pub struct Rooms {
    pub message: usize,
    pub transmission: usize,
}

// The shape of woven frames: that of each, and how many.
#[derive(Clone, Copy)]
pub struct WovenShape {
    pub frame: Shape,
    pub frames: usize,
    pub ghost several: { 2 ≤ frames },
    pub ghost few: { frames ≤ most_frames },
}

impl WovenShape {
    // One frame's share of the rooms for all of them.
    pub fn share(self, rooms: Rooms) -> Rooms
        ensures { (result.message ≡ rooms.message / self.frames) × (result.transmission ≡ rooms.transmission / self.frames) }
    {
        Rooms {
            message: rooms.message / self.frames,
            transmission: rooms.transmission / self.frames,
        }
    }
}
