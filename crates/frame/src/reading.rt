// Reading a frame: the windows in turn, then the last comparison.
ghost use Rattle.std.specs.Prelude.{◌≡◌, ◌*◌, ◌<◌, is_some, length};
ghost use Rattle.field.specs.Symbols.{Symbols};
ghost use Rattle.code.specs.Code.{distances_to};
ghost use Rattle.code.specs.parts.Residual.{frame_length, window_at};
ghost use Rattle.frame.specs.parts.Frame.{FrameAreas, Settled, Advanced, Turned, Compared, FrameRead};

use super::Frame;
use super::window::Window;

impl Frame<'_> {
    // Window j of the residual.
    fn window<'a>(&self, j: usize, residual: &'a [u8]) -> &'a [u8]
        requires { (j < self.now.blocks) × (length residual.now ≡ frame_length self.now.tables.now.setting self.now.blocks) }
        ensures { result.now ≡ window_at self.now.tables.now.setting residual.now j }
    {
        code::window_of_frame(self.tables.setting, residual, j)
    }

    // Makes block j certain by the residual of its window: where that is light, the guess is right; else the levels find what to add, or none serves.
    // How many blocks at the front of the next window need no new guess then: all but its last where this one is light, else those found after block j; none where
    // no message fits.
    fn settle(
        &self,
        bound: usize,
        j: usize,
        message: &mut [u8],
        residual: &mut [u8],
    ) -> Option<usize>
        requires { (bound ≡ distances_to self.now.tables.now.setting.n self.now.tables.now.setting.k self.now.tables.now.setting.m) × (j < self.now.blocks) × FrameAreas self.now.tables.now.setting self.now.blocks self.now.unknown message.old residual.old }
        ensures { Turned self.now.tables.now.setting self.now.blocks self.now.unknown j message.old residual.old message.new residual.new (is_some result) }
    {
        let window = Window {
            tables: self.tables,
            symbols: self.window(j, residual),
        };
        if super::window::is_light(self.tables.setting.q, window.symbols, bound) {
            return Some(self.tables.setting.m);
        }
        let found = window.find_level()?;
        self.add_found(j, &found, message, residual);
        Some(found.blocks - 1)
    }

    // The windows in turn, of a reception that is its own residual for the zero message: blocks of window j are guessed, and then block j is made certain. The next
    // window begins one block later; of its blocks only those after the settled ones are guessed, since only they can have changed or are new. None where one
    // has no near information: then no message fits.
    fn read_windows(&self, message: &mut [u8], residual: &mut [u8]) -> Option<()>
        requires { Settled self.now.tables.now.setting self.now.blocks self.now.unknown residual.old 0 message.old residual.old }
        ensures { Advanced self.now.tables.now.setting self.now.blocks self.now.unknown residual.old self.now.blocks message.new residual.new (is_some result) }
    {
        let bound = code::distances_to(self.tables.setting, self.tables.setting.m);
        let mut first: usize = 0;
        for j in 0..self.blocks {
            self.guess_window(j, first, message, residual);
            first = self.settle(bound, j, message, residual)?;
        }
        Some(())
    }

    // The last comparison: every window of the residual costs less than the bound against zeros.
    fn compare_windows(&self, residual: &[u8]) -> bool
        requires { length residual.now ≡ frame_length self.now.tables.now.setting self.now.blocks }
        ensures { Compared self.now.tables.now.setting self.now.blocks residual.now result }
    {
        let p = self.tables.setting;
        let bound = code::distances_to(p, p.m);
        (0..self.blocks).all(|j| super::window::is_light(p.q, self.window(j, residual), bound))
    }

    // The message that fits the reception that stands in the residual's place, and its residual, in the areas that the caller lent; or none, if no message fits.
    pub fn read(&self, message: &mut [u8], residual: &mut [u8]) -> Option<()>
        requires { (length message.old ≡ self.now.blocks * self.now.tables.now.setting.k) × (length residual.old ≡ frame_length self.now.tables.now.setting self.now.blocks) × (self.now.unknown ≡ 0 → Symbols self.now.tables.now.setting.q residual.old) }
        ensures { FrameRead self.now.tables.now.setting self.now.blocks residual.old message.new residual.new (is_some result) }
    {
        message.fill(0);
        self.read_windows(message, residual)?;
        self.compare_windows(residual).then_some(())
    }
}
