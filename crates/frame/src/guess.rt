// The guessed message. What is added to it is taken out of the residual, so that this stays the reception less the guess's transmission.
// The two areas stay two parameters: a struct of two `&mut` would need two clauses more in each contract, that its references stay the same.
ghost use Rattle.std.specs.Prelude.{◌≡◌, ◌+◌, ◌*◌, ◌≤◌, ◌<◌, true, length, get_or};
ghost use Rattle.field.specs.Symbols.{Symbols};
ghost use Rattle.code.specs.Windows.{window_length};
ghost use Rattle.code.specs.parts.Residual.{frame_length};
ghost use Rattle.tables.specs.parts.RowsAdded.{RowsAdded};
ghost use Rattle.frame.specs.parts.Frame.{FrameAreas, Revised, Adjusted, Added};

use super::Frame;
use super::window::Found;
use code::Setting;
use tables::Tables;

// The end of a block whose symbols a guess goes by.
#[derive(Clone, Copy)]
enum End {
    First,
    Last,
}

impl End {
    // Where the k symbols at this end begin in a block.
    fn start(self, p: Setting) -> usize
        requires { p.k ≤ p.n }
        ensures { result + p.k ≤ p.n }
    {
        match self {
            End::First => 0,
            End::Last => p.n - p.k,
        }
    }

    // Which of them comes in this turn: upwards from the first, or downwards from the last.
    fn symbol_in_turn(self, k: usize, turn: usize) -> usize
        requires { turn < k }
        ensures { result < k }
    {
        match self {
            End::First => turn,
            End::Last => k - 1 - turn,
        }
    }

    // What such a symbol is multiplied with to guess the message's: row r of G_0 is zero before place r and has the rows' first symbol there, and it is zero after
    // place n - k + r and has the symbol 1 there.
    fn scale(self, tables: &Tables) -> u8
        ensures { result < tables.now.setting.q }
    {
        match self {
            End::First => tables.field.inverse(tables.rows[0]),
            End::Last => 1,
        }
    }
}

impl Frame<'_> {
    // Adds v × row r of G_0, .., G_m to the known symbols of a window of the residual.
    fn add_rows(&self, r: usize, v: u8, window: &mut [u8])
        requires { (r < self.now.tables.now.setting.k) × (v < self.now.tables.now.setting.q) × (length window.old ≡ window_length self.now.tables.now.setting) × (self.now.unknown ≡ 0 → Symbols self.now.tables.now.setting.q window.old) }
        ensures { RowsAdded self.now.tables.now.setting r v window.old window.new }
    {
        if self.unknown == 0 {
            self.tables.add_rows(r, v, window);
        } else {
            self.tables.add_rows_to_known(r, v, window);
        }
    }

    // Adds v to symbol r of block i of the message, and takes what it sends out of the known symbols of the residual.
    fn adjust(&self, i: usize, r: usize, v: u8, message: &mut [u8], residual: &mut [u8])
        requires { (i < self.now.blocks) × (r < self.now.tables.now.setting.k) × (v < self.now.tables.now.setting.q) × FrameAreas self.now.tables.now.setting self.now.blocks self.now.unknown message.old residual.old }
        ensures { Adjusted self.now.tables.now.setting self.now.blocks self.now.unknown i r v message.old residual.old message.new residual.new }
    {
        let p = self.tables.setting;
        let place = i * p.k + r;
        let start = i * p.n;
        let end = start + code::window_length(p);
        let sum = self.tables.field.add(message[place], v);
        message[place] = sum;
        let less = self.tables.field.negate(v);
        self.add_rows(r, less, &mut residual[start..end]);
    }

    // Adds an information block to block i of the message, if it has such a block.
    fn add_block(&self, i: usize, block: &[u8], message: &mut [u8], residual: &mut [u8])
        requires { Symbols self.now.tables.now.setting.q block.now × (length block.now ≡ self.now.tables.now.setting.k) × FrameAreas self.now.tables.now.setting self.now.blocks self.now.unknown message.old residual.old }
        ensures { Added self.now.tables.now.setting self.now.blocks self.now.unknown i (λ r. get_or block.now r 0) message.old residual.old message.new residual.new }
    {
        if self.blocks <= i {
            return;
        }
        for (r, &v) in block.iter().enumerate() {
            if v == 0 {
                continue;
            }
            self.adjust(i, r, v, message, residual);
        }
    }

    // Adds the information found at window j: its first block is certain, the others are guesses that later windows check.
    pub fn add_found(&self, j: usize, found: &Found, message: &mut [u8], residual: &mut [u8])
        requires { Symbols self.now.tables.now.setting.q found.now.information × (found.now.blocks ≤ self.now.tables.now.setting.m + 1) × (j < self.now.blocks) × FrameAreas self.now.tables.now.setting self.now.blocks self.now.unknown message.old residual.old }
        ensures { Added self.now.tables.now.setting self.now.blocks self.now.unknown j (λ r. get_or found.now.information r 0) message.old residual.old message.new residual.new }
    {
        let k = self.tables.setting.k;
        self.add_block(j, &found.information[..k], message, residual);
        for a in 1..found.blocks {
            let block = area::part(&found.information, k, a);
            self.add_block(j + a, block, message, residual);
        }
    }

    // Guesses block i of the message from the k symbols at an end of the residual of its block, unknown ones as zeros: any guess will do. It is right where they
    // were neither altered nor lost. Copied into its caller, as are `guess_block` and `guess_rest`: of functions of their own the compiler has to expect that what
    // they write changes the tables, and decoding takes up to twice the instructions (docs/PERFORMANCE.md, "Light windows").
    #[inline(always)]
    fn guess_from(&self, end: End, i: usize, message: &mut [u8], residual: &mut [u8])
        requires { (i < self.now.blocks) × FrameAreas self.now.tables.now.setting self.now.blocks self.now.unknown message.old residual.old }
        ensures { Revised self.now.tables.now.setting self.now.blocks self.now.unknown i message.old residual.old message.new residual.new }
    {
        let p = self.tables.setting;
        let scale = end.scale(self.tables);
        let start = i * p.n + end.start(p);
        for turn in 0..p.k {
            let r = end.symbol_in_turn(p.k, turn);
            let symbol = self.tables.field.known_symbol(residual[start + r]);
            let v = self.tables.field.multiply(scale, symbol);
            self.adjust(i, r, v, message, residual);
        }
    }

    // Whether the guess of block i may stay, by its residual: it costs at most d_0 against zeros, or less than that in a frame with unknown symbols. Any answer will do.
    fn may_stay(&self, i: usize, residual: &[u8]) -> bool
        requires { i * self.now.tables.now.setting.n + self.now.tables.now.setting.n ≤ length residual.now }
    {
        let p = self.tables.setting;
        let block = area::part(residual, p.n, i);
        let distance = code::level_distance(p, 0);
        if self.unknown == 0 {
            return area::weight(block) <= distance / 2;
        }
        super::window::is_light(p.q, block, distance)
    }

    // Whether block i of the message has to be guessed again: it has such a block, and its residual is too heavy.
    fn is_heavy(&self, i: usize, residual: &[u8]) -> bool
        requires { length residual.now ≡ frame_length self.now.tables.now.setting self.now.blocks }
        ensures { result ≡ true → i < self.now.blocks }
    {
        i < self.blocks && !self.may_stay(i, residual)
    }

    // Guesses block i of the message again: from the first symbols, or else from the last ones.
    #[inline(always)]
    fn guess_block(&self, i: usize, message: &mut [u8], residual: &mut [u8])
        requires { (i < self.now.blocks) × FrameAreas self.now.tables.now.setting self.now.blocks self.now.unknown message.old residual.old }
        ensures { Revised self.now.tables.now.setting self.now.blocks self.now.unknown i message.old residual.old message.new residual.new }
    {
        self.guess_from(End::First, i, message, residual);
        if self.may_stay(i, residual) {
            return;
        }
        self.guess_from(End::Last, i, message, residual);
    }

    // Guesses block j + s of a window, and those after it that are too heavy.
    #[inline(always)]
    fn guess_rest(&self, j: usize, s: usize, message: &mut [u8], residual: &mut [u8])
        requires { (j < self.now.blocks) × (s ≤ self.now.tables.now.setting.m) × (j + s < self.now.blocks) × FrameAreas self.now.tables.now.setting self.now.blocks self.now.unknown message.old residual.old }
        ensures { Revised self.now.tables.now.setting self.now.blocks self.now.unknown j message.old residual.old message.new residual.new }
    {
        for a in s..self.tables.setting.m + 1 {
            if a == s || self.is_heavy(j + a, residual) {
                self.guess_block(j + a, message, residual);
            }
        }
    }

    // Guesses those of blocks j + first .. j + m that are too heavy. Which blocks are guessed is free: nothing rests on a guess. The first of them is looked for by
    // itself, since what a guess prepares would else be done for every window, also where none is guessed (docs/PERFORMANCE.md, "Light windows").
    pub fn guess_window(&self, j: usize, first: usize, message: &mut [u8], residual: &mut [u8])
        requires { (j < self.now.blocks) × FrameAreas self.now.tables.now.setting self.now.blocks self.now.unknown message.old residual.old }
        ensures { Revised self.now.tables.now.setting self.now.blocks self.now.unknown j message.old residual.old message.new residual.new }
    {
        for s in first..self.tables.setting.m + 1 {
            if self.is_heavy(j + s, residual) {
                self.guess_rest(j, s, message, residual);
                return;
            }
        }
    }
}
