// One window: the information near it, found by the levels of the code.
ghost use Rattle.std.specs.Prelude.{◌≡◌, ℕ, ◌*◌, ◌≤◌, ◌<◌, ltb, min, length};
ghost use Rattle.area.specs.Lists.{view};
ghost use Rattle.field.specs.parts.Sequences.{AllBelow, at};
ghost use Rattle.code.specs.Windows.{window_length};
ghost use Rattle.code.specs.parts.Cost.{level_cost, zero_cost};
ghost use Rattle.frame.specs.parts.Window.{cost_before, LevelTried, LevelSearch};

use block::Information;
use tables::combination::Combination;
use tables::{LONGEST_BLOCK, Tables};

// A window: its symbols, with the tables of its setting.
#[derive(Clone, Copy)]
pub struct Window<'a> {
    pub tables: &'a Tables,
    pub symbols: &'a [u8],
    pub ghost long: { length symbols.now ≡ window_length tables.now.setting },
}

// The information near a window: so many blocks from its front.
#[derive(Clone, Copy)]
pub struct Found {
    pub information: Information,
    pub blocks: usize,
}

// Whether the symbols cost less than the bound against zeros. Where they would even if every unknown one were a known one that differs, none is looked for.
pub fn is_light(q: usize, symbols: &[u8], bound: usize) -> bool
    requires { 1 ≤ q }
    ensures { result ≡ ltb (zero_cost q symbols.now) bound }
{
    let most = 2 * area::weight(symbols);
    if most < bound {
        return true;
    }
    most - code::unknown_symbols(q, symbols) < bound
}

// What a received block costs against a rebuilt one, counted up to the bound: a cost that reaches it may be larger.
fn cost_against(rebuilt: &Combination, block: &[u8], bound: usize) -> usize
    requires { length block.now ≡ rebuilt.now.tables.now.setting.n }
    ensures { min bound result ≡ min bound (level_cost rebuilt.now.tables.now.setting (at block.now) rebuilt.now.l (view rebuilt.now.tables.now.setting.k rebuilt.now.information.now)) }
{
    let q = rebuilt.tables.setting.q;
    let mut cost: usize = 0;
    for (i, &received) in block.iter().enumerate() {
        if bound <= cost {
            return cost;
        }
        cost += code::symbol_cost(q, received, rebuilt.symbol(i));
    }
    cost
}

impl Window<'_> {
    // Whether the blocks before block l of the window cost less than the bound against the blocks rebuilt from the information. Most wrong information shows in the
    // first one.
    fn is_near_before(&self, information: &[u8], l: usize, bound: usize) -> bool
        requires { AllBelow self.now.tables.now.setting.q information.now × (l * self.now.tables.now.setting.k ≤ length information.now) × (l ≤ self.now.tables.now.setting.m) × (0 < bound) }
        ensures { result ≡ ltb (cost_before self.now.tables.now.setting self.now.symbols.now l (view self.now.tables.now.setting.k information.now)) bound }
    {
        let n = self.tables.setting.n;
        // What the blocks so far leave of the bound.
        let mut left = bound;
        for s in 0..l {
            let block = area::part(self.symbols, n, s);
            let rebuilt = Combination {
                tables: self.tables,
                information,
                l: s,
            };
            let cost = cost_against(&rebuilt, block, left);
            if left <= cost {
                return false;
            }
            left -= cost;
        }
        true
    }

    // One level: the information of the code block near block l of the window, if it rebuilds blocks 0 .. l near enough. What block l costs is counted from the marks
    // of its repair, and its unknown symbols.
    fn try_level(&self, l: usize) -> Option<Information>
        requires { l ≤ self.now.tables.now.setting.m }
        ensures { LevelTried self.now.tables.now.setting self.now.symbols.now l result }
    {
        let p = self.tables.setting;
        let block = area::part(self.symbols, p.n, l);
        let mut room = [0u8; LONGEST_BLOCK];
        let marks = &mut room[..p.n];
        let information = block::repair(self.tables, block, l, marks)?;
        let bound = code::distances_to(p, l);
        let cost = block::marked_cost(marks) + block::unknown::count(p.q, block);
        let left = bound - cost;
        self.is_near_before(&information, l, left)
            .then_some(information)
    }

    // The information near the window by the levels from m down to 0, until one serves; or none, if none is near. A loop: as a `find_map` it needs a proof of
    // twice the length, over std's own steps.
    pub fn find_level(&self) -> Option<Found>
        ensures { LevelSearch self.now.tables.now.setting self.now.symbols.now result }
    {
        for l in (0..self.tables.setting.m + 1).rev() {
            if let Some(information) = self.try_level(l) {
                return Some(Found {
                    information,
                    blocks: l + 1,
                });
            }
        }
        None
    }
}
