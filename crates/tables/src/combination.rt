// The combinations that code blocks are.
ghost use Rattle.std.specs.Prelude.{◌+◌, ◌*◌, ◌≤◌, ◌<◌, length};
ghost use Rattle.area.specs.Lists.{view};
ghost use Rattle.field.specs.parts.Operations.{Is};
ghost use Rattle.field.specs.Symbols.{Symbols};
ghost use Rattle.code.specs.Level as level;
ghost use Rattle.code.specs.Settings.{code_of};

use super::Tables;

// The level-l combination of the first l + 1 information blocks of these, which stand one after the other.
#[derive(Clone, Copy)]
pub struct Combination<'a> {
    pub tables: &'a Tables,
    pub information: &'a [u8],
    pub l: usize,
    pub ghost symbols: { Symbols tables.now.setting.q information.now },
    pub ghost blocks: { (l + 1) * tables.now.setting.k ≤ length information.now },
    pub ghost level: { l ≤ tables.now.setting.m },
}

impl Combination<'_> {
    // Symbol i of it.
    pub fn symbol(&self, i: usize) -> u8
        requires { i < self.now.tables.now.setting.n }
        ensures { Is self.now.tables.now.setting.q result (level.combination (code_of self.now.tables.now.setting) self.now.l (view self.now.tables.now.setting.k self.now.information.now) i) }
    {
        let k = self.tables.setting.k;
        let mut sum: u8 = 0;
        for j in 0..self.l + 1 {
            let block = area::part(self.information, k, self.l - j);
            let part = self.tables.times_g(block, j, i);
            sum = self.tables.field.add(sum, part);
        }
        sum
    }
}
