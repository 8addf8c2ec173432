// The block step against plain enumeration: for received blocks of every level of settings 1 to 3, whether it answers with the information that costs less than
// d_l, and with none where none does. Every block of setting 1; of settings 2 and 3 every block whose number is a multiple of a stride. In the others
// hardly any block that could be gone through has a code block near it that is not zero.
// Writes for each setting and level: how many blocks, how many of them near, in how many the two agree and the marks are right. Then repairs the blocks of
// the stored input, which are of all settings (`stored`).
#![tactic(auto)]

mod stored;

ghost use Rattle.std.specs.Prelude.{◌≡◌, ◌+◌, ◌^◌, ◌≤◌, ◌<◌, length};
ghost use Rattle.field.specs.Symbols.{Symbols};
ghost use Rattle.code.specs.parts.SettingNumbers.{parameters_of};
ghost use Rattle.tables.specs.parts.Rows.{longest_block};

use code::SettingNumber;
use std::io::{Error, Stdout, Write};
use std::ops::AddAssign;
use tables::combination::Combination;
use tables::{LONGEST_BLOCK, Tables};

// Standard output, where what can't be written is passed over: all blocks are gone through, whatever becomes of what is written of them.
#[derive(Clone, Copy)]
struct Output {
    to: Stdout,
}

impl Output {
    fn new(rt: &HostRuntime) -> Output {
        Output { to: rt.stdout() }
    }
}

impl Write for Output {
    fn write(&mut self, bytes: &[u8]) -> Result<usize, Error> {
        let _ = self.to.write_all(bytes);
        Ok(bytes.len())
    }

    fn flush(&mut self) -> Result<(), Error> {
        Ok(())
    }
}

// How many blocks were gone through, how many of them have information near, and on how many the block step and enumeration agree, with the right marks.
#[derive(Clone, Copy, Default)]
struct Tally {
    blocks: usize,
    near: usize,
    agree: usize,
}

// Those of two tallies together.
impl AddAssign for Tally {
    ghost can_add_assign = { λ all more. (all.blocks + more.blocks < 2 ^ 64) × (all.near + more.near < 2 ^ 64) × (all.agree + more.agree < 2 ^ 64) };

    ghost add_assign_gives = { λ all more sum. (sum.blocks ≡ all.blocks + more.blocks) × (sum.near ≡ all.near + more.near) × (sum.agree ≡ all.agree + more.agree) };

    fn add_assign(&mut self, more: Tally) {
        self.blocks += more.blocks;
        self.near += more.near;
        self.agree += more.agree;
    }
}

// One level of a setting: its limit d_l, and how many information words it has.
#[derive(Clone, Copy)]
struct Level<'a> {
    tables: &'a Tables,
    l: usize,
    distance: usize,
    words: usize,
    ghost of_setting: { l ≤ tables.now.setting.m },
}

// A received block, to be taken for one of a level.
#[derive(Clone, Copy)]
struct Received<'a> {
    level: Level<'a>,
    block: &'a [u8],
    ghost long: { length block.now ≡ level.tables.now.setting.n },
}

impl Received<'_> {
    // Whether the information costs less than d_l. Counted anew, and not by `block::marks`: that is part of what is tested.
    fn is_near(&self, information: &[u8]) -> bool
        requires { Symbols self.now.level.tables.now.setting.q information.now × (self.now.level.tables.now.setting.n ≤ length information.now) }
    {
        let combination = Combination {
            tables: self.level.tables,
            information,
            l: self.level.l,
        };
        let mut cost: usize = 0;
        for (i, &symbol) in self.block.iter().enumerate() {
            if symbol != combination.symbol(i) {
                cost += 2;
            }
            if self.level.distance <= cost {
                return false;
            }
        }
        true
    }

    // The first information word that is near, by its number.
    fn search(&self) -> Option<usize> {
        (0..self.level.words).find(|word| self.is_near(&self.level.digits(*word)))
    }

    // The information with which the block step answers, by its number.
    fn repaired(&self, marks: &mut [u8]) -> Option<usize>
        requires { length marks.old ≡ self.now.level.tables.now.setting.n }
    {
        let information = block::repair(self.level.tables, self.block, self.level.l, marks)?;
        let symbols = (self.level.l + 1) * self.level.tables.setting.k;
        Some(self.level.number_of(&information[..symbols]))
    }

    // Whether just the symbols are marked that differ from what an information word combines to; and none where there is no word.
    fn is_marked(&self, word: Option<usize>, marks: &[u8]) -> bool
        requires { length marks.now ≡ self.now.level.tables.now.setting.n }
    {
        let Some(word) = word else {
            return marks.iter().all(|mark| *mark == 0);
        };
        let information = self.level.digits(word);
        let combination = Combination {
            tables: self.level.tables,
            information: &information,
            l: self.level.l,
        };
        for (i, &mark) in marks.iter().enumerate() {
            if mark != u8::from(self.block[i] != combination.symbol(i)) {
                return false;
            }
        }
        true
    }

    // Whether the block step and enumeration agree on the block, with the right marks, and whether on information.
    fn tally(&self) -> Tally
        ensures { (result.blocks ≡ 1) × (result.near ≤ 1) × (result.agree ≤ 1) }
    {
        // Ones, so that marks that are not cleared show.
        let mut room = [1u8; LONGEST_BLOCK];
        let marks = &mut room[..self.level.tables.setting.n];
        let found = self.repaired(marks);
        let agree = found == self.search() && self.is_marked(found, marks);
        Tally {
            blocks: 1,
            near: usize::from(agree && found.is_some()),
            agree: usize::from(agree),
        }
    }
}

impl Level<'_> {
    // A number's digits to the base q, the lowest first: its i-th block, or its i-th information.
    fn digits(&self, number: usize) -> [u8; LONGEST_BLOCK]
        ensures { (length result ≡ longest_block) × Symbols self.now.tables.now.setting.q result }
    {
        let q = self.tables.setting.q;
        let mut symbols = [0u8; LONGEST_BLOCK];
        let mut rest = number;
        for symbol in &mut symbols {
            *symbol = (rest % q) as u8;
            rest /= q;
        }
        symbols
    }

    // The number whose digits these are. Those of an information word are so few that it does not wrap.
    fn number_of(&self, digits: &[u8]) -> usize {
        let q = self.tables.setting.q;
        digits.iter().rev().fold(0, |number: usize, digit| {
            number.wrapping_mul(q).wrapping_add(usize::from(*digit))
        })
    }

    // The block step and enumeration compared on every block below `end` whose number is a multiple of the stride.
    fn tally(&self, stride: usize, end: usize) -> Tally
        requires { 0 < stride }
    {
        let mut all = Tally::default();
        for number in (0..end).step_by(stride) {
            let symbols = self.digits(number);
            let received = Received {
                level: *self,
                block: &symbols[..self.tables.setting.n],
            };
            all += received.tally();
        }
        all
    }
}

// Writes the tally of one level of a setting: of its q^((l+1)k) information words, and of the blocks below `end`, q^n if all are taken, whose number is a multiple of
// the stride.
fn write_tally(
    rt: &HostRuntime,
    number: SettingNumber,
    l: usize,
    distance: usize,
    words: usize,
    stride: usize,
    end: usize,
)
    requires { (l ≤ (parameters_of number).m) × (0 < stride) }
{
    let tables = Tables::new(number);
    let level = Level {
        tables: &tables,
        l,
        distance,
        words,
    };
    let all = level.tally(stride, end);
    let _ = writeln!(
        Output::new(rt),
        "{} {l} {} {} {}",
        u64::from(number),
        all.blocks,
        all.near,
        all.agree
    );
}

fn main(rt: HostRuntime) {
    write_tally(&rt, SettingNumber::One, 0, 4, 5, 1, 625);
    write_tally(&rt, SettingNumber::One, 1, 3, 25, 1, 625);
    write_tally(&rt, SettingNumber::One, 2, 2, 125, 1, 625);
    write_tally(&rt, SettingNumber::Two, 0, 6, 64, 523, 2097152);
    write_tally(&rt, SettingNumber::Two, 1, 4, 4096, 523, 2097152);
    write_tally(&rt, SettingNumber::Two, 2, 2, 262144, 16001, 2097152);
    write_tally(&rt, SettingNumber::Three, 0, 5, 512, 523, 2097152);
    write_tally(&rt, SettingNumber::Three, 1, 2, 262144, 16001, 2097152);
    stored::repair_all(&rt);
}
