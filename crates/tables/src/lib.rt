// The generator of each setting as a nested table, and its rows laid out: made once in a library call and lent down.
#![tactic(auto)]

ghost use Rattle.std.specs.Prelude.{◌≡◌, ◌*◌, ◌≤◌, ◌<◌, length};
ghost use Rattle.area.specs.Lists.{part_at};
ghost use Rattle.field.specs.parts.Operations.{Is};
ghost use Rattle.field.specs.Symbols.{Symbols};
ghost use Rattle.field.specs.parts.Sequences.{at};
ghost use Rattle.code.specs.Generator.{times_g};
ghost use Rattle.code.specs.parts.SettingNumbers.{parameters_of};
ghost use Rattle.code.specs.Settings.{code_of, setting_of};
ghost use Rattle.code.specs.Windows.{window_length};
ghost use Rattle.tables.specs.parts.Rows.{generator_of, rows_length, Narrow, LaidOut, RowsOf, Ready};
ghost use Rattle.tables.specs.parts.RowsAdded.{RowsAdded};

pub mod combination;
mod multiples;

use code::{Setting, SettingNumber};
use field::Field;
use multiples::Multiple;

// The most symbols of any setting's rows, and of a block: what a call that makes these areas makes room for.
pub const LONGEST_ROWS: usize = 225;

pub const LONGEST_BLOCK: usize = 15;

// "The rows of a setting are kept power of z by power of z, row by row, as one nested table": m+1 groups of k rows of n symbols.
const GENERATOR_1: [[[u8; 4]; 1]; 3] = [[[2, 4, 3, 1]], [[2, 3, 2, 3]], [[2, 1, 3, 4]]];

const GENERATOR_2: [[[u8; 7]; 2]; 3] = [
    [[3, 1, 3, 2, 2, 1, 0], [0, 3, 1, 3, 2, 2, 1]],
    [[3, 4, 1, 1, 4, 3, 0], [0, 7, 6, 4, 4, 6, 7]],
    [[3, 6, 6, 5, 3, 5, 0], [0, 1, 2, 2, 3, 1, 3]],
];

const GENERATOR_3: [[[u8; 7]; 3]; 2] = [
    [
        [5, 7, 7, 4, 1, 0, 0],
        [0, 5, 7, 7, 4, 1, 0],
        [0, 0, 5, 7, 7, 4, 1],
    ],
    [
        [5, 2, 6, 6, 7, 0, 0],
        [0, 4, 6, 1, 1, 2, 0],
        [0, 0, 7, 1, 3, 3, 6],
    ],
];

const GENERATOR_4: [[[u8; 15]; 3]; 4] = [
    [
        [12, 4, 14, 5, 12, 12, 14, 7, 9, 6, 15, 11, 1, 0, 0],
        [0, 12, 4, 14, 5, 12, 12, 14, 7, 9, 6, 15, 11, 1, 0],
        [0, 0, 12, 4, 14, 5, 12, 12, 14, 7, 9, 6, 15, 11, 1],
    ],
    [
        [12, 6, 4, 4, 8, 12, 9, 2, 5, 4, 15, 7, 12, 0, 0],
        [0, 10, 5, 6, 6, 12, 10, 4, 3, 14, 6, 1, 13, 10, 0],
        [0, 0, 15, 14, 5, 5, 10, 15, 6, 11, 9, 5, 8, 2, 15],
    ],
    [
        [12, 5, 5, 14, 1, 12, 4, 11, 4, 9, 15, 13, 15, 0, 0],
        [0, 15, 9, 9, 4, 12, 15, 5, 13, 5, 6, 8, 3, 8, 0],
        [0, 0, 8, 6, 6, 5, 15, 8, 9, 3, 9, 14, 10, 7, 10],
    ],
    [
        [12, 14, 9, 6, 15, 12, 6, 13, 14, 14, 15, 2, 8, 0, 0],
        [0, 1, 6, 5, 9, 12, 1, 9, 11, 6, 6, 12, 7, 15, 0],
        [0, 0, 10, 9, 4, 5, 1, 10, 5, 2, 9, 9, 1, 3, 12],
    ],
];

const GENERATOR_5: [[[u8; 15]; 5]; 3] = [
    [
        [1, 11, 13, 10, 14, 10, 4, 12, 2, 2, 1, 0, 0, 0, 0],
        [0, 1, 11, 13, 10, 14, 10, 4, 12, 2, 2, 1, 0, 0, 0],
        [0, 0, 1, 11, 13, 10, 14, 10, 4, 12, 2, 2, 1, 0, 0],
        [0, 0, 0, 1, 11, 13, 10, 14, 10, 4, 12, 2, 2, 1, 0],
        [0, 0, 0, 0, 1, 11, 13, 10, 14, 10, 4, 12, 2, 2, 1],
    ],
    [
        [1, 15, 5, 10, 2, 3, 4, 14, 14, 2, 6, 0, 0, 0, 0],
        [0, 6, 4, 13, 9, 12, 10, 11, 2, 2, 12, 7, 0, 0, 0],
        [0, 0, 7, 11, 8, 3, 14, 9, 15, 12, 12, 14, 1, 0, 0],
        [0, 0, 0, 1, 15, 5, 10, 2, 3, 4, 14, 14, 2, 6, 0],
        [0, 0, 0, 0, 6, 4, 13, 9, 12, 10, 11, 2, 2, 12, 7],
    ],
    [
        [1, 4, 8, 10, 12, 9, 4, 2, 12, 2, 7, 0, 0, 0, 0],
        [0, 7, 15, 13, 3, 2, 10, 15, 14, 2, 14, 6, 0, 0, 0],
        [0, 0, 6, 11, 5, 9, 14, 3, 11, 12, 14, 12, 1, 0, 0],
        [0, 0, 0, 1, 4, 8, 10, 12, 9, 4, 2, 12, 2, 7, 0],
        [0, 0, 0, 0, 7, 15, 13, 3, 2, 10, 15, 14, 2, 14, 6],
    ],
];

// The nested tables, each its setting's by the rule.
pub fn generator_1() -> [[[u8; 4]; 1]; 3]
    ensures { result ≡ generator_of (setting_of 1) }
{
    GENERATOR_1
}

pub fn generator_2() -> [[[u8; 7]; 2]; 3]
    ensures { result ≡ generator_of (setting_of 2) }
{
    GENERATOR_2
}

pub fn generator_3() -> [[[u8; 7]; 3]; 2]
    ensures { result ≡ generator_of (setting_of 3) }
{
    GENERATOR_3
}

pub fn generator_4() -> [[[u8; 15]; 3]; 4]
    ensures { result ≡ generator_of (setting_of 4) }
{
    GENERATOR_4
}

pub fn generator_5() -> [[[u8; 15]; 5]; 3]
    ensures { result ≡ generator_of (setting_of 5) }
{
    GENERATOR_5
}

// The tables of a setting: its field, and the generator's rows one after the other. Made once in a library call and lent down.
#[derive(Drop)]
pub struct Tables {
    pub setting: Setting,
    pub field: Field,
    pub rows: [u8; LONGEST_ROWS],
    pub ghost same_field: { setting.q ≡ field.q },
    pub ghost ready: { Ready setting field.products rows },
    pub ghost narrow: { Narrow setting },
}

// Lays a generator out, at the front of the area: row 0 of G_0, .., G_m, then row 1 of them and so on. So what one information symbol is multiplied with stands
// together.
fn lay_generator<const N: usize, const K: usize, const POWERS: usize>(
    generator: &[[[u8; N]; K]; POWERS],
    area: &mut [u8],
)
    requires { (1 ≤ N) × (K * POWERS * N ≤ length area.old) }
    ensures long { length area.new ≡ length area.old }
    ensures laid { LaidOut N K POWERS generator.now area.new }
{
    for a in 0..K * POWERS {
        let start = a * N;
        let end = start + N;
        area[start..end].copy_from_slice(&generator[a % POWERS][a / POWERS]);
    }
}

// Lays a setting's rows out, at the front of the area: the one place that tells the settings' generators apart.
pub fn rows(number: SettingNumber, area: &mut [u8])
    requires { rows_length (parameters_of number) ≤ length area.old }
    ensures long { length area.new ≡ length area.old }
    ensures rows { RowsOf (parameters_of number) area.new }
{
    match number {
        SettingNumber::One => lay_generator(&GENERATOR_1, area),
        SettingNumber::Two => lay_generator(&GENERATOR_2, area),
        SettingNumber::Three => lay_generator(&GENERATOR_3, area),
        SettingNumber::Four => lay_generator(&GENERATOR_4, area),
        SettingNumber::Five => lay_generator(&GENERATOR_5, area),
    }
}

impl Tables {
    // The tables of the setting with a number.
    pub fn new(number: SettingNumber) -> Tables
        ensures { result.setting ≡ parameters_of number }
    {
        let setting = Setting::from(number);
        let mut laid = [0u8; LONGEST_ROWS];
        rows(number, &mut laid);
        Tables {
            setting,
            field: Field::new(setting.q),
            rows: laid,
        }
    }

    // Symbol i of (an information block) × G_j.
    pub fn times_g(&self, block: &[u8], j: usize, i: usize) -> u8
        requires { Symbols self.now.setting.q block.now × (length block.now ≡ self.now.setting.k) × (j ≤ self.now.setting.m) × (i < self.now.setting.n) }
        ensures { Is self.now.setting.q result (times_g (code_of self.now.setting) (at block.now) j i) }
    {
        let p = self.setting;
        let powers = p.m + 1;
        let mut sum: u8 = 0;
        for (r, &symbol) in block.iter().enumerate() {
            let row = (r * powers + j) * p.n;
            sum = self.field.add_product(sum, symbol, self.rows[row + i]);
        }
        sum
    }

    // v × row r of G_0, .., G_m, one after the other: what one information symbol contributes to a window.
    fn multiple(&self, r: usize, v: u8) -> Multiple<'_>
        requires { (r < self.now.setting.k) × (v < self.now.setting.q) }
        ensures row { result.row.now ≡ part_at (window_length self.now.setting) r self.now.rows }
        ensures long { length result.row.now ≡ window_length self.now.setting }
        ensures factor { result.v ≡ v }
        ensures field { result.field.now.q ≡ self.now.setting.q }
    {
        let length = code::window_length(self.setting);
        Multiple {
            field: &self.field,
            v,
            row: area::part(&self.rows, length, r),
        }
    }

    // Adds v × row r of G_0, .., G_m to the blocks of a window in which no symbol is unknown.
    pub fn add_rows(&self, r: usize, v: u8, window: &mut [u8])
        requires { (r < self.now.setting.k) × (v < self.now.setting.q) × (length window.old ≡ window_length self.now.setting) × Symbols self.now.setting.q window.old }
        ensures { RowsAdded self.now.setting r v window.old window.new }
    {
        self.multiple(r, v).add(window);
    }

    // The same of any window: its unknown symbols stay as they are. Few windows have one, and with this in their callers' code all others take longer
    // (docs/PERFORMANCE.md, "Unknown symbols").
    #[cold]
    #[inline(never)]
    pub fn add_rows_to_known(&self, r: usize, v: u8, window: &mut [u8])
        requires { (r < self.now.setting.k) × (v < self.now.setting.q) × (length window.old ≡ window_length self.now.setting) }
        ensures { RowsAdded self.now.setting r v window.old window.new }
    {
        self.multiple(r, v).add_to_known(window);
    }
}
