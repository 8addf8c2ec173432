// The code of document 01 in specs/, and what is true of it in proofs/; the settings at run time.
#![tactic(auto)]

ghost use Rattle.std.specs.Prelude.{◌≡◌, ◌+◌, ◌*◌, ◌≤◌, length, get_or};
ghost use Rattle.code.specs.Code.{level_distance, distances_to};
ghost use Rattle.code.specs.Settings.{setting};
ghost use Rattle.code.specs.Windows.{window_length, unknown_symbols};
ghost use Rattle.code.specs.parts.Cost.{symbol_cost};
ghost use Rattle.code.specs.parts.Residual.{window_at};
ghost use Rattle.code.specs.parts.SettingNumbers.{number_of, parameters_of, Chosen};
ghost use Rattle.code.specs.parts.Sound.{Sound};

// The number of a setting: "Question 1 admits 1 to 5" (02, #101).
#[derive(Clone, Copy, Debug, PartialEq, Eq)]
pub enum SettingNumber {
    One = 1,
    Two,
    Three,
    Four,
    Five,
}

// A number that is no setting's.
#[derive(Clone, Copy, Debug, PartialEq, Eq)]
pub struct UnknownSetting;

// Question 1.
impl TryFrom<u64> for SettingNumber {
    type Error = UnknownSetting;

    ghost try_from_gives = { Chosen };

    fn try_from(number: u64) -> Result<SettingNumber, UnknownSetting> {
        match number {
            1 => Ok(SettingNumber::One),
            2 => Ok(SettingNumber::Two),
            3 => Ok(SettingNumber::Three),
            4 => Ok(SettingNumber::Four),
            5 => Ok(SettingNumber::Five),
            _ => Err(UnknownSetting),
        }
    }
}

// The number that stands for it.
impl From<SettingNumber> for u64 {
    ghost from_gives = { λ setting number. number ≡ number_of setting };

    fn from(setting: SettingNumber) -> u64 {
        setting as u64
    }
}

// A setting (the code's parameters): q elements, blocks of n = q - 1 symbols, information blocks of k, memory m.
#[derive(Clone, Copy)]
pub struct Setting {
    pub q: usize,
    pub n: usize,
    pub k: usize,
    pub m: usize,
}

// The setting with q elements, information blocks of k and memory m.
fn parameters(q: usize, k: usize, m: usize) -> Setting
    requires { 1 ≤ q }
    ensures { result ≡ setting q k m }
{
    Setting { q, n: q - 1, k, m }
}

// The setting with a number.
impl From<SettingNumber> for Setting {
    ghost from_gives = { λ number p. p ≡ parameters_of number };

    fn from(number: SettingNumber) -> Setting {
        match number {
            SettingNumber::One => parameters(5, 1, 2),
            SettingNumber::Two => parameters(8, 2, 2),
            SettingNumber::Three => parameters(8, 3, 1),
            SettingNumber::Four => parameters(16, 3, 3),
            SettingNumber::Five => parameters(16, 5, 2),
        }
    }
}

// d_l = n - (l+1)k + 1, the distance of the level-l code.
pub fn level_distance(p: Setting, l: usize) -> usize
    requires { Sound p × (l ≤ p.m) }
    ensures { result ≡ level_distance p.n p.k l }
{
    p.n - (l + 1) * p.k + 1
}

// d_0 + .. + d_l
pub fn distances_to(p: Setting, l: usize) -> usize
    requires { Sound p × (l ≤ p.m) }
    ensures { result ≡ distances_to p.n p.k l }
{
    (0..l + 1).map(|i| level_distance(p, i)).sum()
}

// How many symbols a window has: m+1 blocks of n.
pub fn window_length(p: Setting) -> usize
    requires { Sound p }
    ensures { result ≡ window_length p }
{
    (p.m + 1) * p.n
}

// Window j of a frame: the m+1 blocks from block j on.
pub fn window_of_frame(p: Setting, frame: &[u8], j: usize) -> &[u8]
    requires { Sound p × (j * p.n + window_length p ≤ length frame.now) }
    ensures window { result.now ≡ window_at p frame.now j }
    ensures long { length result.now ≡ window_length p }
{
    let start = j * p.n;
    let end = start + window_length(p);
    &frame[start..end]
}

// How many received symbols are unknown. Where every byte is a symbol, none is.
pub fn unknown_symbols(q: usize, symbols: &[u8]) -> usize
    ensures { result ≡ unknown_symbols q (length symbols.now) (λ i. get_or symbols.now i 0) }
{
    match u8::try_from(q) {
        Ok(least) => area::count_from(least, symbols),
        Err(_) => 0,
    }
}

// What receiving a byte costs where a symbol of the field with q elements was sent: 1 where it is unknown, else 2 where they differ.
pub fn symbol_cost(q: usize, received: u8, sent: u8) -> usize
    ensures cost { result ≡ symbol_cost q received sent }
    ensures most { result ≤ 2 }
{
    if q <= usize::from(received) {
        1
    } else if received == sent {
        0
    } else {
        2
    }
}
