// Characters and digits, one by one and in runs.
ghost use Rattle.std.specs.Prelude.{◌≡◌, true, not, map, ◌≤◌, ◌<◌, All, length, position};
ghost use Rattle.std.specs.List.{AllPass, AllZip};
ghost use Rattle.field.specs.Symbols.{Symbols};
ghost use Rattle.line.specs.Characters.{digit_of, character_of, number_in};
ghost use Rattle.line.specs.Questions.{is_digit, is_digit_or_mark};

use question::UNKNOWN_MARK;

// What a character stands for: one of 0-9 and a-f for its value, `-` for an unknown symbol; any other has 16. By hand: std's `to_digit` takes A-F too.
#[tactic(auto, using(std::proofs::lemmas::Bool::Decides::nat_tests), unfolding(crate::specs::Characters::digit_of, crate::specs::Characters::character_of))]
pub fn value(character: u8) -> u8
    ensures { result ≡ digit_of character }
{
    match character {
        b'0'..=b'9' => character - b'0',
        b'a'..=b'f' => character - b'a' + 10,
        b'-' => UNKNOWN_MARK,
        _ => 16,
    }
}

// The character of a value.
#[tactic(auto, using(std::proofs::lemmas::Bool::Decides::nat_tests), unfolding(crate::specs::Characters::digit_of, crate::specs::Characters::character_of))]
pub fn character(digit: u8) -> u8
    requires { digit < 16 }
    ensures { result ≡ character_of digit }
{
    if digit < 10 {
        b'0' + digit
    } else {
        b'a' + (digit - 10)
    }
}

// The place of the first wrong character of a head, if there is one: of the first that is none of 0-9 and a-f.
pub fn first_wrong_in_head(head: &[u8]) -> Option<usize>
    ensures { result ≡ position (λ c. not (is_digit c)) head.now }
{
    head.iter()
        .position(|character| !question::is_symbol(16, value(*character)))
}

// Whether all characters of a frame are right: each is one of 0-9, a-f and `-`. No early exit: the compiler looks at many at once.
fn all_right_in_frame(frame: &[u8]) -> bool
    ensures { result ≡ true → AllPass is_digit_or_mark frame.now }
{
    frame.iter().fold(
        true,
        |right, character| right & question::is_received(16, value(*character)),
    )
}

// The place of the first wrong character of a frame, where `-` is right too.
pub fn first_wrong_in_frame(frame: &[u8]) -> Option<usize>
    ensures { result ≡ position (λ c. not (is_digit_or_mark c)) frame.now }
{
    if all_right_in_frame(frame) {
        return None;
    }
    frame
        .iter()
        .position(|character| !question::is_received(16, value(*character)))
}

// The number that at most four digits say; a character that is none counts with its value.
pub fn read_number(digits: &[u8]) -> usize
    requires { length digits.now ≤ 4 }
    ensures { result ≡ number_in digits.now }
{
    let mut number = 0;
    for character in digits {
        number = number * 16 + usize::from(value(*character));
    }
    number
}

// Writes what the closure gives for each byte, in an area of just their length.
fn write_each<F: Fn(u8) -> u8>(bytes: &[u8], area: &mut [u8], of: F)
    requires same { length bytes.now ≡ length area.old }
    requires given { All (F.pre of) bytes.now }
    ensures { AllZip (F.post of) bytes.now area.new }
{
    // The bytes by index: of `area.iter_mut().zip(bytes)` no invariant can name what was written.
    for (i, place) in area.iter_mut().enumerate() {
        *place = of(bytes[i]);
    }
}

// What characters stand for, in an area of just their length.
pub fn read_digits(characters: &[u8], area: &mut [u8])
    requires { length characters.now ≡ length area.old }
    ensures { area.new ≡ map digit_of characters.now }
{
    write_each(characters, area, value);
}

// The symbols of a message, one digit each.
pub fn write_symbols(symbols: &[u8], area: &mut [u8])
    requires { Symbols 16 symbols.now × (length symbols.now ≡ length area.old) }
    ensures { area.new ≡ map character_of symbols.now }
{
    write_each(symbols, area, character);
}
