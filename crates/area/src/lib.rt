// Areas of bytes, whatever they mean: their parts, and their bytes that are not zero, or not below another, counted.
#![tactic(auto)]

ghost use Rattle.std.specs.Prelude.{◌≡◌, ◌+◌, ◌*◌, ◌≤◌, length};
ghost use Rattle.area.specs.Lists.{part_at};
ghost use Rattle.area.specs.parts.Weights.{count_from, weight_of};

// Part i of an area in parts of one size.
pub fn part(area: &[u8], size: usize, i: usize) -> &[u8]
    requires { i * size + size ≤ length area.now }
    ensures part { result.now ≡ part_at size i area.now }
    ensures long { length result.now ≡ size }
{
    let start = i * size;
    let end = start + size;
    &area[start..end]
}

// How many of these bytes are not below `least`, where they are so few that a byte has room for it: the compiler then counts sixteen at a time, which a sum or
// a count in a `usize` loses (docs/PERFORMANCE.md, "Weights").
#[tactic(auto, using(crate::proofs::Weights::from_counted))]
fn short_count_from(least: u8, bytes: &[u8]) -> u8
    requires { length bytes.now ≤ 255 }
    ensures { result ≡ count_from least bytes.now }
{
    bytes.iter().map(|byte| u8::from(least <= *byte)).sum()
}

// The same of any number of bytes, part by part.
fn count_by_parts(least: u8, bytes: &[u8]) -> usize
    ensures { result ≡ count_from least bytes.now }
{
    bytes
        .chunks(255)
        .map(|part| usize::from(short_count_from(least, part)))
        .sum()
}

// How many bytes are not below `least`. Not copied into its callers, which decode more slowly with copies of it.
#[inline(never)]
pub fn count_from(least: u8, bytes: &[u8]) -> usize
    ensures { result ≡ count_from least bytes.now }
{
    count_by_parts(least, bytes)
}

// The weight of more symbols than a byte has room for. Not copied into its callers, and not a call of `count_from`, which compares with any byte.
#[cold]
#[inline(never)]
fn long_weight(symbols: &[u8]) -> usize
    ensures { result ≡ weight_of symbols.now }
{
    count_by_parts(1, symbols)
}

// The weight: how many symbols are not zero. Of at most 255, as a window has, it is worked out in the callers: where a window is light, little else is done
// (docs/PERFORMANCE.md, "Light windows").
pub fn weight(symbols: &[u8]) -> usize
    ensures { result ≡ weight_of symbols.now }
{
    if symbols.len() <= 255 {
        usize::from(short_count_from(1, symbols))
    } else {
        long_weight(symbols)
    }
}
