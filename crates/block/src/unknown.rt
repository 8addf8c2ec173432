// Unknown symbols of a received block (02, request 106). Each unknown place i has the factor 1 - α^i x. A spectrum multiplied by the factors no longer shows
// what stands at those places, and a locator of what they leave, multiplied by them too, annihilates the spectrum of the whole error.
ghost use Rattle.std.specs.Prelude.{◌≡◌, ◌<◌, length};
ghost use Rattle.field.specs.Symbols.{is_unknown};
ghost use Rattle.field.specs.parts.Sequences.{AllBelow, at};
ghost use Rattle.code.specs.Windows.{unknown_symbols};
ghost use Rattle.block.specs.parts.Factors.{unknown_places, Filled, Factored, FactoredOnce};

use super::{PLACES, locator};
use field::Field;

// How many symbols of a block are unknown. Mostly none is, and to see that is quicker than to count.
pub fn count(q: usize, block: &[u8]) -> usize
    ensures { result ≡ unknown_symbols q (length block.now) (at block.now) }
{
    for &received in block {
        if q <= usize::from(received) {
            return code::unknown_symbols(q, block);
        }
    }
    0
}

// The symbols of the block, 0 in its unknown places, at the front of an area.
pub fn fill(field: &Field, block: &[u8]) -> [u8; PLACES]
    requires { length block.now < PLACES }
    ensures { Filled field.now.q block.now result }
{
    let mut symbols = [0; PLACES];
    for (i, &received) in block.iter().enumerate() {
        symbols[i] = field.known_symbol(received);
    }
    symbols
}

// Multiplies a series by 1 - point x, as far as its area goes.
fn times_factor(field: &Field, point: u8, series: &mut [u8; PLACES])
    requires { (point < field.now.q) × AllBelow field.now.q series.old }
    ensures { FactoredOnce field.now.q point series.old series.new }
{
    let before = *series;
    locator::subtract_multiple(field, point, 1, PLACES - 1, &before, series);
}

// Multiplies a series by the factors of the block's unknown places.
pub fn times_factors(field: &Field, block: &[u8], series: &mut [u8; PLACES])
    requires { AllBelow field.now.q series.old }
    ensures { Factored field.now.q (unknown_places field.now.q block.now) series.old series.new }
{
    let mut point: u8 = 1;
    for &received in block {
        if field.q <= usize::from(received) {
            times_factor(field, point, series);
        }
        point = field.multiply(2, point);
    }
}
