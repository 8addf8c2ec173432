// The spectrum of a received block.
ghost use Rattle.std.specs.Prelude.{◌≡◌, ◌≤◌, ◌<◌};
ghost use Rattle.field.specs.Symbols.{Symbols};
ghost use Rattle.block.specs.parts.LocatorAreas.{UnitSeries};
ghost use Rattle.block.specs.parts.Spectrum.{SpectrumKnown};

use super::PLACES;
use field::Field;

// What is known of a block's spectrum: so many of its values, at the powers of α from α^0 on, in a series with a 1 before them, and the point of the next value.
#[derive(Clone, Copy)]
pub struct Spectrum {
    pub known: usize,
    pub series: [u8; PLACES],
    pub point: u8,
}

impl Spectrum {
    // The spectrum of which no value is known.
    pub fn new() -> Spectrum
        ensures { (result.known ≡ 0) × UnitSeries result.series × (result.point ≡ 1) }
    {
        Spectrum {
            known: 0,
            series: super::locator::unit(),
            point: 1,
        }
    }

    // Adds the values of the block's spectrum up to that at α^(to - 1).
    pub fn add_values(&mut self, field: &Field, block: &[u8], to: usize)
        requires { Symbols field.now.q block.now × (self.old.known ≤ to) × (to < PLACES) × SpectrumKnown field.now.q block.now self.old }
        ensures { (self.new.known ≡ to) × SpectrumKnown field.now.q block.now self.new }
    {
        for s in self.known..to {
            self.series[s + 1] = field.value(block, self.point);
            self.point = field.multiply(2, self.point);
        }
        self.known = to;
    }
}
