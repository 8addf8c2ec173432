// The locator of a series by Berlekamp and Massey's algorithm, and how it continues the series.
ghost use Rattle.std.specs.Prelude.{◌≡◌, ◌+◌, ◌≤◌, ◌<◌};
ghost use Rattle.field.specs.parts.Operations.{Is};
ghost use Rattle.field.specs.Fields.{ops_of};
ghost use Rattle.field.specs.parts.Sequences.{AllBelow, at};
ghost use Rattle.block.specs.parts.Locator.{tail as tail_of};
ghost use Rattle.block.specs.parts.LocatorAreas.{UnitSeries, Multiple, Locates};
ghost use Rattle.block.specs.parts.Spectrum.{Continued};

use super::PLACES;
use field::Field;

// The locator of a series' first terms and its degree at most. The search for it keeps the former locator, the place where the degree last changed, and what undoes
// the former locator's discrepancy there.
#[derive(Clone, Copy)]
pub struct Locator {
    pub degree: usize,
    place: usize,
    scale: u8,
    pub coefficients: [u8; PLACES],
    former: [u8; PLACES],
}

// 1, 0, 0, ..
pub fn unit() -> [u8; PLACES]
    ensures { UnitSeries result }
{
    let mut series = [0; PLACES];
    series[0] = 1;
    series
}

// Subtracts from the target factor times the source, moved up by `shift` places. That symbols are below q stays a clause here and below: a type for it would keep a
// reference to the field beside each array of sixteen bytes, and say no more.
pub fn subtract_multiple(
    field: &Field,
    factor: u8,
    shift: usize,
    count: usize,
    source: &[u8; PLACES],
    target: &mut [u8; PLACES],
)
    requires { (factor < field.now.q) × AllBelow field.now.q source.now × AllBelow field.now.q target.old × (shift + count ≤ PLACES) }
    ensures { Multiple field.now.q factor shift count source.now target.old target.new }
{
    for i in 0..count {
        let place = shift + i;
        let product = field.multiply(factor, source[i]);
        target[place] = field.subtract(target[place], product);
    }
}

impl Locator {
    // σ_1 c_(j-1) + .. + σ_L c_(j-L) for the locator σ of degree at most L and the series c.
    pub fn tail(&self, field: &Field, series: &[u8; PLACES], j: usize) -> u8
        requires { AllBelow field.now.q self.now.coefficients × AllBelow field.now.q series.now × (self.now.degree ≤ j) × (j < PLACES) }
        ensures { Is field.now.q result (tail_of (ops_of field.now.q) self.now.degree (at self.now.coefficients) (at series.now) j) }
    {
        let mut sum: u8 = 0;
        for a in 0..self.degree {
            let next = a + 1;
            sum = field.add_product(sum, self.coefficients[next], series[j - next]);
        }
        sum
    }

    // One place more: the locator of the series up to place `known` becomes that up to the next one.
    fn advance(&mut self, field: &Field, series: &[u8; PLACES], known: usize)
        requires { AllBelow field.now.q series.now × (known + 1 < PLACES) × Locates field.now.q series.now known self.old }
        ensures { Locates field.now.q series.now (known + 1) self.new }
    {
        let next = known + 1;
        let degree = self.degree;
        let place = self.place;
        let rest = self.tail(field, series, next);
        let discrepancy = field.add(series[next], rest);
        if discrepancy == 0 {
            return;
        }
        let factor = field.multiply(discrepancy, self.scale);
        let before = self.coefficients;
        subtract_multiple(
            field,
            factor,
            next - place,
            place - degree + 1,
            &self.former,
            &mut self.coefficients,
        );
        if next <= 2 * degree {
            return;
        }
        self.degree = next - degree;
        self.place = next;
        self.scale = field.inverse(discrepancy);
        self.former = before;
    }

    // The locator of the terms of the series up to place `last`.
    pub fn of(field: &Field, series: &[u8; PLACES], last: usize) -> Locator
        requires { AllBelow field.now.q series.now × (at series.now 0 ≡ 1) × (last < PLACES) }
        ensures { Locates field.now.q series.now last result }
    {
        let mut locator = Locator {
            degree: 0,
            place: 0,
            scale: 1,
            coefficients: unit(),
            former: unit(),
        };
        for known in 0..last {
            locator.advance(field, series, known);
        }
        locator
    }

    // Continues the series from place r + 1 on by the recurrence of the locator, for `count` places; answers with what the series had there besides.
    pub fn extend(
        &self,
        field: &Field,
        r: usize,
        count: usize,
        series: &mut [u8; PLACES],
    ) -> [u8; PLACES]
        requires { AllBelow field.now.q self.now.coefficients × (self.now.degree ≤ r) × AllBelow field.now.q series.old × (r + count < PLACES) }
        ensures { Continued field.now.q self.now.degree r count self.now.coefficients series.old series.new result }
    {
        let mut values = [0; PLACES];
        for u in 0..count {
            let place = r + 1 + u;
            let rest = self.tail(field, series, place);
            let continued = field.negate(rest);
            values[u] = field.add(series[place], rest);
            series[place] = continued;
        }
        values
    }
}
