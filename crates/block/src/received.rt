// A received block at a level: the locator of its syndromes, and the information that this leads to.
ghost use Rattle.std.specs.Prelude.{◌≡◌, ◌≤◌, length};
ghost use Rattle.field.specs.parts.Sequences.{at, AllBelow};
ghost use Rattle.code.specs.Code.{level_distance};
ghost use Rattle.block.specs.parts.Candidate.{syndromes_at, Begun, Candidate};
ghost use Rattle.block.specs.parts.Factors.{unknown_places, Filled, Modified, Included};
ghost use Rattle.block.specs.parts.LocatorAreas.{UnitSeries};
ghost use Rattle.block.specs.parts.Step.{Step};

use super::locator::Locator;
use super::spectrum::Spectrum;
use super::{Information, PLACES, marks, unknown};
use tables::Tables;
use tables::combination::Combination;

// A received block, to be taken for one of level l: its bytes; its symbols, 0 in the unknown places; how many these are, no more than there are syndromes.
// `repair` makes it of its parameters, since those who call it have a part of a window and a level.
#[derive(Clone, Copy)]
pub struct Received<'a> {
    pub tables: &'a Tables,
    pub block: &'a [u8],
    pub symbols: &'a [u8],
    pub unknown: usize,
    pub l: usize,
    ghost filled: { Filled tables.now.setting.q block.now symbols.now },
    ghost long: { length symbols.now ≡ tables.now.setting.n },
    ghost whole: { length block.now ≡ tables.now.setting.n },
    ghost counted: { unknown ≡ length (unknown_places tables.now.setting.q block.now) },
    ghost few: { unknown ≤ syndromes_at tables.now.setting l },
    ghost level: { l ≤ tables.now.setting.m },
}

impl Received<'_> {
    // How many syndromes there are.
    fn syndromes(&self) -> usize
        ensures { result ≡ syndromes_at self.now.tables.now.setting self.now.l }
    {
        let p = self.tables.setting;
        p.n - (self.l + 1) * p.k
    }

    // The modified syndromes: what the unknown places leave of the syndromes, in a series with a 1 before. Where no symbol is unknown, these are the syndromes
    // themselves; else they are put into the room.
    fn modified<'x>(&self, series: &'x [u8; PLACES], room: &'x mut [u8; PLACES]) -> &'x [u8; PLACES]
        requires { AllBelow self.now.tables.now.setting.q series.now × (at series.now 0 ≡ 1) }
        ensures { Modified self.now.tables.now.setting.q (unknown_places self.now.tables.now.setting.q self.now.block.now) (syndromes_at self.now.tables.now.setting self.now.l) series.now result.now }
    {
        if self.unknown == 0 {
            return series;
        }
        *room = *series;
        unknown::times_factors(&self.tables.field, self.block, room);
        room.copy_within(self.unknown + 1..self.syndromes() + 1, 1);
        room
    }

    // Multiplies a locator by the factors of the unknown places, which its degree then counts.
    fn include_unknown(&self, locator: &mut Locator)
        requires { AllBelow self.now.tables.now.setting.q locator.old.coefficients × (locator.old.degree ≤ PLACES) }
        ensures { Included self.now.tables.now.setting.q (unknown_places self.now.tables.now.setting.q self.now.block.now) locator.old locator.new }
    {
        if self.unknown == 0 {
            return;
        }
        locator.degree += self.unknown;
        unknown::times_factors(&self.tables.field, self.block, &mut locator.coefficients);
    }

    // The syndromes as the beginning of the block's spectrum, and the locator that they lead to: that of the modified ones, with the unknown places' factors.
    fn begin(&self, spectrum: &mut Spectrum) -> Locator
        requires { (spectrum.old.known ≡ 0) × UnitSeries spectrum.old.series × (spectrum.old.point ≡ 1) }
        ensures { Begun self.now.tables.now.setting self.now.l self.now.block.now self.now.symbols.now spectrum.new result }
    {
        let field = &self.tables.field;
        let syndromes = self.syndromes();
        spectrum.add_values(field, self.symbols, syndromes);
        let mut room = [0; PLACES];
        let modified = self.modified(&spectrum.series, &mut room);
        let mut locator = Locator::of(field, modified, syndromes - self.unknown);
        self.include_unknown(&mut locator);
        locator
    }

    // The information that the locator leads to: the rest of the block's spectrum, what it has besides the error's, and the information read off that.
    fn read_candidate(&self, locator: &Locator, spectrum: &mut Spectrum) -> Information
        requires { Begun self.now.tables.now.setting self.now.l self.now.block.now self.now.symbols.now spectrum.old locator.now }
        ensures { Candidate self.now.tables.now.setting self.now.l self.now.symbols.now locator.now result }
    {
        let field = &self.tables.field;
        let p = self.tables.setting;
        let blocks = self.l + 1;
        spectrum.add_values(field, self.symbols, p.n);
        let values = locator.extend(field, self.syndromes(), blocks * p.k, &mut spectrum.series);
        let mut information = [0; PLACES];
        super::information::read(self.tables, blocks, &values, &mut information);
        information
    }

    // What `block::repair` promises, d_l given.
    pub fn repair_within(&self, distance: usize, marks: &mut [u8]) -> Option<Information>
        requires { (distance ≡ level_distance self.now.tables.now.setting.n self.now.tables.now.setting.k self.now.l) × (length marks.old ≡ self.now.tables.now.setting.n) }
        ensures { Step self.now.tables.now.setting self.now.l self.now.block.now marks.new result }
    {
        let mut spectrum = Spectrum::new();
        let locator = self.begin(&mut spectrum);
        let degree = locator.degree;
        // The degree is L + u, with u unknown places and L that were located: here d_l ≤ 2L + u.
        if distance + self.unknown <= 2 * degree {
            marks.fill(0);
            return None;
        }
        let information = self.read_candidate(&locator, &mut spectrum);
        // No symbol is unknown and no syndrome differs from zero: the block is of the code, and what was read is its information.
        if degree == 0 {
            marks.fill(0);
            return Some(information);
        }
        let combination = Combination {
            tables: self.tables,
            information: &information,
            l: self.l,
        };
        marks::mark(&combination, self.block, self.unknown, distance, marks).then_some(information)
    }
}
