// Multiples of a row added to an area.
ghost use Rattle.std.specs.Prelude.{◌≡◌, ◌+◌, ◌≤◌, ◌<◌, length, get_or};
ghost use Rattle.field.specs.Symbols.{Symbols};
ghost use Rattle.tables.specs.parts.RowsAdded.{MultipleAdded};

use field::Field;

// v × a row.
#[derive(Clone, Copy)]
pub struct Multiple<'a> {
    pub field: &'a Field,
    pub v: u8,
    pub row: &'a [u8],
    pub ghost below: { v < field.now.q },
    pub ghost symbols: { Symbols field.now.q row.now },
}

impl Multiple<'_> {
    // Adds symbol i of the multiple to symbol i of the area, a known one.
    fn add_place(&self, i: usize, area: &mut [u8])
        requires { (get_or area.old i 0 < self.now.field.now.q) × (i < length self.now.row.now) × (i < length area.old) }
        ensures { MultipleAdded self.now.field.now.q self.now.v i (i + 1) self.now.row.now area.old area.new }
    {
        area[i] = self.field.add_product(area[i], self.v, self.row[i]);
    }

    // The same for four symbols from a place on, in an area without unknown ones.
    fn add_four(&self, i: usize, area: &mut [u8])
        requires { Symbols self.now.field.now.q area.old × (i + 4 ≤ length self.now.row.now) × (i + 4 ≤ length area.old) }
        ensures { MultipleAdded self.now.field.now.q self.now.v i (i + 4) self.now.row.now area.old area.new }
    {
        self.add_place(i, area);
        self.add_place(i + 1, area);
        self.add_place(i + 2, area);
        self.add_place(i + 3, area);
    }

    // With five elements, adds the multiple to the first symbols of the area, four at a time, and answers with how many; else with 0. For sums modulo 5 the
    // compiler has instructions that make four (docs/PERFORMANCE.md, "Rows by information symbol").
    fn add_fours(&self, area: &mut [u8]) -> usize
        requires { Symbols self.now.field.now.q area.old × (length self.now.row.now ≡ length area.old) }
        ensures { (result ≤ length area.old) × MultipleAdded self.now.field.now.q self.now.v 0 result self.now.row.now area.old area.new }
    {
        if self.field.q != 5 {
            return 0;
        }
        let fours = area.len() / 4;
        for part in 0..fours {
            self.add_four(4 * part, area);
        }
        4 * fours
    }

    // Adds the multiple to the symbols of the area from a place on.
    fn add_from(&self, from: usize, area: &mut [u8])
        requires { (from ≤ length area.old) × Symbols self.now.field.now.q area.old × (length self.now.row.now ≡ length area.old) }
        ensures { MultipleAdded self.now.field.now.q self.now.v from (length area.old) self.now.row.now area.old area.new }
    {
        for i in from..area.len() {
            self.add_place(i, area);
        }
    }

    // Adds the multiple to an area without unknown symbols.
    pub fn add(&self, area: &mut [u8])
        requires { Symbols self.now.field.now.q area.old × (length self.now.row.now ≡ length area.old) }
        ensures { MultipleAdded self.now.field.now.q self.now.v 0 (length area.old) self.now.row.now area.old area.new }
    {
        let done = self.add_fours(area);
        self.add_from(done, area);
    }

    // Adds the multiple to the known symbols of any area.
    pub fn add_to_known(&self, area: &mut [u8])
        requires { length self.now.row.now ≡ length area.old }
        ensures { MultipleAdded self.now.field.now.q self.now.v 0 (length area.old) self.now.row.now area.old area.new }
    {
        for i in 0..area.len() {
            if usize::from(area[i]) < self.field.q {
                self.add_place(i, area);
            }
        }
    }
}
