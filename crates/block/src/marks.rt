// The marks of a repaired block: a byte for each symbol, 1 where the received symbol is known and the repaired one differs, else 0 (02, requests 105 and 106).
ghost use Rattle.std.specs.Prelude.{◌≡◌, ◌<◌, length};
ghost use Rattle.area.specs.Lists.{view};
ghost use Rattle.field.specs.parts.Sequences.{at};
ghost use Rattle.code.specs.Windows.{unknown_symbols};
ghost use Rattle.block.specs.parts.Marking.{RepairMarked};

use tables::combination::Combination;

// Marks the known symbols in which a received block differs from a combination, and says whether these cost less than the bound, with the unknown ones, whose
// number is given; where they do not, no mark stays set.
pub fn mark(
    combination: &Combination,
    block: &[u8],
    unknown: usize,
    bound: usize,
    marks: &mut [u8],
) -> bool
    requires { (length block.now ≡ combination.now.tables.now.setting.n) × (length marks.old ≡ combination.now.tables.now.setting.n) × (unknown ≡ unknown_symbols combination.now.tables.now.setting.q (length block.now) (at block.now)) × (unknown < bound) }
    ensures { RepairMarked combination.now.tables.now.setting block.now combination.now.l (view combination.now.tables.now.setting.k combination.now.information.now) bound marks.new result }
{
    let q = combination.tables.setting.q;
    let mut cost = unknown;
    for (i, &received) in block.iter().enumerate() {
        let differs = received != combination.symbol(i);
        let mark = u8::from(differs & (usize::from(received) < q));
        marks[i] = mark;
        cost += 2 * usize::from(mark);
        if bound <= cost {
            marks.fill(0);
            return false;
        }
    }
    true
}
