// The information of a code block, from its spectrum.
ghost use Rattle.std.specs.Prelude.{◌≡◌, ◌-◌, ◌*◌, ◌≤◌, ◌<◌, length};
ghost use Rattle.algebra.specs.parts.Values.{falling as falling_of};
ghost use Rattle.field.specs.parts.Operations.{Is};
ghost use Rattle.field.specs.Fields.{ops_of};
ghost use Rattle.field.specs.parts.Sequences.{AllBelow, at};
ghost use Rattle.block.specs.parts.Information.{lacking, BlockRead, InformationRead};

use tables::Tables;

// The k values that an information block is recovered from.
#[derive(Clone, Copy)]
struct BlockValues<'a> {
    tables: &'a Tables,
    values: &'a [u8],
    ghost below: { AllBelow tables.now.setting.q values.now },
    ghost long: { length values.now ≡ tables.now.setting.k },
}

impl BlockValues<'_> {
    // v_0 y^k + .. + v_(k-1) y for the values v.
    fn falling(&self, y: u8) -> u8
        requires { y < self.now.tables.now.setting.q }
        ensures { Is self.now.tables.now.setting.q result (falling_of (ops_of self.now.tables.now.setting.q) (length self.now.values.now) (at self.now.values.now) y) }
    {
        let field = &self.tables.field;
        let mut sum: u8 = 0;
        for &value in self.values {
            let more = field.add(sum, value);
            sum = field.multiply(more, y);
        }
        sum
    }

    // What symbol i of the information block becomes, where those after it are recovered; the point is (1/α)^(k - i).
    fn symbol(&self, point: u8, information: &[u8], i: usize) -> u8
        requires { AllBelow self.now.tables.now.setting.q information.now × (length information.now ≡ self.now.tables.now.setting.k) × (point < self.now.tables.now.setting.q) × (i < self.now.tables.now.setting.k) }
        ensures { Is self.now.tables.now.setting.q result (lacking self.now.tables.now.setting self.now.values.now point information.now (self.now.tables.now.setting.k - i)) }
    {
        let p = self.tables.setting;
        let field = &self.tables.field;
        let sum = self.falling(point);
        let ending = field.negate(sum);
        let known = self.tables.times_g(information, 0, p.n - p.k + i);
        let lack = field.subtract(ending, known);
        field.add(information[i], lack)
    }

    // Recovers the information block, its last symbol first.
    fn read(&self, information: &mut [u8])
        requires { AllBelow self.now.tables.now.setting.q information.old × (length information.old ≡ self.now.tables.now.setting.k) }
        ensures { BlockRead self.now.tables.now.setting self.now.tables.now.setting.k self.now.values.now information.new }
    {
        let field = &self.tables.field;
        let back = field.inverse(2);
        let mut point: u8 = 1;
        for i in (0..self.tables.setting.k).rev() {
            point = field.multiply(back, point);
            information[i] = self.symbol(point, information, i);
        }
    }
}

// The information of so many blocks, each from its k values, one block after the other from the front of an area; what is past them becomes 0.
pub fn read(tables: &Tables, blocks: usize, values: &[u8], information: &mut [u8])
    requires { AllBelow tables.now.setting.q values.now × (blocks * tables.now.setting.k ≤ length values.now) × (blocks * tables.now.setting.k ≤ length information.old) }
    ensures { InformationRead tables.now.setting blocks values.now information.new }
{
    let k = tables.setting.k;
    information.fill(0);
    // By index: after `chunks_exact_mut` a proof knows the length of the area and none of its symbols.
    for b in 0..blocks {
        let block = BlockValues {
            tables,
            values: area::part(values, k, b),
        };
        let start = b * k;
        let end = start + k;
        block.read(&mut information[start..end]);
    }
}
