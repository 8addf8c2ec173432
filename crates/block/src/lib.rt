// The block step: from a received block the information of the code block within the limit, or that there is none (01, "Reading a reception").
// A block's spectrum is its values at α^0, α^1, ... That of a level-l code block is zero at the first n - (l+1)k places, so there the received block
// shows the spectrum of the error: these are the syndromes. The locator that annihilates what is known of it continues it by a recurrence, rightly if
// the error is light; what the received block has besides is the code block's spectrum, and the information is read off it. Unless all
// syndromes are zero, the block is rebuilt from the rows and compared, so a good answer rests on nothing else. Unknown symbols (02, request 106) count as
// zeros: their places are known, and have factors of their own in the locator (`unknown`).
#![tactic(auto)]

pub mod information;
mod locator;
mod marks;
mod received;
mod spectrum;
pub mod unknown;

ghost use Rattle.std.specs.Prelude.{◌≡◌, ◌*◌, ◌≤◌, length};
ghost use Rattle.area.specs.parts.Weights.{weight_of};
ghost use Rattle.block.specs.parts.Step.{Step};

use received::Received;
use tables::Tables;

// Room for a longest block's spectrum and a 1 before it. Memory is fixed, so a series has this room whatever the setting, and the setting says how much of it counts.
pub const PLACES: usize = tables::LONGEST_BLOCK + 1;

// The information blocks that a received block leads to, one after the other from the front.
pub type Information = [u8; PLACES];

// The l + 1 information blocks of the level-l combination that costs the received block less than d_l, or none if there is no such combination; and a mark for
// each symbol, set where it is known and differs from that combination, and nowhere if there is none.
pub fn repair(tables: &Tables, block: &[u8], l: usize, marks: &mut [u8]) -> Option<Information>
    requires { (length block.now ≡ tables.now.setting.n) × (l ≤ tables.now.setting.m) × (length marks.old ≡ tables.now.setting.n) }
    ensures { Step tables.now.setting l block.now marks.new result }
{
    let distance = code::level_distance(tables.setting, l);
    let unknown = unknown::count(tables.setting.q, block);
    if distance <= unknown {
        marks.fill(0);
        return None;
    }
    let mut filled = [0; PLACES];
    let symbols = if unknown == 0 {
        block
    } else {
        filled = unknown::fill(&tables.field, block);
        &filled[..block.len()]
    };
    let received = Received {
        tables,
        block,
        symbols,
        unknown,
        l,
    };
    received.repair_within(distance, marks)
}

// What the known symbols of a repaired block cost, by its marks: two for each. Each unknown one costs one besides.
pub fn marked_cost(marks: &[u8]) -> usize
    ensures { result ≡ 2 * weight_of marks.now }
{
    2 * area::weight(marks)
}
