// Reading a frame, given the block step: windows in turn, levels downwards, the last comparison (01, "Reading a reception").
#![tactic(auto)]

pub mod guess;
pub mod reading;
pub mod window;

ghost use Rattle.std.specs.Prelude.{◌≤◌};

use tables::Tables;

// A frame of T information blocks, T+m blocks in all, by the tables of its setting: `blocks` is T. So many symbols of its reception are unknown, and stay so in its
// residual; where none is, rows are added without a look at what they are added to.
#[derive(Clone, Copy)]
pub struct Frame<'a> {
    pub tables: &'a Tables,
    pub blocks: usize,
    pub unknown: usize,
    pub ghost some: { 1 ≤ blocks },
}
