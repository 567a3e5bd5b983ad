// Lists a feed: n as one byte, then entries, from an input; a line for each entry, and one for each payout.
#![tactic(auto)]

mod blocks;
mod ends;
mod inputs;
mod lines;
mod runs;

pub use ends::{End, Ending, tell};
pub use inputs::list;
