// Exact arithmetic in whole cents: every product is formed before it is divided, in 64-bit words.
#![tactic(auto, unfolding(crate::specs::Rows::cells))]

mod division;
mod energy;
mod numbers;
mod rows;

pub use division::{Quotient, proportion, proportion_up};
pub use energy::{Difference, energy_cents, energy_difference};
pub use numbers::{excess, larger, smaller};
pub use rows::{PLACES, Row, cells, excesses, largest, minima, put_cells, sums, total};
