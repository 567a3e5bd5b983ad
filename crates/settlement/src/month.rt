// The sums of one month, from which its notice and its settlement are reckoned.
use crate::owing::TierCells;
use exact::Row;

// The cents owing by each of n participants, and those owing to each by tiers. `Bounded`, `Due` and `grouping_allowed` stay clauses of
// the methods: a type would ask more of the callers of public functions.
#[derive(Clone, Copy)]
pub struct MonthSums {
    pub n: usize,
    pub by: Row,
    pub to: TierCells,
}
