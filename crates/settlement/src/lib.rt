// One month in whole cents: retention and payable amounts at notice, settlement with its rounds, and late money.
#![tactic(auto)]

mod claims;
mod groups;
mod late;
mod month;
mod noticing;
mod owing;
mod retention;
mod scaling;
mod settling;
mod sharing;
mod spread;
mod walk;

pub use groups::{GROUPS, Grouping, is_grouping_allowed};
pub use late::late_payments;
pub use month::MonthSums;
pub use noticing::Noticed;
pub use owing::{SIDE_LIMIT, TIERS, TierCells, over_tiers};
pub use scaling::Scaled;
pub use settling::Settled;
