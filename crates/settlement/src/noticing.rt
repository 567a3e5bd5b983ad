// What a notice reckons for a month: retention and payable amounts.
ghost use Rattle.std.specs.Prelude.{◌≡◌, true};
ghost use Rattle.settlement.specs.Month.{month_of_sums, Bounded};
ghost use Rattle.settlement.specs.Groups.{grouping_allowed, noticed};

use crate::groups::{Grouping, group_sums, outside_sums, shortfalls};
use crate::month::MonthSums;
use crate::owing::{LAST_TIER, over_tiers, tier};
use crate::retention::largest_gifts;
use exact::{Row, excesses, sums};

// What a notice hands on.
#[derive(Clone, Copy)]
pub struct Noticed {
    pub retention: Row,
    pub payable: Row,
}

impl MonthSums {
    // The retention and payable amounts of a month, from its sums and the groups of its participants.
    pub fn notice(&self, grouping: Grouping) -> Noticed
        requires { Bounded (month_of_sums self.now) × (grouping_allowed self.now.n grouping ≡ true) }
        ensures { result ≡ noticed (month_of_sums self.now) grouping }
    {
        let n = self.n;
        let owing = over_tiers(self.to, n);
        let parts = tier(&self.to, LAST_TIER, n);
        let Grouping { groups, reserves } = grouping;
        let by_sums = group_sums(self.by, groups, n);
        let to_sums = group_sums(owing, groups, n);
        let short = shortfalls(by_sums, to_sums, reserves);
        let outside = outside_sums(parts, groups, n);
        let retention = largest_gifts(short, outside, parts, n);
        let by_and_retention = sums(self.by, retention, n);
        let payable = excesses(by_and_retention, owing, n);
        Noticed { retention, payable }
    }
}
