// The month in slices that a caller lends, and what settlement reckons of it.
ghost use Rattle.std.specs.Prelude.{◌≡◌, ◌≤◌, length};
ghost use Rattle.exact.specs.Rows.{places, cells};
ghost use Rattle.settlement.specs.Groups.{group_count};
ghost use Rattle.settlement.specs.Month.{tier_at};
ghost use Rattle.settlement.specs.Late.{late_payment};
ghost use Rattle.exports.specs.Slices.{front, row_of, tier_places, grouping_of};
ghost use Rattle.exports.specs.Orders.{Sound, TiersSound, GroupsSound};
ghost use Rattle.exports.specs.Answers.{notice_of};

use crate::slices::front;
use exact::Row;
use settlement::{Grouping, MonthSums, Noticed, late_payments};

// The cents owing by n participants and those owing to them by tiers, their groups, and the groups' reserves.
#[derive(Clone, Copy)]
pub struct LentMonth<'a> {
    pub by: &'a [u64],
    pub to: &'a [u64],
    pub groups: &'a [u64],
    pub reserves: &'a [u64],
    pub n: usize,
}

impl<'a> LentMonth<'a> {
    // The month's sums.
    pub fn sums(&self) -> MonthSums
        requires { Sound self.now.n self.now.by.now self.now.to.now }
        ensures { result ≡ record { n = self.now.n; by = front places self.now.by.now; to = front tier_places self.now.to.now } }
    {
        MonthSums {
            n: self.n,
            by: front(self.by),
            to: front(self.to),
        }
    }

    // The group number of each participant and the reserve of each group.
    pub fn grouping(&self) -> Grouping
        requires { (places ≤ length self.now.groups.now) × (group_count ≤ length self.now.reserves.now) }
        ensures { result ≡ grouping_of self.now.groups.now self.now.reserves.now }
    {
        Grouping {
            groups: front(self.groups),
            reserves: front(self.reserves),
        }
    }

    // The notice of the month and the groups.
    pub fn notice(&self) -> Noticed
        requires { Sound self.now.n self.now.by.now self.now.to.now × GroupsSound self.now.n self.now.groups.now self.now.reserves.now }
        ensures { result ≡ notice_of self.now.n self.now.by.now self.now.to.now self.now.groups.now self.now.reserves.now }
    {
        self.sums().notice(self.grouping())
    }
}

// What money that comes late pays. The C function and two of ours take these slices: a struct of them would be made to be read twice.
pub fn late_of(to: &[u64], claims: &[u64], paid: &[u64], money: u64, n: usize) -> Row
    requires { TiersSound n to.now × (places ≤ length claims.now) × (places ≤ length paid.now) }
    ensures { result ≡ cells (late_payment (tier_at (front tier_places to.now)) (row_of claims.now) (row_of paid.now) n money) n }
{
    late_payments(front(to), front(claims), front(paid), money, n)
}
