// Whether arguments are in order.
ghost use Rattle.std.specs.Prelude.{◌≡◌, true, false, cond, leb, take, Some, None, ◌≤◌};
ghost use Rattle.std.specs.List.{list_all, zip};
ghost use Rattle.exact.specs.Division.{Proportional};
ghost use Rattle.exact.specs.Rows.{places};
ghost use Rattle.exports.specs.Orders.{owing_in_order, groups_in_order, in_order, received_in_order, late_money_in_order};
ghost use Rattle.exports.specs.Answers.{notice_of};

use crate::months::LentMonth;
use crate::slices::{front, side_total};
use exact::{PLACES, Row, excesses, total};
use settlement::{GROUPS, SIDE_LIMIT, TIERS, is_grouping_allowed, over_tiers};

// Whether n participants and the cents owing to them by tiers are in order, and the shortest slice of a row has room.
fn owing_in_order(to: &[u64], n: usize, room: usize) -> bool
    ensures { result ≡ owing_in_order n to.now room }
{
    if room < PLACES || n < 1 || PLACES < n || to.len() < TIERS * PLACES {
        return false;
    }
    side_total(to, TIERS * n) <= SIDE_LIMIT
}

// Whether each of the first n cells is at most the other row's.
fn each_at_most(a: &Row, b: &Row, n: usize) -> bool
    requires { n ≤ places }
    ensures { result ≡ list_all (λ p. leb p.0 p.1) (zip (take n a.now) (take n b.now)) }
{
    a[..n].iter().zip(b[..n].iter()).all(|(x, y)| *x <= *y)
}

impl<'a> LentMonth<'a> {
    // Whether the group numbers of the participants and the reserves of all groups are in order.
    fn groups_in_order(&self) -> bool
        requires { self.now.n ≤ places }
        ensures { result ≡ groups_in_order self.now.n self.now.groups.now self.now.reserves.now }
    {
        if self.groups.len() < PLACES || self.reserves.len() < GROUPS {
            return false;
        }
        is_grouping_allowed(self.grouping(), self.n)
    }

    // Whether the month is in order: the cents owing to n participants, those owing by them, which must come to as much, and
    // the groups.
    #[tactic(auto, using(crate::proofs::OrderLaws::owing_few, crate::proofs::OrderLaws::owing_long))]
    pub fn in_order(&self, room: usize) -> bool
        ensures { result ≡ in_order self.now.n self.now.by.now self.now.to.now self.now.groups.now self.now.reserves.now room }
    {
        if !owing_in_order(self.to, self.n, room)
            || self.by.len() < PLACES
            || side_total(self.by, self.n) != side_total(self.to, TIERS * self.n)
        {
            return false;
        }
        self.groups_in_order()
    }

    // The payable row of the month's notice, where the sums of the month, the groups and what was received are in order: the
    // settlement is handed that row, so that no notice is reckoned twice.
    pub fn payable(&self, received: &[u64], room: usize) -> Option<Row>
        ensures { result ≡ cond (received_in_order self.now.n self.now.by.now self.now.to.now self.now.groups.now self.now.reserves.now received.now room) (Some (notice_of self.now.n self.now.by.now self.now.to.now self.now.groups.now self.now.reserves.now).payable) None }
    {
        if !self.in_order(received.len().min(room)) {
            return None;
        }
        let payable = self.notice().payable;
        each_at_most(&front(received), &payable, self.n).then_some(payable)
    }
}

// Whether the claims, what was paid of them and the money that comes late are in order.
#[tactic(auto, using(crate::proofs::OrderLaws::owing_few, crate::proofs::OrderLaws::owing_long, crate::proofs::OrderLaws::owing_roomy))]
pub fn late_money_in_order(
    to: &[u64],
    claims: &[u64],
    paid: &[u64],
    money: u64,
    n: usize,
    room: usize,
) -> bool
    ensures { result ≡ late_money_in_order n to.now claims.now paid.now money room }
{
    if !owing_in_order(to, n, claims.len().min(paid.len().min(room))) {
        return false;
    }
    let owing = over_tiers(front(to), n);
    let claims = front(claims);
    if !each_at_most(&claims, &owing, n) {
        return false;
    }
    let paid = front(paid);
    if !each_at_most(&paid, &claims, n) {
        return false;
    }
    money <= total(excesses(claims, paid, n), n)
}

// Amounts and divisors of an exact proportion are below this.
const FACTOR_LIMIT: u64 = 0x1000_0000_0000;

// Whether amount × part / whole is within what an exact proportion takes.
pub fn proportional(amount: u64, part: u64, whole: u64) -> bool
    ensures { (result ≡ true → Proportional amount part whole) × (result ≡ false → Proportional amount part whole → ⊥) }
{
    0 < whole && part <= whole && whole < FACTOR_LIMIT && amount < FACTOR_LIMIT
}
