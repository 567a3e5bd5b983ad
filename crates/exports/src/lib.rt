// C exports: the exact proportion; over slices, notice, scaled amounts, settlement and late money of one month.
// Arguments that no month of the rules has are not in order, and are refused (specs/Orders.antt says which).
#![tactic(auto)]

mod months;
mod orders;
mod slices;

ghost use Rattle.std.specs.Prelude.{◌≡◌, cond, ◌*◌, ◌/◌, min, leb, length};
ghost use Rattle.exact.specs.Division.{Proportional};
ghost use Rattle.exact.specs.Rows.{places, cells};
ghost use Rattle.settlement.specs.Month.{tier_at};
ghost use Rattle.settlement.specs.Late.{late_payment};
ghost use Rattle.exports.specs.Slices.{front, row_of, tier_places, left};
ghost use Rattle.exports.specs.Orders.{in_order, settlement_in_order, late_money_in_order};
ghost use Rattle.exports.specs.Answers.{notice_of, scaled_of, settled_of, refused, no_quotient};

use exact::{PLACES, proportion, put_cells};
use months::{LentMonth, late_of};
use orders::{late_money_in_order, proportional};
use slices::front;

// More rounds than any settlement runs: the answer to arguments that are not in order. A number and no Option, since C callers have it.
const REFUSED: u64 = 65;

// More than any quotient: the answer of a proportion to arguments that are not in order. A number and no Option, since C callers have it.
const NO_QUOTIENT: u64 = 0xFFFF_FFFF_FFFF_FFFF;

// amount × part / whole rounded down, or 2^64 − 1 where the arguments are not in order.
#[unsafe(no_mangle)]
pub extern "C" fn clearing_proportion(amount: u64, part: u64, whole: u64) -> u64
    ensures quotient { Proportional amount part whole → result ≡ amount * part / whole }
    ensures refused { (Proportional amount part whole → ⊥) → result ≡ no_quotient }
{
    if !proportional(amount, part, whole) {
        return NO_QUOTIENT;
    }
    proportion(amount, part, whole).quotient
}

// Writes the retention and payable amounts of a month, and says whether the arguments were in order. If not, nothing is written.
#[tactic(auto, using(crate::proofs::OrderLaws::order_roomy))]
#[unsafe(no_mangle)]
pub extern "C" fn clearing_notice(
    by: &[u64],
    to: &[u64],
    groups: &[u64],
    reserves: &[u64],
    n: usize,
    retention: &mut [u64],
    payable: &mut [u64],
) -> bool
    ensures answer { result ≡ in_order n by.now to.now groups.now reserves.now (min (length retention.old) (length payable.old)) }
    ensures retention_after { retention.new ≡ left result (notice_of n by.now to.now groups.now reserves.now).retention retention.old }
    ensures payable_after { payable.new ≡ left result (notice_of n by.now to.now groups.now reserves.now).payable payable.old }
{
    let room = retention.len().min(payable.len());
    let lent = LentMonth {
        by,
        to,
        groups,
        reserves,
        n,
    };
    if !lent.in_order(room) {
        return false;
    }
    let noticed = lent.notice();
    put_cells(retention, PLACES, noticed.retention);
    put_cells(payable, PLACES, noticed.payable);
    true
}

// Writes the revised amounts of a month's settlement, and the scaled ones above 0 and, sign turned, below it, and says whether the
// arguments were in order. If not, nothing is written.
#[unsafe(no_mangle)]
pub extern "C" fn clearing_scaled(
    by: &[u64],
    to: &[u64],
    groups: &[u64],
    reserves: &[u64],
    received: &[u64],
    n: usize,
    revised: &mut [u64],
    above: &mut [u64],
    below: &mut [u64],
) -> bool
    ensures answer { result ≡ settlement_in_order n by.now to.now groups.now reserves.now received.now revised.old above.old below.old }
    ensures revised_after { revised.new ≡ left result (scaled_of n by.now to.now groups.now reserves.now received.now).revised revised.old }
    ensures above_after { above.new ≡ left result (scaled_of n by.now to.now groups.now reserves.now received.now).above above.old }
    ensures below_after { below.new ≡ left result (scaled_of n by.now to.now groups.now reserves.now received.now).below below.old }
{
    let room = revised.len().min(above.len().min(below.len()));
    let lent = LentMonth {
        by,
        to,
        groups,
        reserves,
        n,
    };
    let Some(payable) = lent.payable(received, room) else {
        return false;
    };
    let scaled = lent.sums().scale(payable, front(received));
    put_cells(revised, PLACES, scaled.revised);
    put_cells(above, PLACES, scaled.above);
    put_cells(below, PLACES, scaled.below);
    true
}

// Writes what a month's settlement pays, its claims and its arrears, and answers the rounds that ran, or 65 where the
// arguments are not in order. Then nothing is written.
#[unsafe(no_mangle)]
pub extern "C" fn clearing_settle(
    by: &[u64],
    to: &[u64],
    groups: &[u64],
    reserves: &[u64],
    received: &[u64],
    n: usize,
    paid: &mut [u64],
    claims: &mut [u64],
    arrears: &mut [u64],
) -> u64
    ensures answer { result ≡ cond (settlement_in_order n by.now to.now groups.now reserves.now received.now paid.old claims.old arrears.old) (settled_of n by.now to.now groups.now reserves.now received.now).rounds refused }
    ensures paid_after { paid.new ≡ left (leb result places) (settled_of n by.now to.now groups.now reserves.now received.now).paid paid.old }
    ensures claims_after { claims.new ≡ left (leb result places) (settled_of n by.now to.now groups.now reserves.now received.now).claims claims.old }
    ensures arrears_after { arrears.new ≡ left (leb result places) (settled_of n by.now to.now groups.now reserves.now received.now).arrears arrears.old }
{
    let room = paid.len().min(claims.len().min(arrears.len()));
    let lent = LentMonth {
        by,
        to,
        groups,
        reserves,
        n,
    };
    let Some(payable) = lent.payable(received, room) else {
        return REFUSED;
    };
    let settled = lent.sums().settle(payable, front(received));
    put_cells(paid, PLACES, settled.paid);
    put_cells(claims, PLACES, settled.claims);
    put_cells(arrears, PLACES, settled.arrears);
    settled.rounds
}

// Writes what late money pays of each claim, beyond what was paid of it, and says whether the arguments were in order;
// `money` is what is held, the receipt added. If they were not, nothing is written.
#[unsafe(no_mangle)]
pub extern "C" fn clearing_late(
    to: &[u64],
    claims: &[u64],
    paid: &[u64],
    money: u64,
    n: usize,
    pays: &mut [u64],
) -> bool
    ensures answer { result ≡ late_money_in_order n to.now claims.now paid.now money (length pays.old) }
    ensures pays_after { pays.new ≡ left result (cells (late_payment (tier_at (front tier_places to.now)) (row_of claims.now) (row_of paid.now) n money) n) pays.old }
{
    if !late_money_in_order(to, claims, paid, money, n, pays.len()) {
        return false;
    }
    put_cells(pays, PLACES, late_of(to, claims, paid, money, n));
    true
}
