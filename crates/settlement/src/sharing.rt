// An amount shared by weights to the last cent: each share is rounded down, and the leftover cents go one each to the largest
// remainders of the division, equal ones to the lower participant number.
ghost use Rattle.std.specs.Prelude.{◌≡◌, cond, eqb, leb, ℕ, ◌+◌, ◌-◌, ◌≤◌, ◌<◌, min};
ghost use Rattle.exact.specs.Rows.{places, at, cells};
ghost use Rattle.settlement.specs.Month.{side_limit};
ghost use Rattle.settlement.specs.Sharing.{floor_share, remainder, leftover_cent, share_by_weight, Shareable};
ghost use Rattle.settlement.specs.inner.Cuts.{count_from, CutBetween};

use exact::{PLACES, Row, proportion, total};
use std::cmp::Ordering;

// Shares rounded down, with the remainders of their divisions: two rows and no row of pairs, since `total` and `count_from` each
// take one of them.
#[derive(Clone, Copy)]
struct Divided {
    cents: Row,
    remainders: Row,
}

// The shares of n participants rounded down, where `whole` is what their weights come to. Here, in `cut` and in the walk through the
// tiers its bound is asked in a clause: a type of totals within it would be made and taken apart for each sum.
fn floor_shares(weights: Row, amount: u64, whole: u64, n: usize) -> Divided
    requires { (n ≤ places) × (whole ≤ side_limit) × Shareable (at weights) amount whole n }
    ensures { (result.cents ≡ cells (floor_share (at weights) amount whole) n) × (result.remainders ≡ cells (remainder (at weights) amount whole) n) }
{
    let mut cents = [0u64; PLACES];
    let mut remainders = [0u64; PLACES];
    // A loop and no two calls of `cells`, since one division gives a cell of each row.
    for i in 0..n {
        let q = proportion(weights[i], amount, whole);
        cents[i] = q.quotient;
        remainders[i] = q.remainder;
    }
    Divided { cents, remainders }
}

// How many of n remainders are at least so much.
fn count_from(remainders: &Row, least: u64, n: usize) -> u64
    requires { n ≤ places }
    ensures { result ≡ count_from (at remainders.now) n least }
{
    // `as`: std has no From between usize and u64.
    remainders[..n].iter().filter(|r| least <= **r).count() as u64
}

// The cut is on one side of `middle`, from which on there are `count` remainders; where these are as many as the leftover cents, it
// is at `middle`. What is handed on is again a remainder that the cut is above and one that it is not above.
fn narrowed(low: u64, least: u64, middle: u64, count: u64, leftover: u64) -> (u64, u64)
    requires { (low < middle) × (middle < least) }
    ensures { ((remainders : ℕ → ℕ) (n : ℕ) → count ≡ count_from remainders n middle → CutBetween remainders n leftover low least → CutBetween remainders n leftover result.0 result.1) × (result.1 ≤ least) × (result.1 - result.0 < least - low) }
{
    match count.cmp(&leftover) {
        Ordering::Greater => (middle, least),
        Ordering::Less => (low, middle),
        Ordering::Equal => (middle - 1, middle),
    }
}

// The cut among n remainders below `whole`, found by halving: whoever has at least so much gets a cent; of those with just one
// less the first get the cents that are spare, and nobody below gets one.
fn cut(remainders: &Row, leftover: u64, whole: u64, n: usize) -> u64
    requires { (n ≤ places) × (leftover ≤ n) × (0 < whole) × (whole ≤ side_limit) × ((i : ℕ) → i < n → at remainders.now i < whole) }
    ensures { CutBetween (at remainders.now) n leftover (result - 1) result }
{
    let mut low = 0u64;
    let mut least = whole;
    // A `while`: it halves what is between, and counts nothing.
    while 1 < least - low {
        let middle = low + (least - low) / 2;
        let count = count_from(remainders, middle, n);
        (low, least) = narrowed(low, least, middle, count, leftover);
    }
    least
}

// What one remainder gets at the cut, a cent from `least` on, and just below it a cent while some are spare; and the cents
// that are still spare.
fn cent_for(remainder: u64, least: u64, spare: u64) -> (u64, u64)
    requires { 0 < least }
    ensures { (result.0 ≡ cond (leb least remainder) 1 (cond (eqb remainder (least - 1)) (min 1 spare) 0)) × (result.1 ≡ spare - cond (eqb remainder (least - 1)) 1 0) }
{
    if least <= remainder {
        (1, spare)
    } else if remainder < least - 1 {
        (0, spare)
    } else {
        (spare.min(1), spare.saturating_sub(1))
    }
}

// Shares with their leftover cents, where the cut among the remainders is at `least`.
fn with_leftover(d: Divided, leftover: u64, least: u64, n: usize) -> Row
    requires { (n ≤ places) × CutBetween (at d.remainders) n leftover (least - 1) least × ((i : ℕ) → i < n → at d.cents i ≤ side_limit) }
    ensures { result ≡ cells (λ i. at d.cents i + leftover_cent (at d.remainders) n leftover i) n }
{
    let Divided { cents, remainders } = d;
    let mut out = [0u64; PLACES];
    let mut spare = leftover - count_from(&remainders, least, n);
    // A loop and no call of `cells`, since each cell needs the cents that those before it left spare; by numbers, since a turn reads
    // two rows and writes a third, for which a zip of three is no plainer.
    for i in 0..n {
        let (cent, rest) = cent_for(remainders[i], least, spare);
        out[i] = cents[i] + cent;
        spare = rest;
    }
    out
}

// What each of n participants gets of an amount by its weight, where `whole` is what the weights come to and the amount is not
// above it.
pub fn share_by_weight(weights: Row, amount: u64, whole: u64, n: usize) -> Row
    requires { (n ≤ places) × (whole ≤ side_limit) × Shareable (at weights) amount whole n }
    ensures { result ≡ cells (share_by_weight (at weights) amount whole n) n }
{
    let d = floor_shares(weights, amount, whole, n);
    let leftover = amount - total(d.cents, n);
    if leftover == 0 {
        return d.cents;
    }
    let least = cut(&d.remainders, leftover, whole, n);
    with_leftover(d, leftover, least, n)
}
