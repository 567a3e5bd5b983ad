// Clause 14.59(1), (4) and (5), in its own order (01, Settlement, step 4; 02, d). Of its amounts payable, AP, the scaled ones are
// `above` and `below`, the revised ones `balances`, and AP negative, with its sign turned, is `negative`, 01's D. Of its amounts
// owing, AO, the revised ones are `revised`, 01's V, and AO positive is `positive`, W.
ghost use Rattle.std.specs.Prelude.{◌≡◌, ◌*◌, ◌^◌, ◌≤◌, ◌<◌, min};
ghost use Rattle.exact.specs.Rows.{places, at, sum, cells};
ghost use Rattle.exact.specs.Division.{ceil_div, Proportional};
ghost use Rattle.settlement.specs.Rounds.{negatives_at_zero, weight, loss, spread, Backing};

use exact::{Row, cells, excesses, proportion_up, total};

// The balances that the rounds leave, and how many rounds ran.
#[derive(Clone, Copy)]
pub struct Spent {
    pub rounds: u64,
    pub balances: Row,
}

// (4)(a): the balances are the scaled amounts with the negative ones set to 0.
fn negatives_at_zero(above: Row, below: Row, n: usize) -> Row
    requires { n ≤ places }
    ensures { result ≡ cells (negatives_at_zero (at above) (at below)) n }
{
    cells(n, |i| if below[i] == 0 { above[i] } else { 0 })
}

// AO positive: the sum of V over those whose balance is positive.
fn total_of_positive(balances: Row, revised: Row, n: usize) -> u64
    requires { (n ≤ places) × (sum (at revised) n < 2 ^ 64) }
    ensures { result ≡ sum (weight (at revised) (at balances)) n }
{
    let weights = cells(n, |i| if balances[i] == 0 { 0 } else { revised[i] });
    total(weights, n)
}

// (4)(b) for one participant: a positive balance loses AP negative × V / AO positive, by 01 rounded up and at most the balance.
fn loss_of(balance: u64, negative: u64, revised: u64, positive: u64) -> u64
    requires { 0 < balance → Proportional negative revised positive }
    ensures { result ≡ min balance (ceil_div (negative * revised) positive) }
{
    if balance == 0 {
        0
    } else {
        balance.min(proportion_up(negative, revised, positive))
    }
}

// (4)(b): what each balance loses.
fn losses(balances: Row, negative: u64, revised: Row, positive: u64, n: usize) -> Row
    requires { Backing n (at revised) (at balances) negative × (positive ≡ sum (weight (at revised) (at balances)) n) }
    ensures { result ≡ cells (loss n (at revised) (at balances) negative) n }
{
    cells(n, |i| loss_of(balances[i], negative, revised[i], positive))
}

// Applies the clause to scaled amounts in two rows: `above` where they are positive, `below`, with the sign turned, where they are
// negative.
pub fn spread(above: Row, below: Row, revised: Row, n: usize) -> Spent
    requires { Backing n (at revised) (negatives_at_zero (at above) (at below)) (sum (at below) n) }
    ensures { (result.rounds ≡ (spread n (at revised) (negatives_at_zero (at above) (at below)) (sum (at below) n)).rounds) × (result.balances ≡ cells (spread n (at revised) (negatives_at_zero (at above) (at below)) (sum (at below) n)).balance n) }
{
    // (4)(a): the balances of the negative scaled amounts are set to 0.
    let mut balances = negatives_at_zero(above, below, n);
    // AP negative: the sum of the negative scaled amounts.
    let mut negative = total(below, n);
    // AO positive: the sum of the revised amounts owing of those whose scaled amount is positive.
    let mut positive = total_of_positive(balances, revised, n);
    let mut count = 0u64;
    // A loop whose `break` yields the rounds: it has two ways out, each of its own reason, and the definition counts the same rounds.
    let rounds = loop {
        // (1) before the first round: no scaled amount is negative. After a round: (5) has nothing more to take.
        if negative == 0 {
            break count;
        }
        // No balance is positive: none is above its V, so that AO positive is 0 only there. The clause is silent on it.
        if positive == 0 {
            break count;
        }
        // (4)(b): each positive balance loses its part of AP negative.
        let lost = losses(balances, negative, revised, positive, n);
        let left = excesses(balances, lost, n);
        // (5): (4) again, from what is left. No balance is below 0, as (a) has it; AP negative falls by all that was lost.
        negative = negative.saturating_sub(total(lost, n));
        positive = total_of_positive(left, revised, n);
        balances = left;
        count += 1;
    };
    Spent { rounds, balances }
}
