// The walk through the tiers: money meets them in order, in settlement and with late money alike.
ghost use Rattle.std.specs.Prelude.{◌≡◌, ℕ, ◌+◌, ◌^◌, ◌≤◌, ◌<◌};
ghost use Rattle.exact.specs.Rows.{places, at, sum, cells};
ghost use Rattle.settlement.specs.Month.{side_limit, tier_at, over_tiers};
ghost use Rattle.settlement.specs.Sharing.{share_by_weight, Shareable};
ghost use Rattle.settlement.specs.Tiers.{share, met};

use crate::owing::{TIERS, TierCells, tier};
use crate::sharing::share_by_weight;
use exact::{PLACES, Row, total};

// Adds to what each of n participants has what it gets here. In place, here and below: a new row for each tier would be copied.
fn add_shares(out: &mut Row, shares: &Row, n: usize)
    requires { (n ≤ places) × (out.old ≡ cells (at out.old) n) × ((i : ℕ) → i < n → at out.old i + at shares.now i < 2 ^ 64) }
    ensures { out.new ≡ cells (λ i. at out.old i + at shares.now i) n }
{
    for (i, cents) in out[..n].iter_mut().enumerate() {
        *cents += shares[i];
    }
}

// Adds to what each of n participants has its share by weight of the money left for a tier that cannot be met. By itself, so that
// no row for shares is filled where a tier is met.
fn add_by_weight(out: &mut Row, wanted: &Row, left: u64, whole: u64, n: usize)
    requires { (n ≤ places) × (whole ≤ side_limit) × Shareable (at wanted.now) left whole n × (out.old ≡ cells (at out.old) n) × ((i : ℕ) → i < n → at out.old i + share_by_weight (at wanted.now) left whole n i < 2 ^ 64) }
    ensures { out.new ≡ cells (λ i. at out.old i + share_by_weight (at wanted.now) left whole n i) n }
{
    let shares = share_by_weight(*wanted, left, whole, n);
    add_shares(out, &shares, n);
}

// Adds to what each of n participants has what a tier gives it of the money left, where `whole` is its total: all that it wants
// where it can be met, else shares by what it wants.
fn tier_share(out: &mut Row, wanted: &Row, left: u64, whole: u64, n: usize)
    requires { (n ≤ places) × (whole ≡ sum (at wanted.now) n) × (whole ≤ side_limit) × (out.old ≡ cells (at out.old) n) × ((i : ℕ) → i < n → at out.old i + share n (at wanted.now) left i < 2 ^ 64) }
    ensures { out.new ≡ cells (λ i. at out.old i + share n (at wanted.now) left i) n }
{
    // Where nothing is left, every share is 0, and no division is needed to find that.
    if whole <= left {
        add_shares(out, wanted, n);
    } else if 0 < left {
        add_by_weight(out, wanted, left, whole, n);
    }
}

// What each of n participants gets of the money over all tiers, where tier t wants what `wanted` has there.
pub fn meet_tiers(wanted: TierCells, money: u64, n: usize) -> Row
    requires { (n ≤ places) × (sum (over_tiers (tier_at wanted)) n ≤ side_limit) }
    ensures { result ≡ cells (met n (tier_at wanted) money) n }
{
    let mut out = [0u64; PLACES];
    let mut left = money;
    // A counted loop, since `tier` takes the number of the tier.
    for t in 0..TIERS {
        let row = tier(&wanted, t, n);
        let whole = total(row, n);
        tier_share(&mut out, &row, left, whole, n);
        left = left.saturating_sub(whole);
    }
    out
}
