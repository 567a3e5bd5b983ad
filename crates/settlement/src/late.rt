// Late money: what is missing of each claim, tier by tier, and what money pays of it.
ghost use Rattle.std.specs.Prelude.{◌≡◌, ◌-◌, ◌≤◌, min};
ghost use Rattle.exact.specs.Rows.{places, at, sum, cells};
ghost use Rattle.settlement.specs.Month.{side_limit, tier_at, tier_cells, over_tiers};
ghost use Rattle.settlement.specs.Late.{shortage, late_payment};

use crate::owing::{TIERS, TierCells, tiers_before};
use crate::walk::meet_tiers;
use exact::{Row, cells};

// What is missing in tier t of a claim, of which some was paid, whose owner has `own` in this tier and `before` in those before it.
fn missing(own: u64, before: u64, claim: u64, paid: u64) -> u64
    ensures { result ≡ min own (claim - before) - min own (paid - before) }
{
    let claimed = own.min(claim.saturating_sub(before));
    let had = own.min(paid.saturating_sub(before));
    claimed.saturating_sub(had)
}

// What is missing of each claim in each tier.
pub fn shortages(to: TierCells, claims: Row, paid: Row, n: usize) -> TierCells
    requires { (n ≤ places) × (sum (over_tiers (tier_at to)) n ≤ side_limit) }
    ensures { result ≡ tier_cells (shortage (tier_at to) (at claims) (at paid)) n }
{
    cells(TIERS * n, |k| {
        let i = k / TIERS;
        let before = tiers_before(&to, i, k % TIERS);
        missing(to[k], before, claims[i], paid[i])
    })
}

// What each of n participants gets of the money: what is held of the period, the late receipt added.
pub fn late_payments(to: TierCells, claims: Row, paid: Row, money: u64, n: usize) -> Row
    requires { (n ≤ places) × (sum (over_tiers (tier_at to)) n ≤ side_limit) }
    ensures { result ≡ cells (late_payment (tier_at to) (at claims) (at paid) n money) n }
{
    let wanted = shortages(to, claims, paid, n);
    meet_tiers(wanted, money, n)
}
