// Retention: what each participant could lose from tier 5 if one of the groups of related participants, its own included,
// fails.
ghost use Rattle.std.specs.Prelude.{◌≡◌, ℕ, ◌^◌, ◌≤◌, ◌<◌};
ghost use Rattle.exact.specs.Rows.{places, at, largest, cells};
ghost use Rattle.settlement.specs.Notice.{gives};
ghost use Rattle.settlement.specs.Groups.{group_count};

use crate::groups::{GROUPS, GroupRow};
use exact::{Row, cells, largest, proportion_up};

// What a group, with the shortfall s and the tier 5 total g outside it, gives a participant whose tier 5 part is `part`. The
// bounds of g and the part stand in the clauses: they come from cells of rows, which are plain numbers.
fn gift(s: u64, g: u64, part: u64) -> u64
    requires { (g < 2 ^ 44) × (part < 2 ^ 44) }
    ensures { result ≡ gives s g part }
{
    if g == 0 || s == 0 {
        return 0;
    }
    if g <= s {
        return part;
    }
    proportion_up(part, s, g)
}

// The largest that any group gives such a participant.
fn largest_gift(shortfalls: &GroupRow, outside: &GroupRow, part: u64) -> u64
    requires { (part < 2 ^ 44) × ((k : ℕ) → k < group_count → at outside.now k < 2 ^ 44) }
    ensures { result ≡ largest (λ k. gives (at shortfalls.now k) (at outside.now k) part) group_count }
{
    let gifts = cells(GROUPS, |k| gift(shortfalls[k], outside[k], part));
    largest(gifts, GROUPS)
}

// The largest gift to each participant: its retention, where `parts` is the row of tier 5.
pub fn largest_gifts(shortfalls: GroupRow, outside: GroupRow, parts: Row, n: usize) -> Row
    requires { (n ≤ places) × ((k : ℕ) → k < group_count → at outside k < 2 ^ 44) × ((i : ℕ) → i < n → at parts i < 2 ^ 44) }
    ensures { result ≡ cells (λ i. largest (λ k. gives (at shortfalls k) (at outside k) (at parts i)) group_count) n }
{
    cells(n, |i| largest_gift(&shortfalls, &outside, parts[i]))
}
