// Related groups: sums over the members of each, its shortfall, and sums over all who are outside it.
ghost use Rattle.std.specs.Prelude.{◌≡◌, ℕ, ◌+◌, ◌-◌, ◌^◌, ◌≤◌, ◌<◌};
ghost use Rattle.exact.specs.Rows.{places, at, sum, cells};
ghost use Rattle.settlement.specs.Groups.{group_count, grouping_allowed, group_sum, outside_sum, shortfall_with_reserve};

use exact::{Row, cells, largest, total};

// Group numbers are 0 to 63. `as` takes them to places and back below: std has no From between usize and u64.
pub const GROUPS: usize = 64;

// A group's GST reserve is at most this many cents.
const RESERVE_LIMIT: u64 = 10_000_000_000_000;

// A row with a cell for each group. There are as many group numbers as participants in a book, so functions of rows take it.
pub type GroupRow = [u64; GROUPS];

// The group number of each participant, and the GST reserve of each group in cents.
#[derive(Clone, Copy)]
pub struct Grouping {
    pub groups: Row,
    pub reserves: GroupRow,
}

// Whether the group numbers of n participants and all reserves are within their values.
pub fn is_grouping_allowed(grouping: Grouping, n: usize) -> bool
    requires { n ≤ places }
    ensures { result ≡ grouping_allowed n grouping }
{
    largest(grouping.groups, n) < GROUPS as u64
        && largest(grouping.reserves, GROUPS) <= RESERVE_LIMIT
}

// The sum of a row over the members of each group, in one pass over the participants. Here and below the sum of the row is bounded in a
// clause, as `total` of `exact` asks it of any row.
pub fn group_sums(a: Row, groups: Row, n: usize) -> GroupRow
    requires { (n ≤ places) × (sum (at a) n < 2 ^ 64) × ((i : ℕ) → i < n → at groups i < group_count) }
    ensures { result ≡ cells (group_sum (at groups) n (at a)) group_count }
{
    let mut out = [0u64; GROUPS];
    for (cents, group) in a[..n].iter().zip(groups[..n].iter()) {
        out[*group as usize] += *cents;
    }
    out
}

// The sum of a row over all who are outside each group: g, where the row is G.
pub fn outside_sums(a: Row, groups: Row, n: usize) -> GroupRow
    requires { (n ≤ places) × (sum (at a) n < 2 ^ 64) × ((i : ℕ) → i < n → at groups i < group_count) }
    ensures { result ≡ cells (outside_sum (at groups) n (at a)) group_count }
{
    let inside = group_sums(a, groups, n);
    let whole = total(a, n);
    cells(GROUPS, |k| whole - inside[k])
}

// s of a group, from the sums of what is owing by its members and to them, and its reserve.
fn shortfall_with_reserve(by: u64, to: u64, reserve: u64) -> u64
    requires { by - to + reserve < 2 ^ 64 }
    ensures { result ≡ shortfall_with_reserve by to reserve }
{
    if to < by { by - to + reserve } else { 0 }
}

// s of each group.
pub fn shortfalls(by: GroupRow, to: GroupRow, reserves: GroupRow) -> GroupRow
    requires { (k : ℕ) → k < group_count → at by k - at to k + at reserves k < 2 ^ 64 }
    ensures { result ≡ cells (λ k. shortfall_with_reserve (at by k) (at to k) (at reserves k)) group_count }
{
    cells(
        GROUPS,
        |k| shortfall_with_reserve(by[k], to[k], reserves[k]),
    )
}
