// Slices that a caller lends: their first cells taken into arrays, and their totals up to a side's limit.
ghost use Rattle.std.specs.Prelude.{◌≡◌, ◌+◌, ◌≤◌, min, length};
ghost use Rattle.exact.specs.Rows.{at, sum};
ghost use Rattle.settlement.specs.Month.{side_limit};
ghost use Rattle.exports.specs.Slices.{front};

use settlement::SIDE_LIMIT;

// The sum of the first cells, so many, or a cent above a side's limit where it passes that.
pub fn side_total(s: &[u64], count: usize) -> u64
    requires { count ≤ length s.now }
    ensures { result ≡ min (sum (at s.now) count) (side_limit + 1) }
{
    let mut room = SIDE_LIMIT;
    // A loop that leaves at the cell that passes the limit: a fold would go through all of them.
    for cents in &s[..count] {
        if room < *cents {
            return SIDE_LIMIT + 1;
        }
        room -= *cents;
    }
    SIDE_LIMIT - room
}

// The first cells, as many as the array takes.
pub fn front<const N: usize>(s: &[u64]) -> [u64; N]
    requires { N ≤ length s.now }
    ensures { result ≡ front N s.now }
{
    *s.first_chunk().unwrap()
}
