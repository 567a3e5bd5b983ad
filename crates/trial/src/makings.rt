// What a call makes a book with. `as`, here and in `calling`: std has no From between usize and u64.
ghost use Rattle.std.specs.Prelude.{◌≤◌, length};

use crate::calls::long_at;
use book::{Limits, Making};
use settlement::Grouping;
use std::array;

// The groups and reserves of MAKE_GROUPED and MAKE_LIMITED.
fn grouping_at(s: &[u8]) -> Grouping
    requires { 585 ≤ length s.now }
{
    Grouping {
        groups: array::from_fn(|i| u64::from(s[9 + i])),
        reserves: array::from_fn(|i| long_at(s, 73 + 8 * i)),
    }
}

// The number of participants of each call.
fn participants_at(s: &[u8]) -> usize
    requires { 9 ≤ length s.now }
{
    long_at(s, 1) as usize
}

// MAKE: n, groups of one and no reserves, in a market book.
pub fn separate_at(s: &[u8]) -> Making
    requires { 9 ≤ length s.now }
{
    book::separate(participants_at(s), book::market())
}

// MAKE_GROUPED: n, the group numbers and the reserves, in a market book.
pub fn grouped_at(s: &[u8]) -> Making
    requires { 585 ≤ length s.now }
{
    Making {
        n: participants_at(s),
        grouping: grouping_at(s),
        limits: book::market(),
    }
}

// MAKE_LIMITED: as MAKE_GROUPED, then the participant limit and the period limit.
pub fn limited_at(s: &[u8]) -> Making
    requires { 601 ≤ length s.now }
{
    Making {
        limits: Limits {
            participants: long_at(s, 585) as usize,
            periods: long_at(s, 593) as usize,
        },
        ..grouped_at(s)
    }
}
