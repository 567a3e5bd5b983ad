// The limits of a book.
ghost use Rattle.std.specs.Prelude.{◌≡◌};
ghost use Rattle.book.specs.rules.Limits.{market, demonstration, within};

use crate::PERIOD_PLACES;
use exact::PLACES;

// The most participants that a book can be made for, and the most periods that can be in it.
#[derive(Clone, Copy)]
pub struct Limits {
    pub participants: usize,
    pub periods: usize,
}

// The market's limits: as many as there are places. These and those of a demonstration are two functions by name, as in the
// definitions `market` and `demonstration`, for callers above.
pub fn market() -> Limits
    ensures { result ≡ market }
{
    Limits {
        participants: PLACES,
        periods: PERIOD_PLACES,
    }
}

// Those of a demonstration book.
pub fn demonstration() -> Limits
    ensures { result ≡ demonstration }
{
    Limits {
        participants: 8,
        periods: 3,
    }
}

// Whether a number is 1 to the most.
pub fn is_within(x: usize, most: usize) -> bool
    ensures { result ≡ within most x }
{
    (1..=most).contains(&x)
}
