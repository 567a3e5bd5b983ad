// The places of a book: searched, filled and freed.
ghost use Rattle.std.specs.Prelude.{◌≡◌, ◌<◌, [], ◌∷◌, length, MatchOption};
ghost use Rattle.exact.specs.Rows.{places};
ghost use Rattle.book.specs.rules.State.{view, pack, find, held_in, held_by, earlier_arrears, removed, added, cents_held};
ghost use Rattle.book.specs.rules.Valid.{InBook, Valid};

use crate::{Book, PERIOD_PLACES, Period};

// The cents that the book holds.
pub fn held(b: Book) -> u64
    ensures { result ≡ cents_held b }
{
    b.held
}

impl Book {
    // The place in use that has the period of that number.
    pub(crate) fn place(&self, number: u32) -> Option<usize>
        ensures found { MatchOption result (find number (view self.now).periods ≡ self.now.count) (λ j. (j ≡ find number (view self.now).periods) × (j < self.now.count)) }
        ensures valid { Valid self.now }
    {
        let used = &self.periods[..self.count];
        used.iter().position(|p| p.number == number)
    }

    // Whether an earlier settled period has arrears of i.
    pub(crate) fn has_earlier_arrears(&self, i: usize, number: u32) -> bool
        requires { i < places }
        ensures { result ≡ earlier_arrears i number (view self.now).periods }
    {
        let used = &self.periods[..self.count];
        used.iter().any(|p| p.has_arrears_before(i, number))
    }

    // Adds a period of the highest number, the last.
    pub(crate) fn add_period(&mut self, p: Period)
        requires { (length (view self.old).periods < self.old.limits.periods) × InBook self.old.n self.old.grouping p × (held_in self.old.n (p ∷ []) ≡ 0) }
        ensures { self.new ≡ pack (added (view self.old) p) }
    {
        self.periods[self.count] = p;
        self.highest = p.number;
        self.count += 1;
    }

    // Takes a period out: the later ones move down, and the last place is not in use. `held` is what the book then holds.
    pub(crate) fn remove_period(&mut self, j: usize, held: u64)
        requires { (j < length (view self.old).periods) × (held ≡ held_by (removed (view self.old) j)) }
        ensures { self.new ≡ pack (removed (view self.old) j) }
    {
        self.count -= 1;
        self.held = held;
        self.periods[j..].rotate_left(1);
        self.periods[PERIOD_PLACES - 1] = Period::fresh(0);
    }
}
