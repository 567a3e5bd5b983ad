// Purses for money paid early: what is added to one, and what a settlement draws from them.
ghost use Rattle.std.specs.Prelude.{◌≡◌, cond, ℕ, ◌-◌, ◌≤◌, ◌<◌, min};
ghost use Rattle.exact.specs.Rows.{places, at};
ghost use Rattle.book.specs.Checks.{refusal};
ghost use Rattle.book.specs.layouts.Allowed.{cents_limit};
ghost use Rattle.book.specs.rules.Answers.{number_of};
ghost use Rattle.book.specs.rules.Periods.{is_noticed};
ghost use Rattle.book.specs.rules.Purses.{with_drawn, purses_left};
ghost use Rattle.book.specs.rules.Refusals.{purse_checks};
ghost use Rattle.book.specs.rules.State.{view, earlier_arrears};
ghost use Rattle.book.specs.rules.Valid.{Sound};

use crate::answers::{Answer, Refusal};
use crate::{Book, Period, Stage};
use exact::{Row, cells, excesses, minima, sums, total};

const PURSE_LIMIT: u64 = 10_000_000_000_000;

impl Book {
    // 12, 15: cents for the purse of i.
    pub(crate) fn purse_answer(&self, i: usize, cents: u64) -> Answer
        requires { (i < places) × (cents ≤ cents_limit) }
        ensures { number_of result ≡ refusal (purse_checks (view self.now) i cents) }
    {
        if self.n <= i {
            return Err(Refusal::NotAParticipant);
        }
        if PURSE_LIMIT < self.purses[i] + cents {
            return Err(Refusal::PursePastBound);
        }
        Ok(())
    }

    // The purses that may be drawn on when a period of that number settles: those of payers without arrears in an older one. The
    // periods are looked at only where there is something to draw.
    pub(crate) fn drawable_purses(&self, number: u32) -> Row
        ensures { (i : ℕ) → i < self.now.n → at result i ≡ cond (earlier_arrears i number (view self.now).periods) 0 (at self.now.purses i) }
    {
        if total(self.purses, self.n) == 0 {
            return self.purses;
        }
        cells(self.n, |i| {
            if self.has_earlier_arrears(i, number) {
                0
            } else {
                self.purses[i]
            }
        })
    }
}

impl Period {
    // Moves what a settle entry draws from the purses into the period, once that is noticed; `drawable` are the purses that may be
    // drawn on.
    pub(crate) fn draw(&mut self, purses: &mut Row, drawable: Row, n: usize)
        requires { Sound n self.old }
        ensures { let drawn : ℕ → ℕ = λ i. min (at drawable i) (at self.old.payable i - at self.old.received i) in
            (self.new ≡ cond (is_noticed self.old.stage) (with_drawn n drawn self.old) self.old) × (purses.new ≡ cond (is_noticed self.old.stage) (purses_left n drawn purses.old) purses.old) }
    {
        if self.stage != Stage::Noticed {
            return;
        }
        let unpaid = excesses(self.payable, self.received, n);
        let drawn = minima(drawable, unpaid, n);
        self.received = sums(self.received, drawn, n);
        *purses = excesses(*purses, drawn, n);
    }
}
