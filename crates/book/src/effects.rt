// One entry and the period that it names: on acceptance the change, the cents held and the payout words.
ghost use Rattle.std.specs.Prelude.{◌≡◌};
ghost use Rattle.book.specs.inner.OnePeriod.{Affects, effect, effect_of};

use crate::allowed::Allowed;
use crate::answers::Refusal;
use crate::changes::change_period;
use crate::{Book, Period};
use exact::{put_cells, total};

// The rounds of a settlement, the period and the cents held afterwards, and the cents paid.
#[derive(Clone, Copy)]
pub struct Effect {
    pub rounds: u64,
    pub period: Period,
    pub held: u64,
    pub paid: u64,
}

impl Book {
    // What an entry makes of the period p of the book that it names; `barred` is whether another period refuses a receipt (14).
    pub(crate) fn apply_to_period(
        &self,
        p: Period,
        e: Allowed,
        barred: bool,
        words: &mut [u64],
    ) -> Result<Effect, Refusal>
        requires { Affects self.now.n self.now.grouping e.entry p self.now.held words.old }
        ensures { effect_of p self.now.held result words.new ≡ effect self.now.n self.now.grouping e.entry barred p self.now.held words.old }
    {
        p.period_answer(self.n, e, barred)?;
        let change = change_period(p, self.n, self.grouping, e);
        put_cells(words, self.n, change.pays);
        let paid = total(change.pays, self.n);
        Ok(Effect {
            rounds: change.rounds,
            period: change.period,
            held: self.held + e.entry.receipt_cents() - paid,
            paid,
        })
    }
}
