// What an entry is answered by the period that it names, and an opening by the book.
ghost use Rattle.std.specs.Prelude.{◌≡◌, ◌≤◌, ◌<◌};
ghost use Rattle.exact.specs.Rows.{places, at};
ghost use Rattle.settlement.specs.Month.{side_limit};
ghost use Rattle.book.specs.Checks.{refusal};
ghost use Rattle.book.specs.rules.State.{view};
ghost use Rattle.book.specs.rules.Refusals.{receivable, side_checks, open_checks, notice_checks, receipt_checks, settle_checks, period_checks};
ghost use Rattle.book.specs.rules.Valid.{Sound};
ghost use Rattle.book.specs.rules.Answers.{number_of};

use crate::allowed::Allowed;
use crate::answers::{Answer, Refusal};
use crate::entries::Entry;
use crate::kinds::Addition;
use crate::{Book, Period, Stage};
use exact::excess;
use settlement::SIDE_LIMIT;

impl Book {
    // 6, 7: an opening of period k.
    pub(crate) fn opening_answer(&self, k: u32) -> Answer
        ensures { number_of result ≡ refusal (open_checks (view self.now) k) }
    {
        if k <= self.highest {
            return Err(Refusal::NotAbove);
        }
        if self.limits.periods <= self.count {
            return Err(Refusal::Full);
        }
        Ok(())
    }
}

impl Period {
    // 12, 9, 16, 11: cents added to a side of the period.
    pub(crate) fn amount_answer(&self, n: usize, a: Addition, misdated: bool) -> Answer
        requires { (a.side < 2) × (at self.now.totals a.side ≤ side_limit) × (a.cents ≤ side_limit) }
        ensures { number_of result ≡ refusal (side_checks n self.now.stage (at self.now.totals a.side) a.participant misdated a.cents) }
    {
        if n <= a.participant {
            return Err(Refusal::NotAParticipant);
        }
        if self.stage != Stage::Opened {
            return Err(Refusal::WrongStage);
        }
        if misdated {
            return Err(Refusal::Misdated);
        }
        if SIDE_LIMIT < self.totals[a.side] + a.cents {
            return Err(Refusal::PastBound);
        }
        Ok(())
    }

    // 9, 10.
    fn notice_answer(&self, n: usize) -> Answer
        requires { Sound n self.now }
        ensures { number_of result ≡ refusal (notice_checks n self.now) }
    {
        if self.stage != Stage::Opened {
            return Err(Refusal::WrongStage);
        }
        if self.totals[0] != self.totals[1] {
            return Err(Refusal::Unequal);
        }
        Ok(())
    }

    // What may still be received from i.
    #[tactic(auto, unfolding(crate::specs::rules::Refusals::receivable))]
    fn receivable_from(&self, i: usize) -> u64
        requires { i < places }
        ensures { result ≡ receivable self.now i }
    {
        if self.stage == Stage::Settled {
            self.arrears[i]
        } else {
            excess(self.payable[i], self.received[i])
        }
    }

    // 12, 9, 14, 13.
    fn receipt_answer(&self, n: usize, i: usize, barred: bool, cents: u64) -> Answer
        requires { i < places }
        ensures { number_of result ≡ refusal (receipt_checks n barred self.now i cents) }
    {
        if n <= i {
            return Err(Refusal::NotAParticipant);
        }
        if self.stage == Stage::Opened {
            return Err(Refusal::WrongStage);
        }
        if barred {
            return Err(Refusal::EarlierArrears);
        }
        if self.receivable_from(i) < cents {
            return Err(Refusal::TooMuch);
        }
        Ok(())
    }

    // 9.
    fn settle_answer(&self) -> Answer
        ensures { number_of result ≡ refusal (settle_checks self.now) }
    {
        if self.stage != Stage::Noticed {
            return Err(Refusal::WrongStage);
        }
        Ok(())
    }

    // The checks of each kind on its period; `barred` is whether another period refuses a receipt (14).
    pub(crate) fn period_answer(&self, n: usize, e: Allowed, barred: bool) -> Answer
        requires { Sound n self.now }
        ensures { number_of result ≡ refusal (period_checks n barred e.entry self.now) }
    {
        if let Some(a) = e.addition() {
            return self.amount_answer(n, a, e.entry.is_misdated());
        }
        match e.entry {
            Entry::Notice { .. } => self.notice_answer(n),
            Entry::Receipt {
                participant,
                cents,
                ..
            } => self.receipt_answer(n, usize::from(participant), barred, cents),
            Entry::Settle { .. } => self.settle_answer(),
            _ => Ok(()),
        }
    }
}
