// One period: its arrears, whether it leaves the book, and one just opened.
ghost use Rattle.std.specs.Prelude.{◌≡◌, true, ◌≤◌, ◌<◌, ◌^◌};
ghost use Rattle.exact.specs.Rows.{places, at, sum};
ghost use Rattle.book.specs.rules.Periods.{is_settled, fresh, leaves};
ghost use Rattle.book.specs.rules.State.{arrears_before};

use crate::{Period, SIDES, Stage};
use exact::{PLACES, total};
use settlement::TIERS;

impl Period {
    // A period just opened; number 0 is for a place not in use.
    #[tactic(auto, unfolding(crate::specs::rules::Periods::fresh, crate::specs::rules::Periods::zeros))]
    pub(crate) fn fresh(number: u32) -> Period
        ensures { result ≡ fresh number }
    {
        Period {
            number,
            stage: Stage::Opened,
            totals: [0; SIDES],
            by: [0; PLACES],
            to: [0; TIERS * PLACES],
            payable: [0; PLACES],
            received: [0; PLACES],
            paid: [0; PLACES],
            claim: [0; PLACES],
            arrears: [0; PLACES],
        }
    }

    // Whether the period is settled and earlier than a number, and i has arrears in it. Here and where purses and receipts are tested i
    // is a plain number below `places`: closures over the cells of a row are handed such numbers, so a type for it would be made anew.
    #[tactic(auto, unfolding(crate::specs::rules::State::arrears_before))]
    pub(crate) fn has_arrears_before(&self, i: usize, number: u32) -> bool
        requires { i < places }
        ensures { result ≡ arrears_before i number self.now }
    {
        self.number < number && self.stage == Stage::Settled && 0 < self.arrears[i]
    }

    // Whether the period is settled and has no arrears.
    #[tactic(auto, unfolding(crate::specs::rules::Periods::leaves))]
    pub(crate) fn is_leaving(&self, n: usize) -> bool
        requires { (n ≤ places) × (is_settled self.now.stage ≡ true → sum (at self.now.arrears) n < 2 ^ 64) }
        ensures { result ≡ leaves n self.now }
    {
        self.stage == Stage::Settled && total(self.arrears, n) == 0
    }
}
