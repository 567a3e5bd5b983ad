// A month's settlement, from its sums, what is payable and what was received, to the cents paid.
ghost use Rattle.std.specs.Prelude.{◌≡◌};
ghost use Rattle.exact.specs.Rows.{at};
ghost use Rattle.settlement.specs.Month.{month_of_sums, Bounded};
ghost use Rattle.settlement.specs.Notice.{Due};
ghost use Rattle.settlement.specs.Settling.{settled};

use crate::month::MonthSums;
use crate::scaling::Scaled;
use crate::spread::{Spent, spread};
use exact::Row;

// What a settlement hands on.
#[derive(Clone, Copy)]
pub struct Settled {
    pub rounds: u64,
    pub claims: Row,
    pub arrears: Row,
    pub paid: Row,
}

impl MonthSums {
    // The claims, arrears and cents paid of a month, and the rounds that ran.
    pub fn settle(&self, payables: Row, received: Row) -> Settled
        requires { Bounded (month_of_sums self.now) × Due (month_of_sums self.now) payables }
        ensures { (due : Due (month_of_sums self.now) payables) → result ≡ settled (month_of_sums self.now) due.retained (at received) }
    {
        let Scaled {
            claims,
            arrears,
            revised,
            above,
            below,
        } = self.scale(payables, received);
        let Spent { rounds, balances } = spread(above, below, revised, self.n);
        Settled {
            rounds,
            claims,
            arrears,
            paid: balances,
        }
    }
}
