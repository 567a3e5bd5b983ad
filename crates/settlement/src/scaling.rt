// Steps 1 to 3 of settlement: claims, revised amounts from the available money, and scaled amounts.
ghost use Rattle.std.specs.Prelude.{◌≡◌};
ghost use Rattle.exact.specs.Rows.{at};
ghost use Rattle.settlement.specs.Month.{month_of_sums, Bounded};
ghost use Rattle.settlement.specs.Notice.{Due};
ghost use Rattle.settlement.specs.Settling.{scaled_amounts};

use crate::claims::Claimed;
use crate::month::MonthSums;
use crate::walk::meet_tiers;
use exact::{Row, excesses, sums, total};

// What steps 1 to 3 hand on. Scaled amounts are in two rows: `above` where they are positive, `below`, with the sign turned, where they
// are negative. They are not one row of signed cents, since `scaled_amounts` has the two and C callers get each in a slice of its own.
#[derive(Clone, Copy)]
pub struct Scaled {
    pub claims: Row,
    pub arrears: Row,
    pub revised: Row,
    pub above: Row,
    pub below: Row,
}

impl MonthSums {
    // The claims, revised amounts and scaled amounts of a month, from its sums, what is payable and what was received.
    pub fn scale(&self, payables: Row, received: Row) -> Scaled
        requires { Bounded (month_of_sums self.now) × Due (month_of_sums self.now) payables }
        ensures { (due : Due (month_of_sums self.now) payables) → result ≡ scaled_amounts (month_of_sums self.now) due.retained (at received) }
    {
        let n = self.n;
        let Claimed {
            owing,
            claims,
            arrears,
        } = self.claim(payables, received);
        let available = total(owing, n).saturating_sub(total(arrears, n));
        let revised = meet_tiers(self.to, available, n);
        let claims_and_revised = sums(claims, revised, n);
        let above = excesses(claims_and_revised, owing, n);
        let below = excesses(owing, claims_and_revised, n);
        Scaled {
            claims,
            arrears,
            revised,
            above,
            below,
        }
    }
}
