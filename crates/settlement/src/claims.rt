// Step 1 of settlement: what is unpaid, set off against retention, in arrears, and what each participant can claim.
ghost use Rattle.std.specs.Prelude.{◌≡◌};
ghost use Rattle.exact.specs.Rows.{at};
ghost use Rattle.settlement.specs.Month.{month_of_sums, Bounded};
ghost use Rattle.settlement.specs.Notice.{Due};
ghost use Rattle.settlement.specs.Claims.{claimed};

use crate::month::MonthSums;
use crate::owing::over_tiers;
use exact::{Row, excesses, minima, sums};

// What step 1 hands on.
#[derive(Clone, Copy)]
pub struct Claimed {
    pub owing: Row,
    pub claims: Row,
    pub arrears: Row,
}

impl MonthSums {
    // The claims and arrears of a month. Where anything is unpaid the full claim is the retention, so that the set-off needs
    // no retention reckoned anew.
    pub(crate) fn claim(&self, payables: Row, received: Row) -> Claimed
        requires { Bounded (month_of_sums self.now) × Due (month_of_sums self.now) payables }
        ensures { (due : Due (month_of_sums self.now) payables) → result ≡ claimed (month_of_sums self.now) due.retained (at received) }
    {
        let n = self.n;
        let owing = over_tiers(self.to, n);
        let owing_and_payable = sums(owing, payables, n);
        let full = excesses(owing_and_payable, self.by, n);
        let unpaid = excesses(payables, received, n);
        let set_off = minima(unpaid, full, n);
        let arrears = excesses(unpaid, set_off, n);
        let claims = excesses(full, set_off, n);
        Claimed {
            owing,
            claims,
            arrears,
        }
    }
}
