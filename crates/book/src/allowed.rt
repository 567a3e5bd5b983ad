// The values that fields may have, tested for reader, writer and book alike.
ghost use Rattle.std.specs.Prelude.{◌≡◌, true, false, not, MatchOption};
ghost use Rattle.book.specs.layouts.Allowed.{allowed, none, tier_outside, cents_outside, energy_outside, receipt_outside};

use crate::entries::Entry;
use exact::PLACES;
use settlement::TIERS;

// An entry each of whose fields has one of its values.
#[derive(Clone, Copy)]
pub(crate) struct Allowed {
    pub(crate) entry: Entry,
    ghost fields: { allowed entry ≡ true },
}

// `as`, in a constant, where no From can be called.
const PARTICIPANTS: u8 = PLACES as u8;

const LAST_TIER: u8 = TIERS as u8;

const QUANTITY_LIMIT: u32 = 100_000_000;

const PRICE_LIMIT: u32 = 10_000_000;

const CENTS_LIMIT: u64 = 10_000_000_000_000;

// Tier 0 with side 0, and 1 to 5 with side 1.
fn tier_allowed(side: u8, tier: u8) -> bool
    ensures { result ≡ not (tier_outside side tier) }
{
    if side == 0 {
        tier == 0
    } else {
        (1..=LAST_TIER).contains(&tier)
    }
}

fn cents_allowed(cents: u64) -> bool
    ensures { result ≡ none (cents_outside cents) }
{
    (1..=CENTS_LIMIT).contains(&cents)
}

fn energy_allowed(participant: u8, side: u8, quantity: u32, price: u32) -> bool
    ensures { result ≡ none (energy_outside participant side quantity price) }
{
    participant < PARTICIPANTS && side <= 1 && quantity <= QUANTITY_LIMIT && price <= PRICE_LIMIT
}

// Of a receipt, and of a purse entry.
fn receipt_allowed(participant: u8, cents: u64) -> bool
    ensures { result ≡ none (receipt_outside participant cents) }
{
    participant < PARTICIPANTS && cents_allowed(cents)
}

impl Entry {
    // Whether each field of an entry has one of its values.
    pub(crate) fn is_allowed(&self) -> bool
        ensures { result ≡ allowed self.now }
    {
        match *self {
            Entry::Energy {
                participant,
                side,
                quantity,
                price,
                ..
            } => energy_allowed(participant, side, quantity, price),
            Entry::Amount {
                participant,
                side,
                tier,
                cents,
                ..
            } => participant < PARTICIPANTS
                && side <= 1
                && tier_allowed(side, tier)
                && cents_allowed(cents),
            Entry::Receipt {
                participant,
                cents,
                ..
            }
            | Entry::Purse { participant, cents } => receipt_allowed(participant, cents),
            Entry::Washup {
                participant,
                side,
                old,
                new,
                price,
                ..
            } => old <= QUANTITY_LIMIT && energy_allowed(participant, side, new, price),
            Entry::Open { .. } | Entry::Notice { .. } | Entry::Settle { .. } => true,
        }
    }

    // The entry with what was tested, where each field has one of its values.
    pub(crate) fn checked(self) -> Option<Allowed>
        ensures { MatchOption result (allowed self ≡ false) (λ a. a.entry ≡ self) }
    {
        if !self.is_allowed() {
            return None;
        }
        Some(Allowed { entry: self })
    }
}
