// The kinds of entries, by the bytes that stand for them in calls and lines.
use crate::calls::Fields;
use book::Entry;

// The lowest kind.
pub const OPEN: u8 = 1;

pub const ENERGY: u8 = 2;

pub const AMOUNT: u8 = 3;

pub const NOTICE: u8 = 4;

pub const RECEIPT: u8 = 5;

pub const SETTLE: u8 = 6;

pub const PURSE: u8 = 7;

// The highest kind.
pub const WASHUP: u8 = 8;

// The entry of a kind that exists, with those of the fields that the kind has.
impl From<Fields> for Entry {
    fn from(f: Fields) -> Entry {
        let (period, participant, side, cents) = (f.period, f.participant, f.side, f.cents);
        match f.kind {
            OPEN => Entry::Open { period },
            ENERGY => Entry::Energy {
                period,
                participant,
                side,
                quantity: f.quantity,
                price: f.price,
            },
            AMOUNT => Entry::Amount {
                period,
                participant,
                side,
                tier: f.tier,
                cents,
            },
            NOTICE => Entry::Notice { period },
            RECEIPT => Entry::Receipt {
                period,
                participant,
                cents,
            },
            SETTLE => Entry::Settle { period },
            PURSE => Entry::Purse { participant, cents },
            _ => Entry::Washup {
                period,
                earlier: f.earlier,
                participant,
                side,
                old: f.old,
                new: f.quantity,
                price: f.price,
            },
        }
    }
}
