// Entries read at a place of lent bytes.
ghost use Rattle.std.specs.Prelude.{◌≡◌, ◌≤◌, length, true, MatchResult};
ghost use Rattle.book.specs.layouts.Fields.{fields_at};
ghost use Rattle.book.specs.layouts.Entries.{body_length, kind_number, unknown, layout, entry_of};
ghost use Rattle.book.specs.declared.reader.ReadError.TheVariants.{Unknown};
ghost use Rattle.book.specs.layouts.Reading.{reading, read_number, read_outcome};

use crate::entries::{Entry, Kind};
use crate::fields::Fields;

// An entry that was read, and the place after it.
#[derive(Clone, Copy)]
pub struct Found {
    pub entry: Entry,
    pub next: usize,
}

// Why no entry was read: too few bytes, an unknown kind, or a field outside its values; with the rules' numbers.
#[derive(Clone, Copy, Debug, PartialEq, Eq)]
pub enum ReadError {
    Short = 1,
    Unknown = 2,
    Outside = 3,
}

impl ReadError {
    // The number that the rules give it.
    pub fn number(self) -> u64
        ensures { result ≡ read_number self }
    {
        // `as`: std has no From for the number of a variant.
        self as u64
    }
}

impl TryFrom<u8> for Kind {
    type Error = ReadError;

    ghost try_from_gives = { λ number r. MatchResult r (λ kind. kind_number kind ≡ number) (λ e. (e ≡ Unknown) × (unknown number ≡ true)) };

    fn try_from(number: u8) -> Result<Kind, ReadError> {
        match number {
            1 => Ok(Kind::Open),
            2 => Ok(Kind::Energy),
            3 => Ok(Kind::Amount),
            4 => Ok(Kind::Notice),
            5 => Ok(Kind::Receipt),
            6 => Ok(Kind::Settle),
            7 => Ok(Kind::Purse),
            8 => Ok(Kind::Washup),
            _ => Err(ReadError::Unknown),
        }
    }
}

// Kinds of many fields have functions of their own, which keeps `entry_of` short.
#[tactic(auto, using(crate::proofs::layouts::FieldLaws::fields_next), unfolding(crate::specs::layouts::Entries::entry_of))]
fn energy(mut f: Fields) -> Entry
    requires { 14 ≤ length f.rest.now }
    ensures { result ≡ entry_of 2 (fields_at (layout 2) f.entry.rest.now 0) }
{
    Entry::Energy {
        period: f.word(),
        participant: f.byte(),
        side: f.byte(),
        quantity: f.word(),
        price: f.word(),
    }
}

#[tactic(auto, using(crate::proofs::layouts::FieldLaws::fields_next), unfolding(crate::specs::layouts::Entries::entry_of))]
fn amount(mut f: Fields) -> Entry
    requires { 15 ≤ length f.rest.now }
    ensures { result ≡ entry_of 3 (fields_at (layout 3) f.entry.rest.now 0) }
{
    Entry::Amount {
        period: f.word(),
        participant: f.byte(),
        side: f.byte(),
        tier: f.byte(),
        cents: f.long(),
    }
}

fn washup(mut f: Fields) -> Entry
    requires { 22 ≤ length f.rest.now }
    ensures { result ≡ entry_of 8 (fields_at (layout 8) f.entry.rest.now 0) }
{
    Entry::Washup {
        period: f.word(),
        earlier: f.word(),
        participant: f.byte(),
        side: f.byte(),
        old: f.word(),
        new: f.word(),
        price: f.word(),
    }
}

// The entry of a kind, from the bytes of its body.
#[tactic(auto, using(crate::proofs::layouts::FieldLaws::fields_next), unfolding(crate::specs::layouts::Entries::entry_of))]
fn entry_of(kind: Kind, mut f: Fields) -> Entry
    requires { body_length (kind_number kind) ≤ length f.rest.now }
    ensures { let number = kind_number kind in result ≡ entry_of number (fields_at (layout number) f.entry.rest.now 0) }
{
    match kind {
        Kind::Open => Entry::Open { period: f.word() },
        Kind::Energy => energy(f),
        Kind::Amount => amount(f),
        Kind::Notice => Entry::Notice { period: f.word() },
        Kind::Receipt => Entry::Receipt {
            period: f.word(),
            participant: f.byte(),
            cents: f.long(),
        },
        Kind::Settle => Entry::Settle { period: f.word() },
        Kind::Purse => Entry::Purse {
            participant: f.byte(),
            cents: f.long(),
        },
        Kind::Washup => washup(f),
    }
}

// The entry at a place, which may lie past the end.
pub fn read_entry(s: &[u8], place: usize) -> Result<Found, ReadError>
    ensures { read_outcome place result ≡ reading s.now place }
{
    let number = *s.get(place).ok_or(ReadError::Short)?;
    let kind = Kind::try_from(number)?;
    let next = place + 1 + kind.body_length();
    let body = s.get(place + 1..next).ok_or(ReadError::Short)?;
    let entry = entry_of(kind, Fields::new(body));
    if !entry.is_allowed() {
        return Err(ReadError::Outside);
    }
    Ok(Found { entry, next })
}
