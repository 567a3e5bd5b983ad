// Entries written into lent bytes.
ghost use Rattle.std.specs.Prelude.{◌≡◌, ◌+◌, ◌≤◌, length, [], ◌∷◌};
ghost use Rattle.std.proofs.lemmas.List.Edits.{sets};
ghost use Rattle.book.specs.layouts.Fields.{field_bytes};
ghost use Rattle.book.specs.layouts.Entries.{kind_of, layout, fields_of, size};
ghost use Rattle.book.specs.layouts.Writing.{writing, written, write_number, write_outcome};
ghost use Rattle.book.specs.inner.Puts.{width_of, bytes_of_fields};

use crate::entries::Entry;
use crate::fields::Field::{Byte, Long, Word};
use crate::fields::{Field, put_fields};

// Why no byte was written: a field outside its values, or too few bytes lent; with the rules' numbers.
#[derive(Clone, Copy, Debug, PartialEq, Eq)]
pub enum WriteError {
    Outside = 3,
    NoRoom = 5,
}

impl WriteError {
    // The number that the rules give it.
    pub fn number(self) -> u64
        ensures { result ≡ write_number self }
    {
        // `as`: std has no From for the number of a variant.
        self as u64
    }
}

// The fields of energy and of an amount, which differ in the last two.
fn put_sided(out: &mut [u8], period: u32, participant: u8, side: u8, next: Field, last: Field)
    requires { 7 + width_of next + width_of last ≤ length out.old }
    ensures { out.new ≡ sets out.old 1 (bytes_of_fields (Field.Word period ∷ Field.Byte participant ∷ Field.Byte side ∷ next ∷ last ∷ [])) }
{
    let fields = [Word(period), Byte(participant), Byte(side), next, last];
    put_fields(out, &fields);
}

// Apart from `put_body`, which is long enough without this list of fields.
fn put_washup(
    out: &mut [u8],
    period: u32,
    earlier: u32,
    participant: u8,
    side: u8,
    old: u32,
    new: u32,
    price: u32,
)
    requires { 23 ≤ length out.old }
    ensures { out.new ≡ sets out.old 1 (field_bytes (layout 8) (period ∷ earlier ∷ participant ∷ side ∷ old ∷ new ∷ price ∷ [])) }
{
    let fields = [
        Word(period),
        Word(earlier),
        Byte(participant),
        Byte(side),
        Word(old),
        Word(new),
        Word(price),
    ];
    put_fields(out, &fields);
}

// The body of an entry, for which there is room behind the kind.
fn put_body(e: Entry, out: &mut [u8])
    requires { size e ≤ length out.old }
    ensures { out.new ≡ sets out.old 1 (field_bytes (layout (kind_of e)) (fields_of e)) }
{
    match e {
        Entry::Open { period } => put_fields(out, &[Word(period)]),
        Entry::Energy {
            period,
            participant,
            side,
            quantity,
            price,
        } => put_sided(out, period, participant, side, Word(quantity), Word(price)),
        Entry::Amount {
            period,
            participant,
            side,
            tier,
            cents,
        } => put_sided(out, period, participant, side, Byte(tier), Long(cents)),
        Entry::Notice { period } => put_fields(out, &[Word(period)]),
        Entry::Receipt {
            period,
            participant,
            cents,
        } => put_fields(out, &[Word(period), Byte(participant), Long(cents)]),
        Entry::Settle { period } => put_fields(out, &[Word(period)]),
        Entry::Purse { participant, cents } => put_fields(out, &[Byte(participant), Long(cents)]),
        Entry::Washup {
            period,
            earlier,
            participant,
            side,
            old,
            new,
            price,
        } => put_washup(out, period, earlier, participant, side, old, new, price),
    }
}

// Writes an entry of any field values into the lent bytes, from the first on, and says how many bytes it takes.
pub fn write_entry(e: Entry, out: &mut [u8]) -> Result<usize, WriteError>
    ensures { (write_outcome result ≡ writing e (length out.old)) × (out.new ≡ written e out.old) }
{
    if !e.is_allowed() {
        return Err(WriteError::Outside);
    }
    let kind = e.kind();
    let n = 1 + kind.body_length();
    if out.len() < n {
        return Err(WriteError::NoRoom);
    }
    out[0] = kind.number();
    put_body(e, out);
    Ok(n)
}
