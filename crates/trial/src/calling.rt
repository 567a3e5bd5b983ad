// The calls of the book's functions, each with its line.
ghost use Rattle.std.specs.Prelude.{◌+◌, ◌≤◌, ◌<◌, length};
ghost use Rattle.trial.specs.Calls.{call_length};

use crate::calls::{Call, READ_LENGTH, fields_of, long_at};
use crate::kinds::{AMOUNT, ENERGY, NOTICE, OPEN, PURSE, RECEIPT, SETTLE, WASHUP};
use crate::lines::{Out, put_line};
use crate::makings::{grouped_at, limited_at, separate_at};
use book::{Book, Entry, Found, Made, Making};

// The most words, or bytes, that are lent.
const ROOM: usize = 255;

// What stands in each lent word, and in each lent byte, before a call.
const WORD: u64 = 9;

const BYTE: u8 = 238;

// Makes the book that all later calls go to.
fn make(m: Making, out: &mut Out) -> Book {
    let Made { answer, book } = book::new(m);
    put_line(out, b"book ", &[book::number(answer)], &[]);
    book
}

// Applies an entry: the answer, the rounds and the cents held, and each lent word as left.
fn apply(b: Book, s: &[u8], out: &mut Out) -> Book
    requires { 34 ≤ length s.now }
{
    let f = fields_of(s);
    let mut words = [WORD; ROOM];
    let lent = &mut words[..usize::from(f.room)];
    let r = book::apply(b, f.into(), lent);
    let answers = [book::number(r.answer), r.rounds, book::held(r.book)];
    put_line(out, b"apply ", &answers, lent);
    r.book
}

// Puts the line of a read that found an entry: the place after it, its kind, and its fields in the layout's order.
fn put_fields(out: &mut Out, next: usize, kind: u8, fields: &[u64])
    requires { length fields.now ≤ 8 }
{
    put_line(out, b"read ", &[0, next as u64, u64::from(kind)], fields);
}

// Puts the line of a read that found an entry.
// Long, an arm for each of the eight kinds: each of two functions would need an arm for the kinds of the other.
fn put_found(out: &mut Out, entry: Entry, next: usize) {
    match entry {
        Entry::Open { period } => put_fields(out, next, OPEN, &[period.into()]),
        Entry::Energy {
            period,
            participant,
            side,
            quantity,
            price,
        } => put_fields(
            out,
            next,
            ENERGY,
            &[
                period.into(),
                participant.into(),
                side.into(),
                quantity.into(),
                price.into(),
            ],
        ),
        Entry::Amount {
            period,
            participant,
            side,
            tier,
            cents,
        } => put_fields(
            out,
            next,
            AMOUNT,
            &[
                period.into(),
                participant.into(),
                side.into(),
                tier.into(),
                cents,
            ],
        ),
        Entry::Notice { period } => put_fields(out, next, NOTICE, &[period.into()]),
        Entry::Receipt {
            period,
            participant,
            cents,
        } => put_fields(
            out,
            next,
            RECEIPT,
            &[period.into(), participant.into(), cents],
        ),
        Entry::Settle { period } => put_fields(out, next, SETTLE, &[period.into()]),
        Entry::Purse { participant, cents } => {
            put_fields(out, next, PURSE, &[participant.into(), cents])
        }
        Entry::Washup {
            period,
            earlier,
            participant,
            side,
            old,
            new,
            price,
        } => put_fields(
            out,
            next,
            WASHUP,
            &[
                period.into(),
                earlier.into(),
                participant.into(),
                side.into(),
                old.into(),
                new.into(),
                price.into(),
            ],
        ),
    }
}

// Reads an entry.
fn read(s: &[u8], count: usize, out: &mut Out)
    requires { 11 + count ≤ length s.now }
{
    let place = long_at(s, 1) as usize;
    let bytes = &s[READ_LENGTH..READ_LENGTH + count];
    match book::read_next(bytes, place) {
        Ok(Found { entry, next }) => put_found(out, entry, next),
        Err(e) => put_line(out, b"read ", &[e.number(), place as u64], &[]),
    }
}

// Writes an entry: the answer, how many bytes were written, and each lent byte as left.
fn write(s: &[u8], out: &mut Out)
    requires { 34 ≤ length s.now }
{
    let f = fields_of(s);
    let mut bytes = [BYTE; ROOM];
    let lent = &mut bytes[..usize::from(f.room)];
    let (answer, written) = match book::write_entry(f.into(), lent) {
        Ok(count) => (0, count),
        Err(e) => (e.number(), 0),
    };
    let numbers = bytes.map(u64::from);
    put_line(
        out,
        b"write ",
        &[answer, written as u64],
        &numbers[..usize::from(f.room)],
    );
}

// Makes the call that stands at the start of s, and puts its line; answers the book that it leaves.
pub fn call(b: Book, c: Call, s: &[u8], out: &mut Out) -> Book
    requires { call_length c ≤ length s.now }
{
    match c {
        Call::Make => make(separate_at(s), out),
        Call::MakeGrouped => make(grouped_at(s), out),
        Call::MakeLimited => make(limited_at(s), out),
        Call::Apply => apply(b, s, out),
        Call::Read(count) => {
            read(s, usize::from(count), out);
            b
        }
        Call::Write => {
            write(s, out);
            b
        }
    }
}
