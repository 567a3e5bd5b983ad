// A block of the input.
ghost use Rattle.std.specs.Prelude.{◌≡◌, ◌≤◌, ◌++◌, length, false, if◌then◌else◌, ◌==◌};
ghost use Rattle.book.specs.layouts.Reading.{read_number, read_outcome, reading};
ghost use Rattle.lister.specs.Listing.{end_line};
ghost use Rattle.lister.specs.Turns.{waiting};
ghost use Rattle.lister.specs.inner.Blocks.{Ready, BlockListed};
ghost use Rattle.lister.specs.declared.blocks.Next.TheVariants.{Again};

use crate::lines::put_line;
use crate::runs::{Work, list_runs};
use book::{Book, Found, ReadError};
use text::Buffer;

// The bytes of a block of output.
pub const OUT: usize = 262144;

pub type Out = Buffer<OUT>;

// Where more bytes of output than this wait they are written out first: behind so many there is room for the lines of 512
// entries and of all payouts.
pub const WAITING: usize = 212992;

// What is to be done once the output is written: list on in the block, read more of the input, or nothing. An enum of its own,
// no closure: the three cases are read in one place, the match of `list_blocks`.
#[derive(Clone, Copy, PartialEq, Eq, Debug)]
pub enum Next {
    Again,
    Read,
    Done,
}

// Where a listing stands in a block: the book, the number and the place of the next entry, and what is to be done next.
#[derive(Clone, Copy)]
pub struct Standing {
    pub book: Book,
    pub number: u64,
    pub place: usize,
    pub next: Next,
}

impl Standing {
    // Where a listing stands before its first entry, behind n.
    pub fn at_first(book: Book) -> Self
        ensures { result ≡ record { book = book; number = 1; place = 1; next = Again } }
    {
        Standing {
            book,
            number: 1,
            place: 1,
            next: Next::Again,
        }
    }
}

// The end of a listing before the bytes left, where no entry was read: the line of an entry that cannot be read, where there are
// any bytes.
#[tactic(auto, using(crate::proofs::BlockTurns::end_none, crate::proofs::BlockTurns::end_some))]
fn put_end(out: &mut Out, number: u64, error: ReadError, held: u64, left: &[u8])
    requires room { length out.old ≤ waiting }
    requires read { read_number error ≡ (reading left.now 0).answer }
    ensures { out.new ≡ out.old ++ end_line number held left.now }
{
    if left.is_empty() {
        return;
    }
    put_line(out, number, error.number(), 0, held);
}

// Whether more of the input is awaited: the bytes left are short, and the input has not ended.
fn is_awaited(reading: &Result<Found, ReadError>, ended: bool) -> bool
    ensures { result ≡ (if ended then false else ((read_outcome 0 reading.now).answer == 1)) }
{
    !ended && matches!(reading, Err(ReadError::Short))
}

// Lists a block from a place on: until output waits, the bytes left are short and more are to come, or the listing is whole.
// Of the payout words those from n on are as they were first lent; the lines are free.
pub fn list_block(start: Standing, feed: &[u8], ended: bool, work: &mut Work) -> Standing
    requires { Ready feed.now start work.old.words }
    ensures { BlockListed feed.now start ended result work.new.out work.new.words }
{
    let s = list_runs(start, feed, work);
    if WAITING < work.out.len() {
        return s;
    }
    let left = &feed[s.place..];
    let reading = book::read_next(left, 0);
    if is_awaited(&reading, ended) {
        return Standing {
            next: Next::Read,
            ..s
        };
    }
    if let Err(error) = reading {
        put_end(&mut work.out, s.number, error, book::held(s.book), left);
    }
    Standing {
        next: Next::Done,
        ..s
    }
}
