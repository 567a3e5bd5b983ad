// The input, block after block. The contracts count the bytes: that those which were read are those listed, and those listed
// the ones written, is to be read here.
ghost use Rattle.std.specs.Prelude.{◌≡◌, []};
ghost use Rattle.lister.specs.Listing.{book_for, lent};
ghost use Rattle.lister.specs.Sessions.{Session};
ghost use Rattle.lister.specs.inner.Blocks.{Begun};

use crate::blocks::{Next, Standing, list_block};
use crate::ends::{End, Ending, why_ended};
use crate::lines::{WORDS, header};
use crate::runs::{LINES, Work};
use book::{Book, Limits};
use std::io::{Read, Write};
use text::{Buffer, Input, Output};

// The bytes of a block of input.
const BLOCK: usize = 65536;

type Block = Buffer<BLOCK>;

// The most turns: the largest number of 64 bits.
const TURNS: u64 = u64::MAX;

// The book of a listing: each participant is in a group of its own, and no group has a reserve.
fn first_book(limits: Limits, n: u8) -> Book
    ensures { result ≡ book_for limits n }
{
    book::new(book::separate(usize::from(n), limits)).book
}

// Lists block after block, in a book for n, which is the first byte. Each turn lists, writes out what was listed and, where the
// bytes left are short, moves them to the front and reads behind them.
fn list_blocks<R: Read, W: Write>(
    from: &mut R,
    to: &mut W,
    limits: Limits,
    mut input: Input,
    mut output: Output,
    feed: &mut Block,
    work: &mut Work,
) -> Ending
    requires { Begun input output feed.old work.old.words }
    ensures { Session limits result }
{
    let mut s = Standing::at_first(first_book(limits, feed.bytes()[0]));
    // Counted, since every loop is proved to end and no function has a Wait bound. From 0, and no `1..=TURNS`: the invariant counts the turns done; of that range each proof would also say what is left.
    for done in 0..TURNS {
        let turns = done + 1;
        s = list_block(s, feed.bytes(), input.has_ended(), work);
        output.write_out(to, work.out.bytes());
        if !output.is_written() {
            return Ending::new(End::NotWritten, turns, input, output);
        }
        match s.next {
            Next::Again => {}
            Next::Read => {
                feed.drop_front(s.place);
                s.place = 0;
                input.read_more(from, feed);
                if input.has_failed() {
                    return Ending::new(End::NotRead, turns, input, output);
                }
            }
            Next::Done => return Ending::new(why_ended(&input), turns, input, output),
        }
    }
    Ending::new(End::Turns, TURNS, input, output)
}

// Writes the header, reads n and lists the entries behind it.
fn list_input<R: Read, W: Write>(
    from: &mut R,
    to: &mut W,
    limits: Limits,
    feed: &mut Block,
    work: &mut Work,
) -> Ending
    requires { (feed.old ≡ []) × (work.old.words ≡ lent) }
    ensures { Session limits result }
{
    let mut input = Input::unread();
    let mut output = Output::unwritten();
    output.write_out(to, header());
    if !output.is_written() {
        return Ending::new(End::NotWritten, 0, input, output);
    }
    input.read_more(from, feed);
    if feed.len() == 0 {
        return Ending::new(why_ended(&input), 0, input, output);
    }
    list_blocks(from, to, limits, input, output, feed, work)
}

// Lists an input on an output, in a book of these limits.
pub fn list<R: Read, W: Write>(from: &mut R, to: &mut W, limits: Limits) -> Ending
    ensures { Session limits result }
{
    let mut feed = Buffer::new();
    let mut work = Work {
        out: Buffer::new(),
        words: [0; WORDS],
        lines: [0; LINES],
    };
    list_input(from, to, limits, &mut feed, &mut work)
}
