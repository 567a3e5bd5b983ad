// Calls the book's functions as standard input says, also with what no feed can hand them; a line for each call.
#![tactic(auto)]

mod calling;
mod calls;
mod kinds;
mod lines;
mod makings;

use book::Book;
use calling::call;
use calls::{NoCall, call_at};
use lines::Out;
use std::io::{Read, Write};
use text::{Buffer, Input, Output};

// The bytes that are kept of the input: more than the longest call.
const CALLS: usize = 131072;

// Makes the calls one after the other, and writes out each line before the next call.
fn call_all<R: Read, W: Write>(
    from: &mut R,
    to: &mut W,
    first: Book,
    bytes: &mut Buffer<CALLS>,
    out: &mut Out,
) {
    let mut b = first;
    let mut input = Input::unread();
    let mut output = Output::unwritten();
    let mut place: usize = 0;
    // As many turns as there are numbers of 64 bits but one, and not without a bound, since every loop is proved to end.
    for _turn in 0..u64::MAX {
        let s = &bytes.bytes()[place..];
        match call_at(s) {
            Ok(c) => {
                b = call(b, c, s, out);
                output.write_out(to, out.bytes());
                if !output.is_written() {
                    break;
                }
                place += c.length();
            }
            Err(NoCall::Short) => {
                bytes.drop_front(place);
                place = 0;
                let kept = bytes.len();
                // Never so: what is kept is a part of a call, and a call is shorter than the room.
                if CALLS <= kept {
                    break;
                }
                input.read_more(from, bytes);
                if bytes.len() == kept {
                    break;
                }
            }
            Err(NoCall::Unknown) => break,
        }
    }
}

fn main(rt: HostRuntime) {
    let mut bytes = Buffer::new();
    let mut out = Buffer::new();
    let first = book::new(book::separate(0, book::market())).book;
    call_all(
        &mut rt.stdin(),
        &mut rt.stdout(),
        first,
        &mut bytes,
        &mut out,
    );
}
