// How a listing ends.
ghost use Rattle.std.specs.Prelude.{◌≡◌, length};
ghost use Rattle.lister.specs.Messages.{message};
ghost use Rattle.lister.specs.inner.Blocks.{why_ended};

use std::io::Write;
use text::{Errors, Input, Output, write_error};

// Why a listing ended: at bytes that cannot be read as an entry, at the end of the input, with its turns used up, or where
// the input or the output failed.
#[derive(Clone, Copy, PartialEq, Eq, Debug)]
pub enum End {
    Unread,
    Input,
    Turns,
    NotRead,
    NotWritten,
}

// How a listing ended: why, after how many turns, and its input and output.
#[derive(Clone, Copy, PartialEq, Eq, Debug)]
pub struct Ending {
    pub why: End,
    pub turns: u64,
    pub input: Input,
    pub output: Output,
}

impl Ending {
    // An ending of these parts.
    pub(crate) fn new(why: End, turns: u64, input: Input, output: Output) -> Self
        ensures { result ≡ record { why = why; turns = turns; input = input; output = output } }
    {
        Ending {
            why,
            turns,
            input,
            output,
        }
    }
}

// Why a listing ended, by what the last read left.
pub fn why_ended(input: &Input) -> End
    ensures { result ≡ why_ended input.now.last }
{
    if input.has_failed() {
        End::NotRead
    } else if input.has_ended() {
        End::Input
    } else {
        End::Unread
    }
}

// What is told of an end: nothing where the input was listed to its end, or to bytes that cannot be read.
fn message(why: End) -> &'static [u8]
    ensures { result.now ≡ message why }
{
    match why {
        End::Unread | End::Input => b"",
        End::Turns => b"listing: its turns are used up\n",
        End::NotRead => b"listing: standard input cannot be read\n",
        End::NotWritten => b"listing: standard output cannot be written\n",
    }
}

// Tells that standard input or output failed, or that the turns are used up.
pub fn tell<W: Write>(to: &mut W, ending: Ending) -> Errors
    ensures { result.output.total ≡ length (message ending.why) }
{
    write_error(to, message(ending.why))
}
