// Inputs and outputs. The fields of a stream are private: only these functions count bytes, or say that an input ended or
// failed. A caller makes each stream once, and hands each call the stream as the call before left it, with the reader or writer
// that it was made for.
ghost use Rattle.std.specs.Prelude.{◌+◌, ◌^◌, ◌≤◌, ◌<◌, min, ◌≡◌, true, length, take};
ghost use Rattle.text.specs.Streams.{most, is_ended, is_failed, last_of, came, Fetches};
ghost use Rattle.text.specs.declared.streams.Last.TheVariants.{More};

use crate::buffers::Buffer;
use std::io;
use std::io::{Read, Write};

// What the last read left: more bytes than before, the end of the input, or nothing, since it failed. More where nothing was
// read yet.
#[derive(Clone, Copy, PartialEq, Eq, Debug)]
pub enum Last {
    More,
    Ended,
    Failed,
}

// An input: how many bytes were read of it, or the largest number of 64 bits where that is less, and what the last read left.
#[derive(Clone, Copy, PartialEq, Eq, Debug)]
pub struct Input {
    total: u64,
    last: Last,
}

// An output: how many bytes were handed over for writing, counted alike, and whether all of them were written.
#[derive(Clone, Copy, PartialEq, Eq, Debug)]
pub struct Output {
    total: u64,
    all: bool,
}

// An output that tells of errors, a type of its own, so that neither can stand for the other.
#[derive(Clone, Copy, PartialEq, Eq, Debug)]
pub struct Errors {
    output: Output,
}

// A count with more added; it stays at the largest number of 64 bits.
fn counted(total: u64, more: usize) -> u64
    ensures { result ≡ min (total + more) most }
{
    // `as`: std has no From between usize and u64.
    total.saturating_add(more as u64)
}

// What a read left that answered `got`.
fn last_of(got: &io::Result<usize>) -> Last
    ensures { result ≡ last_of got.now }
{
    match got {
        Ok(0) => Last::Ended,
        Ok(_) => Last::More,
        Err(_) => Last::Failed,
    }
}

// An input after a read, and how many bytes of the block there are then.
#[derive(Clone, Copy, PartialEq, Eq, Debug)]
pub struct Fetched {
    pub input: Input,
    pub filled: usize,
}

// An input after a read behind the first `filled` bytes, which answered `got`.
fn taken(i: Input, got: io::Result<usize>, filled: usize) -> Fetched
    requires { filled + came got < 2 ^ 64 }
    ensures { result ≡ record { input = record { total = min (i.total + came got) most; last = last_of got }; filled = filled + came got } }
{
    let more = got.unwrap_or(0);
    Fetched {
        input: Input {
            total: counted(i.total, more),
            last: last_of(&got),
        },
        filled: filled + more,
    }
}

// Reads once, behind the first `filled` bytes of a block. There is room behind them, so that a read of no byte is the end of the
// input. The contract counts the bytes that came; that they are those which the reader gave is to be read here.
pub fn read_more<R: Read>(from: &mut R, i: Input, block: &mut [u8], filled: usize) -> Fetched
    requires more { i.last ≡ More }
    requires room { filled < length block.old }
    ensures within { result.filled ≤ length block.new }
    ensures reads { Fetches i.total (take filled block.old) result.input (take result.filled block.new) }
{
    let got = from.read(&mut block[filled..]);
    taken(i, got, filled)
}

impl Input {
    // An input of which nothing was read.
    pub fn unread() -> Self
        ensures { result ≡ record { total = 0; last = More } }
    {
        Input {
            total: 0,
            last: Last::More,
        }
    }

    // Whether the last read was at the end of the input.
    pub fn has_ended(&self) -> bool
        ensures { result ≡ is_ended self.now.last }
    {
        self.last == Last::Ended
    }

    // Whether the last read failed.
    pub fn has_failed(&self) -> bool
        ensures { result ≡ is_failed self.now.last }
    {
        self.last == Last::Failed
    }

    // Reads once, behind the bytes of a buffer.
    pub fn read_more<R: Read, const N: usize>(&mut self, from: &mut R, block: &mut Buffer<N>)
        requires more { self.old.last ≡ More }
        requires room { length block.old < N }
        ensures { Fetches self.old.total block.old self.new block.new }
    {
        *self = block.read_from(from, *self);
    }
}

// Hands all of the bytes over, and has the writer flush what it kept back.
fn write_all<W: Write>(to: &mut W, bytes: &[u8]) -> io::Result<()> {
    to.write_all(bytes)?;
    to.flush()
}

impl Output {
    // An output to which nothing was written.
    pub fn unwritten() -> Self
        ensures { result ≡ record { total = 0; all = true } }
    {
        Output {
            total: 0,
            all: true,
        }
    }

    // Whether all bytes that were handed over were written.
    pub fn is_written(&self) -> bool
        ensures { result ≡ self.now.all }
    {
        self.all
    }

    // Writes bytes to an output. The contract counts them; that these bytes and no others are handed over is to be read here.
    pub fn write_out<W: Write>(&mut self, to: &mut W, bytes: &[u8])
        requires { self.old.all ≡ true }
        ensures { self.new.total ≡ min (self.old.total + length bytes.now) most }
    {
        self.all = write_all(to, bytes).is_ok();
        self.total = counted(self.total, bytes.len());
    }
}

// Writes bytes to what tells of errors.
pub fn write_error<W: Write>(to: &mut W, bytes: &[u8]) -> Errors
    ensures { result.output.total ≡ min (length bytes.now) most }
{
    let mut output = Output::unwritten();
    output.write_out(to, bytes);
    Errors { output }
}
