// Bytes one behind the other, in room of a fixed size.
ghost use Rattle.std.specs.Prelude.{◌≡◌, ◌+◌, ◌<◌, ◌≤◌, List, [], ◌∷◌, ◌++◌, ℕ, take, drop, length};

use crate::slices::{keep, put_bytes};
use crate::streams::{Fetched, Input, read_more};
use std::io::Read;
use std::marker::Model;

// At most N bytes: the first `len` of the room.
// No Vec, which can fail to grow; no ArrayVec, which shows a reader no room behind its elements.
#[derive(Drop)]
pub struct Buffer<const N: usize> {
    room: [u8; N],
    len: usize,
}

// Clauses see the bytes that were put.
impl<const N: usize> Model for Buffer<N> {
    ghost Value = { List ℕ };

    ghost view = { λ b. take b.len b.room };

    ghost invariant = { λ b. b.len ≤ N };
}

impl<const N: usize> Buffer<N> {
    ghost use Rattle.text.specs.Streams.{Fetches};
    ghost use Rattle.text.specs.declared.streams.Last.TheVariants.{More};

    // A buffer of no byte.
    pub fn new() -> Self
        ensures { result ≡ [] }
    {
        Buffer {
            room: [0; N],
            len: 0,
        }
    }

    // How many bytes there are.
    pub fn len(&self) -> usize
        ensures count { result ≡ length self.now }
        ensures upper_bound { result ≤ N }
    {
        self.len
    }

    // The bytes.
    pub fn bytes(&self) -> &[u8]
        ensures { result.now ≡ self.now }
    {
        &self.room[..self.len]
    }

    // Takes all bytes away.
    pub fn clear(&mut self)
        ensures { self.new ≡ [] }
    {
        self.len = 0;
    }

    // Puts one byte behind those there are.
    pub(crate) fn put_byte(&mut self, byte: u8)
        requires { length self.old < N }
        ensures { self.new ≡ self.old ++ byte ∷ [] }
    {
        self.room[self.len] = byte;
        self.len += 1;
    }

    // Puts all bytes of a slice behind those there are.
    pub fn put(&mut self, bytes: &[u8])
        requires { length self.old + length bytes.now ≤ N }
        ensures { self.new ≡ self.old ++ bytes.now }
    {
        let end = put_bytes(&mut self.room, self.len, bytes);
        self.len = end;
    }

    // Takes the first bytes away, or all where there are no more; those behind them then stand in front.
    pub fn drop_front(&mut self, count: usize)
        ensures { self.new ≡ drop count self.old }
    {
        self.len = keep(&mut self.room, count, self.len);
    }

    // Reads once, behind the bytes there are; answers the input after that.
    pub(crate) fn read_from<R: Read>(&mut self, from: &mut R, input: Input) -> Input
        requires more { input.last ≡ More }
        requires room { length self.old < N }
        ensures { Fetches input.total self.old result self.new }
    {
        let Fetched { input, filled } = read_more(from, input, &mut self.room, self.len);
        self.len = filled;
        input
    }
}
