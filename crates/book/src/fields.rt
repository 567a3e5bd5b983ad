// Unsigned fields of bytes, least significant first: taken one after the other from the front of a slice, and put into one.
ghost use Rattle.std.specs.Prelude.{◌≡◌, ◌+◌, ◌^◌, ◌≤◌, ◌<◌, length, take, drop};
ghost use Rattle.std.proofs.lemmas.List.Edits.{sets};
ghost use Rattle.book.specs.layouts.Fields.{value_at, bytes};
ghost use Rattle.book.specs.inner.Puts.{width_of, value_of, room_of, bytes_of_fields};

// The bytes whose fields are not yet taken.
#[derive(Drop)]
pub struct Fields<'a> {
    rest: &'a [u8],
}

impl<'a> Fields<'a> {
    pub fn new(bytes: &'a [u8]) -> Self
        ensures { result.rest ≡ bytes.entry }
    {
        Fields { rest: bytes }
    }

    // By `split_at` and a copy, which test no length at run time, as `split_first_chunk` would for each field.
    fn take<const N: usize>(&mut self) -> [u8; N]
        requires { N ≤ length self.old.rest.now }
        ensures { (result ≡ take N self.old.rest.now) × (self.new.rest.now ≡ drop N self.old.rest.now) }
    {
        let (front, rest) = self.rest.split_at(N);
        self.rest = rest;
        let mut bytes = [0; N];
        bytes.copy_from_slice(front);
        bytes
    }

    // A byte, a word and a long differ by width: a generic function would take a trait that names an array type for each, as no
    // `[u8; T::WIDTH]` can be written, and three impls of what stands here.
    pub fn byte(&mut self) -> u8
        requires { 1 ≤ length self.old.rest.now }
        ensures { (result ≡ value_at 1 self.old.rest.now 0) × (self.new.rest.now ≡ drop 1 self.old.rest.now) }
    {
        u8::from_le_bytes(self.take())
    }

    pub fn word(&mut self) -> u32
        requires { 4 ≤ length self.old.rest.now }
        ensures { (result ≡ value_at 4 self.old.rest.now 0) × (self.new.rest.now ≡ drop 4 self.old.rest.now) }
    {
        u32::from_le_bytes(self.take())
    }

    pub fn long(&mut self) -> u64
        requires { 8 ≤ length self.old.rest.now }
        ensures { (result ≡ value_at 8 self.old.rest.now 0) × (self.new.rest.now ≡ drop 8 self.old.rest.now) }
    {
        u64::from_le_bytes(self.take())
    }
}

// Puts bytes into a slice, from a place on, and gives the place behind them.
fn put(out: &mut [u8], place: usize, bytes: &[u8]) -> usize
    requires { place + length bytes.now ≤ length out.old }
    ensures { (out.new ≡ sets out.old place bytes.now) × (result ≡ place + length bytes.now) }
{
    let end = place + bytes.len();
    out[place..end].copy_from_slice(bytes);
    end
}

// A field to be put.
#[derive(Clone, Copy)]
pub enum Field {
    Byte(u8),
    Word(u32),
    Long(u64),
}

impl Field {
    #[tactic(auto, using(crate::proofs::layouts::PutLaws::byte_bytes, crate::proofs::layouts::PutLaws::word_bytes, crate::proofs::layouts::PutLaws::long_bytes))]
    fn put(self, out: &mut [u8], place: usize) -> usize
        requires { place + width_of self ≤ length out.old }
        ensures { (out.new ≡ sets out.old place (bytes (width_of self) (value_of self))) × (result ≡ place + width_of self) }
    {
        match self {
            Field::Byte(x) => put(out, place, &[x]),
            Field::Word(x) => put(out, place, &x.to_le_bytes()),
            Field::Long(x) => put(out, place, &x.to_le_bytes()),
        }
    }
}

// Puts the fields of a body, behind the kind.
pub fn put_fields(out: &mut [u8], fields: &[Field])
    requires { 1 + room_of fields.now ≤ length out.old }
    ensures { out.new ≡ sets out.old 1 (bytes_of_fields fields.now) }
{
    let mut place = 1;
    for f in fields {
        place = f.put(out, place);
    }
}
