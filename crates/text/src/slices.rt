// Bytes in slices that a caller lends: put from a place on, and moved to the front.
ghost use Rattle.std.specs.Prelude.{◌≡◌, ◌+◌, ◌-◌, ◌≤◌, [], ◌∷◌, ◌++◌, length};
ghost use Rattle.text.specs.Slices.{Puts, kept};
ghost use Rattle.text.specs.Numbers.{decimal, number_room};

use crate::buffers::Buffer;
use crate::numbers::NUMBER_ROOM;

// Puts all bytes of a slice from a place on; answers the place after them.
pub fn put_bytes(out: &mut [u8], place: usize, bytes: &[u8]) -> usize
    requires { place + length bytes.now ≤ length out.old }
    ensures { Puts out.old place bytes.now out.new result }
{
    let end = place + bytes.len();
    out[place..end].copy_from_slice(bytes);
    end
}

// Puts the digits of a number and one byte after them, from a place on; answers the place after them.
pub fn put_number(out: &mut [u8], place: usize, number: u64, after: u8) -> usize
    requires { place + number_room ≤ length out.old }
    ensures puts { Puts out.old place (decimal number ++ after ∷ []) out.new result }
    ensures upper_bound { result ≤ place + number_room }
{
    let mut text: Buffer<NUMBER_ROOM> = Buffer::new();
    text.put_number(number, after);
    put_bytes(out, place, text.bytes())
}

// Moves the bytes from one place up to another to the front; answers how many they are.
#[tactic(auto, unfolding(crate::specs::Slices::kept))]
pub fn keep(block: &mut [u8], from: usize, to: usize) -> usize
    requires { to ≤ length block.old }
    ensures count { result ≡ to - from }
    ensures moved { block.new ≡ kept block.old from (to - from) }
{
    if from < to {
        block.copy_within(from..to, 0);
    }
    to.saturating_sub(from)
}
