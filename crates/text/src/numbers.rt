// Numbers in base ten.
ghost use Rattle.std.specs.Prelude.{◌≡◌, ◌+◌, ◌*◌, ◌≤◌, [], ◌∷◌, ◌++◌, length};
ghost use Rattle.text.specs.Numbers.{decimal, spaced, number_room};

use crate::buffers::Buffer;

// The most digits of a number.
const DIGITS: usize = 20;

// The room that a number and a byte after it take at most.
pub const NUMBER_ROOM: usize = DIGITS + 1;

impl<const N: usize> Buffer<N> {
    // Puts the digits of a number and one byte after them.
    pub fn put_number(&mut self, number: u64, after: u8)
        requires { length self.old + number_room ≤ N }
        ensures puts { self.new ≡ self.old ++ (decimal number ++ after ∷ []) }
        ensures upper_bound { length self.new ≤ length self.old + number_room }
    {
        let mut digits = [0u8; DIGITS];
        let k = io::decimal(number, &mut digits);
        self.put(&digits[..k]);
        self.put_byte(after);
    }

    // Puts numbers, a space between each two, and one byte after the last.
    pub fn put_numbers(&mut self, numbers: &[u64], after: u8)
        requires { length self.old + length numbers.now * number_room ≤ N }
        ensures puts { self.new ≡ self.old ++ spaced numbers.now after }
        ensures upper_bound { length self.new ≤ length self.old + length numbers.now * number_room }
    {
        if let Some((last, before)) = numbers.split_last() {
            for number in before {
                self.put_number(*number, b' ');
            }
            self.put_number(*last, after);
        }
    }
}
