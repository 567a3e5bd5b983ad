// The lines that are printed: a name, and numbers.
ghost use Rattle.std.specs.Prelude.{◌+◌, ◌*◌, ◌≤◌, length};
ghost use Rattle.text.specs.Numbers.{number_room};

use text::Buffer;

// The bytes of a block of output.
pub const BLOCK: usize = 65536;

pub type Out = Buffer<BLOCK>;

// Puts a name and numbers as the one line of the output: what a call answered, and then what it filled or found.
pub fn put_line(out: &mut Out, name: &[u8], answers: &[u64], others: &[u64])
    requires { length name.now + (length answers.now + length others.now) * number_room ≤ 65536 }
    ensures { length out.new ≤ length name.now + (length answers.now + length others.now) * number_room }
{
    out.clear();
    out.put(name);
    if others.is_empty() {
        out.put_numbers(answers, b'\n');
    } else {
        out.put_numbers(answers, b' ');
        out.put_numbers(others, b'\n');
    }
}
