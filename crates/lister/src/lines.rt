// The lines of the listing.
ghost use Rattle.std.specs.Prelude.{◌≡◌, ◌+◌, ◌*◌, ◌≤◌, ◌++◌, length};
ghost use Rattle.exact.specs.Rows.{places};
ghost use Rattle.lister.specs.Lines.{header, entry_line, pay_line, pay_lines};
ghost use Rattle.lister.specs.inner.Runs.{line_room, pay_room};
ghost use Rattle.lister.specs.inner.Blocks.{out_room};

use crate::blocks::Out;
use exact::PLACES;

// How many payout words the book is lent.
pub const WORDS: usize = PLACES;

pub type Words = [u64; WORDS];

// The first line.
pub fn header() -> &'static [u8]
    ensures { result.now ≡ header }
{
    b"entry answer paid held\n"
}

// The line of an entry: its number, the answer, the cents paid by it and the cents held.
#[tactic(auto, using(crate::proofs::LineLaws::entry_spaced))]
pub fn put_line(out: &mut Out, number: u64, answer: u64, paid: u64, held: u64)
    requires { length out.old + line_room ≤ out_room }
    ensures puts { out.new ≡ out.old ++ entry_line number answer paid held }
    ensures upper_bound { length out.new ≤ length out.old + line_room }
{
    out.put_numbers(&[number, answer, paid, held], b'\n');
}

// The line of a payout, where there is one.
#[tactic(auto, using(crate::proofs::LineLaws::pay_none, crate::proofs::LineLaws::pay_some))]
fn put_pay(out: &mut Out, participant: u64, cents: u64)
    requires { length out.old + pay_room ≤ out_room }
    ensures puts { out.new ≡ out.old ++ pay_line participant cents }
    ensures upper_bound { length out.new ≤ length out.old + pay_room }
{
    if cents == 0 {
        return;
    }
    out.put(b"pay ");
    out.put_numbers(&[participant, cents], b'\n');
}

// The lines of all payouts.
pub fn put_pays(out: &mut Out, words: &Words)
    requires { length out.old + places * pay_room ≤ out_room }
    ensures { out.new ≡ out.old ++ pay_lines words.now places }
{
    for (i, cents) in words.iter().enumerate() {
        // `as`: std has no From between usize and u64.
        put_pay(out, i as u64, *cents);
    }
}
