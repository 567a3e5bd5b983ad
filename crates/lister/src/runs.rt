// Runs of the book, and their lines.
ghost use Rattle.std.specs.Prelude.{◌≡◌, ◌+◌, ◌*◌, ◌/◌, ◌%◌, ◌≤◌, ◌++◌, length};
ghost use Rattle.lister.specs.inner.Runs.{line_room, lines_to, last_paid, run_lines};
ghost use Rattle.lister.specs.Turns.{waiting};
ghost use Rattle.lister.specs.inner.Blocks.{out_room, Ready, RunsListed};

use crate::blocks::{Next, Out, Standing, WAITING};
use crate::lines::{Words, put_line, put_pays};
use book::{LINE, Ran};

// How many words are lent for the lines of a run: those of 512 entries.
pub const LINES: usize = 512 * LINE;

// What a listing writes into: the bytes to be written out, the payout words and the lines of a run. The block of input is not
// among them, since it is read while these are written.
#[derive(Drop)]
pub struct Work {
    pub out: Out,
    pub words: Words,
    pub lines: [u64; LINES],
}

// The lines of the entries of a run, numbered from `first` on.
fn put_lines(out: &mut Out, first: u64, lines: &[u64])
    requires { length out.old + length lines.now / 3 * line_room ≤ out_room }
    ensures puts { out.new ≡ out.old ++ lines_to first lines.now (length lines.now / 3) }
    ensures upper_bound { length out.new ≤ length out.old + length lines.now / 3 * line_room }
{
    for (i, line) in lines.chunks_exact(LINE).enumerate() {
        // `as`, here and below: std has no From between usize and u64.
        put_line(out, first.wrapping_add(i as u64), line[0], line[1], line[2]);
    }
}

// The cents paid by the last entry of a run; 0 where there is none, and no Option, as the definition `last_paid` has it.
fn last_paid(lines: &[u64]) -> u64
    requires { length lines.now % 3 ≡ 0 }
    ensures { result ≡ last_paid lines.now (length lines.now / 3) }
{
    match lines {
        [.., paid, _held] => *paid,
        _ => 0,
    }
}

// The lines of a run: those of its entries and, where the last of them has paid, those of its payouts.
#[tactic(auto, using(crate::proofs::LineLaws::run_alone))]
fn put_run(out: &mut Out, first: u64, lines: &[u64], words: &Words)
    requires { (length out.old ≤ waiting) × (length lines.now ≤ 1536) × (length lines.now % 3 ≡ 0) }
    ensures { out.new ≡ out.old ++ run_lines first lines.now (length lines.now / 3) words.now }
{
    put_lines(out, first, lines);
    if last_paid(lines) != 0 {
        put_pays(out, words);
    }
}

// Lists the entries of a block from a place on, run after run, until output waits or no further entry can be read. A run ends
// behind an entry that has paid, so that its payouts stand next.
pub fn list_runs(start: Standing, feed: &[u8], work: &mut Work) -> Standing
    requires { Ready feed.now start work.old.words }
    ensures { RunsListed feed.now start result work.new.out work.new.words }
{
    let Work { out, words, lines } = work;
    let mut s = start;
    s.next = Next::Again;
    out.clear();
    // A `while`: a run says where the next begins, and nothing is counted.
    while out.len() <= WAITING {
        let Ran { book, place, wrote } = book::run(s.book, feed, s.place, words, lines);
        s.book = book;
        s.place = place;
        if wrote == 0 {
            break;
        }
        put_run(out, s.number, &lines[..wrote], words);
        s.number = s.number.wrapping_add((wrote / LINE) as u64);
    }
    s
}
