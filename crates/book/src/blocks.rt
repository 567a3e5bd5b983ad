// A block of the feed: its entries read and applied one after the other, by a function that owns the book for them.
ghost use Rattle.std.specs.Prelude.{◌≤◌, ◌≡◌, true, length, IfSome};
ghost use Rattle.std.proofs.lemmas.List.Edits.{sets};
ghost use Rattle.exact.specs.Rows.{places};
ghost use Rattle.book.specs.rules.Kinds.{is_amount};
ghost use Rattle.book.specs.runs.Running.{run};
ghost use Rattle.book.specs.inner.Ways.{NamedAt};
ghost use Rattle.book.specs.inner.Postings.{cleared};

use crate::Book;
use crate::allowed::Allowed;
use crate::feed::read_next;
use crate::lines::{LINE, put_line};
use crate::reader::Found;
use std::marker::Model;

// What a run leaves: the book, the place of the next entry, and how many words of lines it wrote.
#[derive(Clone, Copy)]
pub struct Ran {
    pub book: Book,
    pub place: usize,
    pub wrote: usize,
}

// A caller may hand it on by value and use it again, as it may a book: its record has all of its fields.
impl Model for Ran {
    ghost use Rattle.book.specs.rules.Records.{RanRecord};
    ghost use Rattle.book.specs.rules.Holders.{ran_of, ran_inside};

    ghost Value = { RanRecord };

    ghost view = { ran_of };

    ghost inverse = { ran_inside };
}

// Sets the first n payout words to 0 where an entry was accepted.
fn clear(words: &mut [u64], n: usize, accepted: bool)
    requires { (n ≤ places) × (n ≤ length words.old) }
    ensures { words.new ≡ cleared accepted n words.old }
{
    if accepted {
        words[..n].fill(0);
    }
}

impl Book {
    // The place of the period whose sums the entry adds to; none where it is none of energy, amounts and washups, or is refused
    // by what the book shows without a look at a period (4, 5, 8).
    fn place_added_to(&self, e: Allowed, room: usize) -> Option<usize>
        ensures { IfSome result (λ j. NamedAt self.now e.entry room j × (is_amount e.entry ≡ true)) }
    {
        if self.n == 0 || room < self.n || !e.entry.is_amount() {
            return None;
        }
        self.place(e.entry.period())
    }
}

// Reads and enters entries from a place on, up to one that cannot be read or has paid, while there is room for lines.
// Energy, amounts and washups are added to their period for as long as they follow each other. Place and words written are counted,
// and the lines no iterator's chunks: `run` answers both, and one turn may put many lines.
pub fn run(first: Book, bytes: &[u8], from: usize, words: &mut [u64], lines: &mut [u64]) -> Ran
    ensures { let x = run bytes.now (length lines.old) first from words.old in
        (result.book ≡ x.book) × (result.place ≡ x.place) × (result.wrote ≡ length x.lines) × (words.new ≡ x.words)
        × (lines.new ≡ sets lines.old 0 x.lines) }
{
    let mut b = first;
    let mut place = from;
    let mut wrote = 0;
    while LINE <= lines.len() - wrote {
        let Ok(Found { entry, next }) = read_next(bytes, place) else {
            break;
        };
        if let Some(j) = b.place_added_to(Allowed { entry }, words.len()) {
            let (n, held) = (b.n, b.held);
            let posted = b.periods[j].post_amounts(n, held, bytes, place, lines, wrote);
            clear(words, n, posted.accepted);
            place = posted.place;
            wrote = posted.wrote;
            continue;
        }
        let (answer, paid) = match b.enter(entry, words) {
            Ok(accepted) => (0, accepted.paid),
            Err(refusal) => (refusal.number(), 0),
        };
        put_line(lines, wrote, answer, paid, b.held);
        place = next;
        wrote += LINE;
        if paid != 0 {
            break;
        }
    }
    Ran {
        book: b,
        place,
        wrote,
    }
}
