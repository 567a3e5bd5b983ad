// One entry of any kind.
ghost use Rattle.std.specs.Prelude.{◌≡◌, true, false, length};
ghost use Rattle.book.specs.rules.Kinds.{is_open, is_purse};
ghost use Rattle.book.specs.rules.State.{view, pack};
ghost use Rattle.book.specs.rules.Purses.{after_drawing};
ghost use Rattle.book.specs.rules.Refusals.{barring};
ghost use Rattle.book.specs.rules.Step.{reply};
ghost use Rattle.book.specs.rules.Answers.{replied};
ghost use Rattle.book.specs.inner.Ways.{Entered, NamedAt};
ghost use Rattle.book.specs.inner.Entering.{Enters};
ghost use Rattle.book.specs.declared.entries.Entry.TheVariants.{Open, Purse};

use crate::allowed::Allowed;
use crate::answers::{Answer, Refusal};
use crate::entries::Entry;
use crate::{Book, Period};
use std::marker::Model;

// The answer to an entry, the rounds of a settlement, and the book that it leaves: a refused call hands its book back too.
#[derive(Clone, Copy)]
pub struct Applied {
    pub answer: Answer,
    pub rounds: u64,
    pub book: Book,
}

// A caller may hand it on by value and use it again, as it may a book: its record has all of its fields.
impl Model for Applied {
    ghost use Rattle.book.specs.rules.Answers.{AppliedRecord};
    ghost use Rattle.book.specs.rules.Holders.{applied_of, applied_inside};

    ghost Value = { AppliedRecord };

    ghost view = { applied_of };

    ghost inverse = { applied_inside };
}

// What an accepted entry did: the rounds of a settlement, and the cents paid. `Entered` and `NamedAt` below are asked of callers, and
// are in no type: they speak of this book and of the words lent to it as well as of the entry.
#[derive(Clone, Copy, Debug, PartialEq, Eq)]
pub struct Accepted {
    pub rounds: u64,
    pub paid: u64,
}

impl Book {
    // Whether another period refuses the entry (14).
    fn is_barred(&self, e: Allowed) -> bool
        ensures { result ≡ barring e.entry (view self.now).periods }
    {
        match e.entry {
            Entry::Receipt {
                period,
                participant,
                ..
            } => self.has_earlier_arrears(usize::from(participant), period),
            _ => false,
        }
    }

    // Opens a period; 4, 5 and 3 are passed.
    fn open_period(&mut self, period: u32, words: &mut [u64]) -> Result<Accepted, Refusal>
        requires { Entered (view self.old) (record { entry = Open period; words = words.old }) }
        ensures { Enters self.old (record { entry = Open period; words = words.old }) result self.new words.new }
    {
        self.opening_answer(period)?;
        words[..self.n].fill(0);
        self.add_period(Period::fresh(period));
        Ok(Accepted { rounds: 0, paid: 0 })
    }

    // Adds to the purse of i; 4, 5 and 3 are passed.
    fn raise_purse(&mut self, i: usize, cents: u64, words: &mut [u64]) -> Result<Accepted, Refusal>
        requires { Entered (view self.old) (record { entry = Purse i cents; words = words.old }) }
        ensures { Enters self.old (record { entry = Purse i cents; words = words.old }) result self.new words.new }
    {
        self.purse_answer(i, cents)?;
        words[..self.n].fill(0);
        self.held += cents;
        self.purses[i] += cents;
        Ok(Accepted { rounds: 0, paid: 0 })
    }

    // Moves what a settle entry draws from the purses into its period, at place j; other entries draw nothing.
    fn draw_for(&mut self, e: Entry, j: usize)
        requires { NamedAt self.old e self.old.n j }
        ensures { self.new ≡ pack (after_drawing (view self.old) e) }
    {
        // n, before a period and the purses are borrowed.
        let n = self.n;
        if e.is_settle() {
            let drawable = self.drawable_purses(self.periods[j].number);
            self.periods[j].draw(&mut self.purses, drawable, n);
        }
    }

    // Changes the period that the entry names, at place j; 4, 5, 3 and 8 are passed.
    fn change_at(&mut self, e: Allowed, j: usize, words: &mut [u64]) -> Result<Accepted, Refusal>
        requires { NamedAt self.old e.entry (length words.old) j }
        ensures { Enters self.old (record { entry = e.entry; words = words.old }) result self.new words.new }
    {
        // n, before the book draws.
        let n = self.n;
        let barred = self.is_barred(e);
        self.draw_for(e.entry, j);
        let effect = self.apply_to_period(self.periods[j], e, barred, words)?;
        if effect.period.is_leaving(n) {
            self.remove_period(j, effect.held);
        } else {
            self.held = effect.held;
            self.periods[j] = effect.period;
        }
        Ok(Accepted {
            rounds: effect.rounds,
            paid: effect.paid,
        })
    }

    // Changes the period that the entry names; 4, 5 and 3 are passed. The change is a function of its own: a function sets its locals to
    // 0 at entry, which an entry refused with 8 would pay for.
    fn change_named(&mut self, e: Allowed, words: &mut [u64]) -> Result<Accepted, Refusal>
        requires { Entered (view self.old) (record { entry = e.entry; words = words.old }) × (is_open e.entry ≡ false) × (is_purse e.entry ≡ false) }
        ensures { Enters self.old (record { entry = e.entry; words = words.old }) result self.new words.new }
    {
        let Some(j) = self.place(e.entry.period()) else {
            return Err(Refusal::NotInBook);
        };
        self.change_at(e, j, words)
    }

    // Enters an entry of any field values in the book, with any number of payout words; a refusal changes neither.
    pub(crate) fn enter(&mut self, e: Entry, words: &mut [u64]) -> Result<Accepted, Refusal>
        ensures { Enters self.old (record { entry = e; words = words.old }) result self.new words.new }
    {
        if self.n == 0 {
            return Err(Refusal::NoParticipants);
        }
        if words.len() < self.n {
            return Err(Refusal::FewWords);
        }
        let Some(a) = e.checked() else {
            return Err(Refusal::Outside);
        };
        match e {
            Entry::Open { period } => self.open_period(period, words),
            Entry::Purse { participant, cents } => self.raise_purse(
                usize::from(participant),
                cents,
                words,
            ),
            _ => self.change_named(a, words),
        }
    }
}

// The same, for callers that hand the book over.
pub fn apply(mut b: Book, e: Entry, words: &mut [u64]) -> Applied
    ensures { replied result words.new ≡ reply b (record { entry = e; words = words.old }) }
{
    let entered = b.enter(e, words);
    Applied {
        answer: entered.map(|_| ()),
        rounds: entered.map_or(0, |accepted| accepted.rounds),
        book: b,
    }
}
