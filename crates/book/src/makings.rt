// What a book is made with, and a book just made.
ghost use Rattle.std.specs.Prelude.{◌≡◌, ◌≤◌};
ghost use Rattle.exact.specs.Rows.{places};
ghost use Rattle.book.specs.Checks.{refusal};
ghost use Rattle.book.specs.rules.Answers.{number_of};
ghost use Rattle.book.specs.rules.State.{pack};
ghost use Rattle.book.specs.rules.Valid.{SoundState};
ghost use Rattle.book.specs.rules.Makings.{made, making_checks, kept, no_making, empty_state, separate};

use crate::answers::{Answer, Refusal};
use crate::limits::{Limits, is_within};
use crate::{Book, PERIOD_PLACES, Period};
use exact::{PLACES, cells};
use settlement::{GROUPS, Grouping, is_grouping_allowed};
use std::marker::Model;

// The number of participants, their groups with the groups' reserves, and the limits of the book. Group numbers from n on are
// not looked at.
#[derive(Clone, Copy)]
pub struct Making {
    pub n: usize,
    pub grouping: Grouping,
    pub limits: Limits,
}

// A book that was made, or refused: a refused making hands a book back too, which answers 4 to every entry.
#[derive(Clone, Copy)]
pub struct Made {
    pub answer: Answer,
    pub book: Book,
}

// A caller may hand it on by value and use it again, as it may a book: its record has all of its fields.
impl Model for Made {
    ghost use Rattle.book.specs.rules.Answers.{MadeRecord};
    ghost use Rattle.book.specs.rules.Holders.{made_of, made_inside};

    ghost Value = { MadeRecord };

    ghost view = { made_of };

    ghost inverse = { made_inside };
}

// Each participant in a group of its own, and no reserves, in a book of these limits.
pub fn separate(n: usize, limits: Limits) -> Making
    ensures { result ≡ separate n limits }
{
    // `as`: std has no From between usize and u64.
    let groups = cells(PLACES, |i| i as u64);
    let grouping = Grouping {
        groups,
        reserves: [0; GROUPS],
    };
    Making {
        n,
        grouping,
        limits,
    }
}

// 4, 3.
fn making_answer(m: Making) -> Answer
    ensures { number_of result ≡ refusal (making_checks m) }
{
    if !is_within(m.limits.participants, PLACES)
        || !is_within(m.limits.periods, PERIOD_PLACES)
        || !is_within(m.n, m.limits.participants)
    {
        return Err(Refusal::NoParticipants);
    }
    if !is_grouping_allowed(m.grouping, m.n) {
        return Err(Refusal::Outside);
    }
    Ok(())
}

// A book without periods, its purses empty.
fn empty_book(m: Making) -> Book
    requires { SoundState (empty_state m) }
    ensures { result ≡ pack (empty_state m) }
{
    let Making {
        n,
        grouping,
        limits,
    } = m;
    Book {
        n,
        grouping,
        limits,
        highest: 0,
        count: 0,
        held: 0,
        periods: [Period::fresh(0); PERIOD_PLACES],
        purses: [0; PLACES],
    }
}

// What the book keeps of its making: the groups are 0 from n on.
fn kept(m: Making) -> Making
    requires { m.n ≤ places }
    ensures { result ≡ kept m }
{
    let Grouping {
        groups: given,
        reserves,
    } = m.grouping;
    let groups = cells(m.n, |i| given[i]);
    let grouping = Grouping { groups, reserves };
    Making { grouping, ..m }
}

// What a refused book has: no participants, and limits of 0.
fn no_making() -> Making
    ensures { result ≡ no_making }
{
    Making {
        n: 0,
        grouping: Grouping {
            groups: [0; PLACES],
            reserves: [0; GROUPS],
        },
        limits: Limits {
            participants: 0,
            periods: 0,
        },
    }
}

// A book for n participants in their groups, of these limits, or one without participants where that is refused.
pub fn new(m: Making) -> Made
    ensures { (number_of result.answer ≡ (made m).answer) × (result.book ≡ pack (made m).state) }
{
    let answer = making_answer(m);
    let makes = if answer.is_ok() { kept(m) } else { no_making() };
    Made {
        answer,
        book: empty_book(makes),
    }
}
