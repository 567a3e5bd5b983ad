// The clearing book: periods, purses and entries.
#![tactic(auto)]

use exact::Row;
use settlement::{Grouping, TierCells};
use std::marker::Model;

mod allowed;
mod answers;
mod blocks;
mod changes;
mod effects;
mod entries;
mod feed;
mod fields;
mod kinds;
mod limits;
mod lines;
mod makings;
mod periods;
mod places;
mod postings;
mod purses;
mod reader;
mod refusals;
mod steps;
mod writer;

pub use answers::{Answer, Refusal, number};
pub use blocks::{Ran, run};
pub use entries::Entry;
pub use feed::{Feed, feed_at, next_entry, read_next};
pub use limits::{Limits, demonstration, market};
pub use lines::LINE;
pub use makings::{Made, Making, new, separate};
pub use places::held;
pub use reader::{Found, ReadError};
pub use steps::{Applied, apply};
pub use writer::{WriteError, write_entry};

// A side is 0, owing by a participant, or 1, owing to it.
pub const SIDES: usize = 2;

// The places that a book has for periods.
pub const PERIOD_PLACES: usize = 12;

#[derive(Clone, Copy, Debug, PartialEq, Eq)]
pub enum Stage {
    Opened,
    Noticed,
    Settled,
}

// A period: each side's total, and rows of cents with a cell for each participant. `payable` is 0 until the notice,
// `paid`, `claim` and `arrears` are 0 until the settlement. The rows stand beside the stage, and in no variant of it, so that a period
// is one struct of flat arrays that is handed over by value. What is true of a period (`Sound`) is no ghost field: it takes the n
// of its book, which a period does not have.
#[derive(Clone, Copy)]
pub struct Period {
    number: u32,
    stage: Stage,
    totals: [u64; SIDES],
    by: Row,
    to: TierCells,
    payable: Row,
    received: Row,
    paid: Row,
    claim: Row,
    arrears: Row,
}

// A book of n participants: their groups and reserves, its limits, the highest period ever opened, the cents held, its periods
// in the first `count` places, oldest first, and each participant's purse. The places are an array with a count, since a Book is
// Copy for those who hand it to `apply` and `run`, as no vector is.
#[derive(Clone, Copy)]
pub struct Book {
    n: usize,
    grouping: Grouping,
    limits: Limits,
    highest: u32,
    count: usize,
    held: u64,
    periods: [Period; PERIOD_PLACES],
    purses: Row,
}

// Clauses see the record of these fields, and every book is valid.
impl Model for Book {
    ghost use Rattle.book.specs.rules.Records.{BookRecord};

    ghost Value = { BookRecord };

    ghost use Rattle.book.specs.rules.Valid.{Valid};
    ghost use Rattle.book.specs.rules.Insides.{record_of, inside_of};

    ghost view = { record_of };

    ghost invariant = { λ b. Valid (record_of b) };

    ghost inverse = { inside_of };
}
