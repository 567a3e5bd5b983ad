// The book's answers.
ghost use Rattle.std.specs.Prelude.{◌≡◌, Err};
ghost use Rattle.book.specs.rules.Answers.{number_of};

// Why an entry or a making is refused, by the numbers of the rules.
#[derive(Clone, Copy, Debug, PartialEq, Eq)]
pub enum Refusal {
    Outside = 3,
    NoParticipants = 4,
    FewWords = 5,
    NotAbove = 6,
    Full = 7,
    NotInBook = 8,
    WrongStage = 9,
    Unequal = 10,
    PastBound = 11,
    NotAParticipant = 12,
    TooMuch = 13,
    EarlierArrears = 14,
    PursePastBound = 15,
    Misdated = 16,
}

impl Refusal {
    // The number that the rules give it. `ReadError` and `WriteError` have the same method: each is numbered by a definition of its own,
    // so a trait would take three impls of this line, with that definition in each.
    pub fn number(self) -> u64
        ensures { result ≡ number_of (Err self) }
    {
        // `as`: std has no From for the number of a variant.
        self as u64
    }
}

pub type Answer = Result<(), Refusal>;

// The number that the rules give an answer.
pub fn number(a: Answer) -> u64
    ensures { result ≡ number_of a }
{
    match a {
        Ok(()) => 0,
        Err(refusal) => refusal.number(),
    }
}
