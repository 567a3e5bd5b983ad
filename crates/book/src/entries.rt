// Entries by kind, with the fields of 01 and 02 at their widths. Sides and tiers are numbers, since `write_entry` and `apply` take
// entries of any field values and refuse those outside.
ghost use Rattle.std.specs.Prelude.{◌≡◌};
ghost use Rattle.book.specs.layouts.Entries.{body_length, kind_number, kind_of};

#[derive(Clone, Copy)]
pub enum Entry {
    Open {
        period: u32,
    },
    Energy {
        period: u32,
        participant: u8,
        side: u8,
        quantity: u32,
        price: u32,
    },
    Amount {
        period: u32,
        participant: u8,
        side: u8,
        tier: u8,
        cents: u64,
    },
    Notice {
        period: u32,
    },
    Receipt {
        period: u32,
        participant: u8,
        cents: u64,
    },
    Settle {
        period: u32,
    },
    Purse {
        participant: u8,
        cents: u64,
    },
    Washup {
        period: u32,
        earlier: u32,
        participant: u8,
        side: u8,
        old: u32,
        new: u32,
        price: u32,
    },
}

// The kinds of entry, with their numbers.
#[derive(Clone, Copy, Debug, PartialEq, Eq)]
pub enum Kind {
    Open = 1,
    Energy = 2,
    Amount = 3,
    Notice = 4,
    Receipt = 5,
    Settle = 6,
    Purse = 7,
    Washup = 8,
}

// The length of a body, by kind; there is no kind 0. A constant array by kind, the form that the rules
// document names, as the definition `body_lengths` is a list.
const BODY_LENGTHS: [usize; 9] = [0, 4, 14, 15, 4, 13, 4, 9, 22];

impl Kind {
    pub(crate) fn number(self) -> u8
        ensures { result ≡ kind_number self }
    {
        // `as`, here and below: std has no From for the number of a variant.
        self as u8
    }

    pub(crate) fn body_length(self) -> usize
        ensures { result ≡ body_length (kind_number self) }
    {
        BODY_LENGTHS[self as usize]
    }
}

impl Entry {
    pub(crate) fn kind(&self) -> Kind
        ensures { kind_number result ≡ kind_of self.now }
    {
        match self {
            Entry::Open { .. } => Kind::Open,
            Entry::Energy { .. } => Kind::Energy,
            Entry::Amount { .. } => Kind::Amount,
            Entry::Notice { .. } => Kind::Notice,
            Entry::Receipt { .. } => Kind::Receipt,
            Entry::Settle { .. } => Kind::Settle,
            Entry::Purse { .. } => Kind::Purse,
            Entry::Washup { .. } => Kind::Washup,
        }
    }
}
