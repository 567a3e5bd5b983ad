// The calls in the bytes that were read: one byte says which, then its fields, least significant byte first.
ghost use Rattle.std.specs.Prelude.{◌+◌, ◌≤◌, ◌≡◌, length, IfOk};
ghost use Rattle.trial.specs.Calls.{call_length};

use crate::kinds::{OPEN, WASHUP};

// The length of READ up to the bytes to be read.
pub const READ_LENGTH: usize = 11;

// A whole call, READ with how many bytes are to be read.
#[derive(Clone, Copy, Debug, PartialEq, Eq)]
pub enum Call {
    Make,
    MakeGrouped,
    MakeLimited,
    Apply,
    Read(u16),
    Write,
}

// Why no whole call stands there: not all of its bytes have come yet, or no call begins so.
#[derive(Clone, Copy, Debug, PartialEq, Eq)]
pub enum NoCall {
    Short,
    Unknown,
}

impl Call {
    // How many bytes a call takes.
    pub fn length(self) -> usize
        ensures { result ≡ call_length self }
    {
        match self {
            Call::Make => 9,
            Call::MakeGrouped => 585,
            Call::MakeLimited => 601,
            Call::Apply | Call::Write => 34,
            Call::Read(count) => READ_LENGTH + usize::from(count),
        }
    }
}

// What APPLY and WRITE are called with: all fields, whatever the kind, and how many words or bytes to lend. The new quantity of
// a washup is in `quantity`.
#[derive(Clone, Copy, Debug, PartialEq, Eq)]
pub struct Fields {
    pub kind: u8,
    pub period: u32,
    pub participant: u8,
    pub side: u8,
    pub tier: u8,
    pub quantity: u32,
    pub price: u32,
    pub cents: u64,
    pub earlier: u32,
    pub old: u32,
    pub room: u8,
}

// The bytes from a place on that make a number. `word_at` and `long_at` below are two, since a number's type has its own from_le_bytes.
fn bytes_at<const N: usize>(s: &[u8], place: usize) -> [u8; N]
    requires { place + N ≤ length s.now }
{
    *s[place..].first_chunk().unwrap()
}

fn word_at(s: &[u8], place: usize) -> u32
    requires { place + 4 ≤ length s.now }
{
    u32::from_le_bytes(bytes_at(s, place))
}

pub fn long_at(s: &[u8], place: usize) -> u64
    requires { place + 8 ≤ length s.now }
{
    u64::from_le_bytes(bytes_at(s, place))
}

// The fields of the call APPLY or WRITE at the start of s.
pub fn fields_of(s: &[u8]) -> Fields
    requires { 34 ≤ length s.now }
{
    Fields {
        kind: s[1],
        period: word_at(s, 2),
        participant: s[6],
        side: s[7],
        tier: s[8],
        quantity: word_at(s, 9),
        price: word_at(s, 13),
        cents: long_at(s, 17),
        earlier: word_at(s, 25),
        old: word_at(s, 29),
        room: s[33],
    }
}

// The call, where all of its bytes have come.
fn whole(s: &[u8], call: Call) -> Result<Call, NoCall>
    ensures { IfOk result (λ c. call_length c ≤ length s.now) }
{
    if s.len() < call.length() {
        return Err(NoCall::Short);
    }
    Ok(call)
}

// A call that names an entry by its kind.
fn with_entry(s: &[u8], call: Call) -> Result<Call, NoCall>
    requires { 2 ≤ length s.now }
    ensures { IfOk result (λ c. call_length c ≤ length s.now) }
{
    if (OPEN..=WASHUP).contains(&s[1]) {
        whole(s, call)
    } else {
        Err(NoCall::Unknown)
    }
}

// A call with the bytes to be read.
fn reading(s: &[u8]) -> Result<Call, NoCall>
    ensures { IfOk result (λ c. call_length c ≤ length s.now) }
{
    if s.len() < READ_LENGTH {
        return Err(NoCall::Short);
    }
    whole(s, Call::Read(u16::from_le_bytes(bytes_at(s, 9))))
}

// The call at the start of s, by its letter.
pub fn call_at(s: &[u8]) -> Result<Call, NoCall>
    ensures { IfOk result (λ c. call_length c ≤ length s.now) }
{
    if s.len() < 2 {
        return Err(NoCall::Short);
    }
    match s[0] {
        b'B' => whole(s, Call::Make),
        b'G' => whole(s, Call::MakeGrouped),
        b'L' => whole(s, Call::MakeLimited),
        b'R' => reading(s),
        b'A' => with_entry(s, Call::Apply),
        b'W' => with_entry(s, Call::Write),
        _ => Err(NoCall::Unknown),
    }
}
