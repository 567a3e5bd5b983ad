// The exact proportion amount × part / whole, whose product needs up to 87 bits, by long division in 64-bit words.
ghost use Rattle.std.specs.Prelude.{◌≡◌, ℕ, ◌+◌, ◌*◌, ◌/◌, ◌%◌, ◌^◌, ◌≤◌, ◌<◌};
ghost use Rattle.exact.specs.Division.{ceil_div, Proportional};

// A quotient rounded down, and what the division leaves.
#[derive(Clone, Copy)]
pub struct Quotient {
    pub quotient: u64,
    pub remainder: u64,
}

// One digit of 15 bits of the long division: from upper × part by whole to (upper × 2^15 + digit) × part by whole.
fn next_digit(upper: Quotient, digit: u64, part: u64, whole: u64) -> Quotient
    requires { (upper.quotient < 2 ^ 30) × (upper.remainder < whole) × (digit < 2 ^ 15) × (part ≤ whole) × (whole < 2 ^ 44) }
    ensures { (h : ℕ) → upper.quotient ≡ h * part / whole → upper.remainder ≡ h * part % whole → (result.quotient ≡ (h * 2 ^ 15 + digit) * part / whole) × (result.remainder ≡ (h * 2 ^ 15 + digit) * part % whole) }
{
    let n = upper.remainder * 0x8000 + digit * part;
    Quotient {
        quotient: upper.quotient * 0x8000 + n / whole,
        remainder: n % whole,
    }
}

// Public functions of plain numbers: `Proportional` stays a clause, since a type would be asked of every caller.
// amount × part / whole with its remainder. The amount is taken in digits of 14, 15 and 15 bits, highest first.
pub fn proportion(amount: u64, part: u64, whole: u64) -> Quotient
    requires { Proportional amount part whole }
    ensures { (result.quotient ≡ amount * part / whole) × (result.remainder ≡ amount * part % whole) }
{
    let n = amount / 0x4000_0000 * part;
    let high = Quotient {
        quotient: n / whole,
        remainder: n % whole,
    };
    let middle = next_digit(high, amount / 0x8000 % 0x8000, part, whole);
    next_digit(middle, amount % 0x8000, part, whole)
}

// amount × part / whole, rounded up.
pub fn proportion_up(amount: u64, part: u64, whole: u64) -> u64
    requires { Proportional amount part whole }
    ensures { result ≡ ceil_div (amount * part) whole }
{
    let Quotient {
        quotient,
        remainder,
    } = proportion(amount, part, whole);
    if remainder == 0 {
        quotient
    } else {
        quotient + 1
    }
}
