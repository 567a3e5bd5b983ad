// The smaller, the larger and the cut-off difference of two numbers. They stay beside the methods that they call, since they are
// public.
ghost use Rattle.std.specs.Prelude.{◌≡◌, ◌-◌, min, max};

// The smaller of two numbers.
pub fn smaller(a: u64, b: u64) -> u64
    ensures { result ≡ min a b }
{
    a.min(b)
}

// The larger of two numbers.
pub fn larger(a: u64, b: u64) -> u64
    ensures { result ≡ max a b }
{
    a.max(b)
}

// What a has above b, 0 where it has nothing above it.
pub fn excess(a: u64, b: u64) -> u64
    ensures { result ≡ a - b }
{
    a.saturating_sub(b)
}
