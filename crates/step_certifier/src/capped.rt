// Numbers up to the most steps of a bound: what is more counts as the most.
ghost use Rattle.std.specs.Prelude.{◌≡◌, ℕ, ◌+◌, ◌*◌, ◌≤◌, max};
ghost use Rattle.step_certifier.specs.Capped.{capped};

/// The most steps of a bound.
pub(crate) const MOST_STEPS: u64 = 1_000_000_000_000_000_000;

/// The sum of two numbers.
pub(crate) fn sum(a: u64, b: u64) -> u64
    ensures value { result ≡ capped (a + b) }
    ensures capped { (x y : ℕ) → a ≡ capped x → b ≡ capped y → result ≡ capped (x + y) }
{
    a.saturating_add(b).min(MOST_STEPS)
}

/// So many times a number.
pub(crate) fn product(times: u32, each: u64) -> u64
    ensures value { result ≡ capped (times * each) }
    ensures capped { (x : ℕ) → each ≡ capped x → result ≡ capped (times * x) }
{
    u64::from(times).saturating_mul(each).min(MOST_STEPS)
}

/// The greater of two numbers.
pub(crate) fn greater(a: u64, b: u64) -> u64
    ensures value { result ≡ max a b }
    ensures capped { (x y : ℕ) → a ≡ capped x → b ≡ capped y → result ≡ capped (max x y) }
{
    a.max(b)
}
