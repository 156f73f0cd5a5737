//! Sets of numbers as the bits of a word: each number stands for those that are equal to it but for multiples of 64.

ghost use Rattle.std.specs.Prelude.{◌≡◌, ℕ, ◌%◌, ◌==◌, ◌&&◌, ◌||◌, not};
ghost use Rattle.motion_pass_points.specs.Words.{has};

/// A number alone.
pub fn only(number: u32) -> u64
    ensures { (n : ℕ) → has result n ≡ (n % 64 == number % 64) }
{
    1u64 << (number % 64)
}

/// Whether a number is in a set.
pub fn is_in(word: u64, number: u32) -> bool
    ensures { result ≡ has word number }
{
    (word >> (number % 64)) & 1 == 1
}

/// What is in one of two sets.
pub fn either(one: u64, other: u64) -> u64
    ensures { (n : ℕ) → has result n ≡ (has one n || has other n) }
{
    one | other
}

/// What is in two sets.
pub fn both(one: u64, other: u64) -> u64
    ensures { (n : ℕ) → has result n ≡ (has one n && has other n) }
{
    one & other
}

/// What is in a set, and not in the other.
pub fn without(one: u64, other: u64) -> u64
    ensures { (n : ℕ) → has result n ≡ (has one n && not (has other n)) }
{
    one & !other
}
