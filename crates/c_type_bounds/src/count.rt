//! Counts in the machine's numbers.

ghost use Rattle.std.specs.Prelude.{◌≡◌, ℕ, ◌+◌};
ghost use Rattle.c_type_bounds.specs.Counts.{capped};

/// The sum of two counts, or the greatest number where that is more.
pub fn plus(one: u64, other: u64) -> u64
    ensures sum { result ≡ capped (one + other) }
    ensures sum_of { (x y : ℕ) → one ≡ capped x → other ≡ capped y → result ≡ capped (x + y) }
{
    one.saturating_add(other)
}
