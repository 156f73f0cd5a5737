//! Words of 64 bits, many at once.

ghost use Rattle.std.specs.Prelude.{◌≡◌, ◌≢◌, ◌⊎◌, ◌↔◌, ℕ, ◌+◌, ◌^◌, ◌<◌, ◌≤◌, false, true, length, slice_index};
ghost use Rattle.bit_rows.specs.Words.{met_word, passed_word};

/// What is left of two words where rows meet: each bit that one of them has, or without `unite` that both have.
fn meet_word(a: u64, b: u64, unite: bool) -> u64
    ensures { result ≡ met_word unite a b }
{
    if unite { a | b } else { a & b }
}

/// Lets so many words at `to` meet those at `from`. Tells whether one changed.
pub(crate) fn meet_words(
    words: &mut [u64],
    from: usize,
    to: usize,
    count: usize,
    unite: bool,
) -> bool
    requires from { from + count ≤ length words.old }
    requires to { to + count ≤ length words.old }
    requires apart { from < to → from + count ≤ to }
    ensures met { (k : ℕ) → k < count
        → slice_index words.new (to + k) ≡ met_word unite (slice_index words.old (from + k))
        (slice_index words.old (to + k)) }
    ensures others { (j : ℕ) → (j < to) ⊎ (to + count ≤ j) → slice_index words.new j ≡ slice_index words.old j }
    ensures fit { (k : ℕ) → slice_index words.old k < 2 ^ 64 }
    ensures changed { (result ≡ false) ↔
        ((k : ℕ) → k < count → slice_index words.new (to + k) ≡ slice_index words.old (to + k)) }
{
    let mut changed = false;
    for k in 0..count {
        let before = words[to + k];
        let after = meet_word(words[from + k], before, unite);
        words[to + k] = after;
        changed |= after != before;
    }
    changed
}

/// Makes so many words at `to` what `kept` keeps of those at `from`, with the bits that are `written`.
pub(crate) fn pass_words(
    words: &mut [u64],
    from: usize,
    to: usize,
    kept: &[u64],
    written: &[u64],
    at: usize,
    count: usize,
)
    requires from { from + count ≤ length words.old }
    requires to { to + count ≤ length words.old }
    requires apart { from < to → from + count ≤ to }
    requires kept { at + count ≤ length kept.now }
    requires written { at + count ≤ length written.now }
    ensures passed { (k : ℕ) → k < count
        → slice_index words.new (to + k) ≡ passed_word (slice_index words.old (from + k))
        (slice_index kept.now (at + k)) (slice_index written.now (at + k)) }
    ensures others { (j : ℕ) → (j < to) ⊎ (to + count ≤ j) → slice_index words.new j ≡ slice_index words.old j }
{
    for k in 0..count {
        words[to + k] = (words[from + k] & kept[at + k]) | written[at + k];
    }
}

/// Gives so many words at `to` what those of another list at `at` have. Tells whether one changed.
pub(crate) fn add_words(
    words: &mut [u64],
    to: usize,
    other: &[u64],
    at: usize,
    count: usize,
) -> bool
    requires to { to + count ≤ length words.old }
    requires at { at + count ≤ length other.now }
    ensures met { (k : ℕ) → k < count
        → slice_index words.new (to + k)
        ≡ met_word true (slice_index other.now (at + k)) (slice_index words.old (to + k)) }
    ensures others { (j : ℕ) → (j < to) ⊎ (to + count ≤ j) → slice_index words.new j ≡ slice_index words.old j }
    ensures fit { (k : ℕ) → slice_index words.old k < 2 ^ 64 }
    ensures fit_other { (k : ℕ) → slice_index other.now k < 2 ^ 64 }
    ensures changed { (result ≡ false)
        ↔ ((k : ℕ) → k < count → slice_index words.new (to + k) ≡ slice_index words.old (to + k)) }
{
    let mut changed = false;
    for k in 0..count {
        let before = words[to + k];
        let after = meet_word(other[at + k], before, true);
        words[to + k] = after;
        changed |= after != before;
    }
    changed
}

/// Makes so many words at `to` those of another list at `at`.
pub(crate) fn copy_words(words: &mut [u64], to: usize, other: &[u64], at: usize, count: usize)
    requires to { to + count ≤ length words.old }
    requires at { at + count ≤ length other.now }
    ensures copied { (k : ℕ) → k < count → slice_index words.new (to + k) ≡ slice_index other.now (at + k) }
    ensures others { (j : ℕ) → (j < to) ⊎ (to + count ≤ j) → slice_index words.new j ≡ slice_index words.old j }
{
    for k in 0..count {
        words[to + k] = other[at + k];
    }
}
