//! What blocks hold by a plan, and whether it is held.

ghost use Rattle.std.specs.Prelude.{◌≡◌, true};
ghost use Rattle.graph_core.specs.Paths.{Among};
ghost use Rattle.rv_emit_plan.specs.Plans.{held_at};
ghost use Rattle.rv_emit_sequence.specs.Sequences.{Holds};

use rv_emit_plan::Plan;
use rv_emit_words::Held;

/// What a block holds by a plan.
pub fn held_at(plan: &Plan, block: u32) -> &[Held]
    ensures { result.now ≡ held_at plan.now block }
{
    match plan.held.get(block as usize) {
        Some(held) => held,
        None => &[],
    }
}

/// Whether all that one list has is held by another.
pub fn holds_all(held: &[Held], wanted: &[Held]) -> bool
    ensures { result ≡ true → Holds held.now wanted.now }
{
    let mut left = wanted;
    while let [one, rest @ ..] = left {
        if !holds(held, *one) {
            return false;
        }
        left = rest;
    }
    true
}

/// Whether a register holds a word.
pub fn holds(held: &[Held], wanted: Held) -> bool
    ensures { result ≡ true → Among wanted held.now }
{
    let mut left = held;
    while let [one, rest @ ..] = left {
        if one.register == wanted.register && one.word == wanted.word {
            return true;
        }
        left = rest;
    }
    false
}
