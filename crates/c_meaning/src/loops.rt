//! How a loop goes on behind its parts (ISO/IEC 9899:2011, 6.8.5, 6.8.6).

ghost use Rattle.std.specs.Prelude.{◌≡◌};
ghost use Rattle.c_meaning_steps.specs.States as states;
ghost use Rattle.c_meaning_steps.specs.Views.{outcome_view};
ghost use Rattle.c_meaning.specs.Statements.{after_body, then_do};
ghost use Rattle.c_meaning.specs.Views.{round_view};

use c_meaning_steps::Outcome;

/// How a round of a loop ends.
#[derive(Clone, Copy)]
pub enum Round {
    /// The next round follows.
    Again,
    /// The loop is left.
    Leave(Outcome),
}

/// How a loop goes on behind its body.
pub fn behind_body(outcome: Outcome) -> Round
    ensures { (again : states.State → states.Outcome) (s : states.State)
        → round_view result again s ≡ after_body (outcome_view outcome s) again }
{
    match outcome {
        Outcome::Next | Outcome::Continued => Round::Again,
        Outcome::Broken => Round::Leave(Outcome::Next),
        Outcome::Returned(value) => Round::Leave(Outcome::Returned(value)),
        Outcome::Ended(ending) => Round::Leave(Outcome::Ended(ending)),
    }
}

/// How a loop goes on behind its step.
pub fn behind_step(outcome: Outcome) -> Round
    ensures { (again : states.State → states.Outcome) (s : states.State)
        → round_view result again s ≡ then_do (outcome_view outcome s) again }
{
    match outcome {
        Outcome::Next => Round::Again,
        outcome => Round::Leave(outcome),
    }
}
