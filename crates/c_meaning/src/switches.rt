//! The labels of a `switch`, and what leaves it (ISO/IEC 9899:2011, 6.8.4.2, 6.8.6.3).

ghost use Rattle.std.specs.Prelude.{◌≡◌, ◌≤◌, ℕ};
ghost use Rattle.c_tree.specs.TypedStatements.{statements_view};
ghost use Rattle.c_meaning_steps.specs.States as states;
ghost use Rattle.c_meaning_steps.specs.Views.{outcome_view};
ghost use Rattle.c_meaning.specs.Activations.{Activation};
ghost use Rattle.c_meaning.specs.Expressions.{Calls};
ghost use Rattle.c_meaning.specs.Statements.{after_switch, by_label, execute_all, execute_case, execute_default, has_case};
ghost use Rattle.c_meaning.specs.Weights.{weight_of_statements};

use c_meaning_steps::Outcome;
use c_tree::TypedStatements;

/// Whether a switch's block has a label for a number.
fn has_case(number: i64, all: &TypedStatements) -> bool
    ensures { result ≡ has_case number (statements_view all.now) }
{
    match all {
        TypedStatements::End => false,
        TypedStatements::Case(label, rest) => number == *label || has_case(number, rest),
        TypedStatements::More(_, rest) | TypedStatements::Default(rest) => has_case(number, rest),
    }
}

/// The statements from the label of a number on; none where there is none.
fn from_case(number: i64, all: &TypedStatements) -> &TypedStatements
    ensures same { (calls : ℕ → Calls) (here : Activation) (s : states.State)
        → execute_all calls here (statements_view result.now) s ≡ execute_case calls here number
        (statements_view all.now) s }
    ensures lighter { weight_of_statements (statements_view result.now)
        ≤ weight_of_statements (statements_view all.now) }
{
    match all {
        TypedStatements::End => all,
        TypedStatements::Case(label, rest) => {
            if number == *label {
                rest
            } else {
                from_case(number, rest)
            }
        }
        TypedStatements::More(_, rest) | TypedStatements::Default(rest) => from_case(number, rest),
    }
}

/// The statements from `default` on; none where there is none.
fn from_default(all: &TypedStatements) -> &TypedStatements
    ensures same { (calls : ℕ → Calls) (here : Activation) (s : states.State)
        → execute_all calls here (statements_view result.now) s
        ≡ execute_default calls here (statements_view all.now) s }
    ensures lighter { weight_of_statements (statements_view result.now)
        ≤ weight_of_statements (statements_view all.now) }
{
    match all {
        TypedStatements::End => all,
        TypedStatements::Default(rest) => rest,
        TypedStatements::More(_, rest) | TypedStatements::Case(_, rest) => from_default(rest),
    }
}

/// The statements of a `switch` with which control goes on, for a number.
pub fn labelled(number: i64, all: &TypedStatements) -> &TypedStatements
    ensures same { (calls : ℕ → Calls) (here : Activation) (s : states.State)
        → execute_all calls here (statements_view result.now) s ≡ by_label (has_case number (statements_view all.now))
        (execute_case calls here number (statements_view all.now))
        (execute_default calls here (statements_view all.now)) s }
    ensures lighter { weight_of_statements (statements_view result.now)
        ≤ weight_of_statements (statements_view all.now) }
{
    if has_case(number, all) {
        from_case(number, all)
    } else {
        from_default(all)
    }
}

/// What leaves a `switch`.
pub fn left_switch(outcome: Outcome) -> Outcome
    ensures { (s : states.State) → outcome_view result s ≡ after_switch (outcome_view outcome s) }
{
    match outcome {
        Outcome::Broken => Outcome::Next,
        outcome => outcome,
    }
}
