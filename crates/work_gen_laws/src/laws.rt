//! Laws of generated programs.

ghost use Rattle.std.specs.Prelude.{◌≤◌, ◌<◌, ◌^◌, ℕ, List};
ghost use Rattle.command_line.specs.Grammar.{IsJob};
ghost use Rattle.command_line.specs.Job.{SweepGiven, sweep};
ghost use Rattle.command_line.specs.Words.{Text};
ghost use Rattle.c_source.specs.Sources.{HasProgram};
ghost use Rattle.work_gen.specs.Generated.{text};

/// A law: the text that is generated from a seed of 32 bits and a size from 1 to 400 is of a program.
pub fn generated_is_a_program()
    ensures { (seed size : ℕ) → seed < 2 ^ 32 → 1 ≤ size → size ≤ 400 → HasProgram (text seed size) }
{}

/// A law: so is the text of each `sweep` that words are.
pub fn a_sweep_is_of_a_program()
    ensures { (words : List Text) (given : SweepGiven) → IsJob words (sweep given)
        → HasProgram (text given.seed given.size) }
{}
