//! Laws of the definitions: functions that do nothing, and whose contracts are the laws.

ghost use Rattle.rv_machine.specs.Laws.{EndingsRepeat, EffectsKeep};

/// After an ending the same comes of every further step.
#[tactic(auto, using(crate::proofs::Laws::endings_repeat))]
pub fn endings_repeat()
    ensures { EndingsRepeat }
{}

/// No instruction changes the code, the sizes of the regions, or register 0.
#[tactic(auto, using(crate::proofs::Laws::effects_keep))]
pub fn effects_keep()
    ensures { EffectsKeep }
{}
