//! Passes with their names.

ghost use Rattle.std.specs.Prelude.{◌≡◌, codes};
ghost use Rattle.debug_records.specs.Change.{letters, pass_name};
ghost use Rattle.pass_law.specs.Relations.{kept_steps};
ghost use Rattle.cdbg_passes.specs.Steps.{MovesCode, PropagatesCopies, RemovesDead};

use copy_pass::propagate_copies;
use dead_pass::remove_dead;
use debug_records::PassName;
use graph_core::Unit;
use motion_pass::move_code;
use pass_law::{Pass, name_of};
use std::alloc::{AllocError, Global};

/// Copy propagation, by the name `copy`.
#[derive(Drop)]
pub struct CopyPropagation {
    name: PassName,
    ghost called: { name ≡ pass_name (codes "copy") },
}

impl CopyPropagation {
    /// The pass.
    pub fn new() -> CopyPropagation
        ensures { letters result.name ≡ codes "copy" }
    {
        CopyPropagation {
            name: name_of(b"copy"),
        }
    }
}

impl Pass for CopyPropagation {
    ghost named = { λ pass. pass.name };

    ghost steps = { λ pass. kept_steps PropagatesCopies };

    fn name(&self) -> PassName {
        self.name
    }

    fn apply(&self, alloc: Global, unit: &Unit) -> Result<Unit, AllocError> {
        propagate_copies(alloc, unit)
    }
}

/// Lazy code motion, by the name `motion`.
#[derive(Drop)]
pub struct LazyMotion {
    name: PassName,
    ghost called: { name ≡ pass_name (codes "motion") },
}

impl LazyMotion {
    /// The pass.
    pub fn new() -> LazyMotion
        ensures { letters result.name ≡ codes "motion" }
    {
        LazyMotion {
            name: name_of(b"motion"),
        }
    }
}

impl Pass for LazyMotion {
    ghost named = { λ pass. pass.name };

    ghost steps = { λ pass. kept_steps MovesCode };

    fn name(&self) -> PassName {
        self.name
    }

    fn apply(&self, alloc: Global, unit: &Unit) -> Result<Unit, AllocError> {
        move_code(alloc, unit)
    }
}

/// The removal of dead assignments, by the name `dead`.
#[derive(Drop)]
pub struct DeadRemoval {
    name: PassName,
    ghost called: { name ≡ pass_name (codes "dead") },
}

impl DeadRemoval {
    /// The pass.
    pub fn new() -> DeadRemoval
        ensures { letters result.name ≡ codes "dead" }
    {
        DeadRemoval {
            name: name_of(b"dead"),
        }
    }
}

impl Pass for DeadRemoval {
    ghost named = { λ pass. pass.name };

    ghost steps = { λ pass. kept_steps RemovesDead };

    fn name(&self) -> PassName {
        self.name
    }

    fn apply(&self, alloc: Global, unit: &Unit) -> Result<Unit, AllocError> {
        remove_dead(alloc, unit)
    }
}
