//! Homes in registers, by the order of names.

ghost use Rattle.std.specs.Prelude.{◌≡◌, ◌+◌, ◌<◌, ◌≤◌, ◌++◌, ◌∷◌, ℕ, [], IfOk, IfSome, OnOk, length, slice_get};
ghost use Rattle.std.specs.List.{AllByRecursion};
ghost use Rattle.graph_core.specs.Graphs.{graph_view};
ghost use Rattle.graph_homes.specs.Frames.{home_registers};
ghost use Rattle.graph_homes.specs.Homed.{IsHomeAmong, IsHomeRegister};
ghost use Rattle.home_assign.specs.Choosing.{HasRegister, HaveHomeRegisters, HaveNext, IsChosen, IsWished};
ghost use Rattle.home_assign.specs.Homes.{AreHomesFor};
ghost use Rattle.home_assign.specs.Rule.{AreHomes, slots_in};
ghost use Rattle.home_assign.specs.Clashes.{MayHaveHomes};
ghost use Rattle.home_assign.specs.Registers.{HaveSameClashes, HaveSameRegisters, IsFreeFor};

use crate::{Interference, first_joined, interference_of};
use debug_records::Mode;
use graph_core::Graph;
use graph_homes::Home;
use std::alloc::{AllocError, Global};

/// The registers that may be homes, in the order in which they are taken: s1 to s11 and t3 to t6.
const HOME_REGISTERS: [u8; 15] = [9, 18, 19, 20, 21, 22, 23, 24, 25, 26, 27, 28, 29, 30, 31];

/// The homes of a graph's names as far as they are chosen.
#[derive(Drop)]
struct Choice {
    homes: Vec<Home>,
    slots: u32,
}

/// A register that may be a home, by its number among them.
fn home_register(number: u32) -> u8
    requires { number < 15 }
    ensures home { IsHomeRegister result }
    ensures at { slice_get home_registers number ≡ Some result }
{
    HOME_REGISTERS[number as usize]
}

/// The number of a register among those that may be homes.
fn number_of(register: u8) -> Option<u32>
    ensures some { IfSome result (λ k. slice_get home_registers k ≡ Some register) }
    ensures none { result ≡ None → (k : ℕ) → slice_get home_registers k ≡ Some register → ⊥ }
{
    for number in 0..15u32 {
        if home_register(number) == register {
            return Some(number);
        }
    }
    None
}

impl Choice {
    /// The register of a name, if it has one, as its number among those that may be homes.
    fn register_of(&self, name: u32) -> Option<u32>
        ensures some { IfSome result (λ k. HasRegister self.now.homes.items name k) }
        ensures none { result ≡ None → (k : ℕ) → HasRegister self.now.homes.items name k → ⊥ }
    {
        match self.homes.get(name as usize) {
            Some(Home::Register(register)) => number_of(*register),
            Some(Home::Slot(_)) | None => None,
        }
    }

    /// The register of the name that this one is joined to, if it is free.
    fn joined(&self, interference: &mut Interference, name: u32, joined: Option<u32>) -> Option<u32>
        requires { name < interference.old.names }
        ensures some { IfSome result (λ k. IsWished self.now.homes.items joined k × IsFreeFor interference.old k name) }
        ensures none { result ≡ None → (k : ℕ) → IsWished self.now.homes.items joined k
            → IsFreeFor interference.old k name → ⊥ }
        ensures clashes { HaveSameClashes interference.old interference.new }
        ensures registers { HaveSameRegisters interference.old interference.new }
    {
        let register = self.register_of(joined?)?;
        if interference.is_free(register, name) {
            Some(register)
        } else {
            None
        }
    }

    /// The register of the next name, if there is one.
    fn chosen(&self, interference: &mut Interference, name: u32, joined: Option<u32>) -> Option<u32>
        requires { name < interference.old.names }
        ensures chosen { IsChosen (IsWished self.now.homes.items joined) (λ k. IsFreeFor interference.old k name) result }
        ensures within { IfSome result (λ k. k < 15) }
        ensures clashes { HaveSameClashes interference.old interference.new }
        ensures registers { HaveSameRegisters interference.old interference.new }
    {
        match self.joined(interference, name, joined) {
            Some(register) => Some(register),
            None => first_free(interference, name),
        }
    }

    /// The home of the next name.
    fn push(
        &mut self,
        interference: &mut Interference,
        name: u32,
        joined: Option<u32>,
    ) -> Result<(), AllocError>
        requires few { length self.old.homes.items < 3000 }
        requires name { name ≡ length self.old.homes.items }
        requires within { name < interference.old.names }
        requires slots { self.old.slots ≡ slots_in self.old.homes.items }
        requires among { AllByRecursion (IsHomeAmong (length self.old.homes.items)) self.old.homes.items }
        requires registers { HaveHomeRegisters interference.old self.old.homes.items }
        ensures clashes { OnOk result (HaveSameClashes interference.old interference.new) }
        ensures registers { OnOk result (HaveHomeRegisters interference.new self.new.homes.items) }
        ensures slots { OnOk result (self.new.slots ≡ slots_in self.new.homes.items) }
        ensures among { OnOk result (AllByRecursion (IsHomeAmong (length self.new.homes.items)) self.new.homes.items) }
        ensures next { OnOk result (HaveNext interference.old joined name self.old.homes.items self.new.homes.items) }
    {
        match self.chosen(interference, name, joined) {
            Some(register) => {
                interference.take(register, name);
                put_home(&mut self.homes, Home::Register(home_register(register)))?;
                Ok(())
            }
            None => {
                put_home(&mut self.homes, Home::Slot(self.slots))?;
                self.slots += 1;
                Ok(())
            }
        }
    }
}

/// The first register that is free for a name.
fn first_free(interference: &mut Interference, name: u32) -> Option<u32>
    requires { name < interference.old.names }
    ensures some { IfSome result (λ k.
        (k < 15) × IsFreeFor interference.old k name × ((j : ℕ) → j < k → IsFreeFor interference.old j name → ⊥)) }
    ensures none { result ≡ None → (j : ℕ) → j < 15 → IsFreeFor interference.old j name → ⊥ }
    ensures clashes { HaveSameClashes interference.old interference.new }
    ensures registers { HaveSameRegisters interference.old interference.new }
{
    for register in 0..15u32 {
        if interference.is_free(register, name) {
            return Some(register);
        }
    }
    None
}

/// Appends a home.
#[tactic(auto, using(crate::proofs::Among::among_put))]
fn put_home(homes: &mut Vec<Home>, home: Home) -> Result<(), AllocError>
    requires among { AllByRecursion (IsHomeAmong (length homes.old.items)) homes.old.items }
    requires home { IsHomeAmong (length homes.old.items + 1) home }
    ensures put { OnOk result (homes.new.items ≡ homes.old.items ++ home ∷ []) }
    ensures among { OnOk result (AllByRecursion (IsHomeAmong (length homes.new.items)) homes.new.items) }
{
    homes.push(home)?;
    Ok(())
}

/// The homes of a graph's names, in order: the register of the earliest earlier name that it is joined to, where that
/// is free; else the first register that is free; else a slot of its own.
pub(crate) fn registers(alloc: Global, graph: &Graph) -> Result<Vec<Home>, AllocError>
    requires { MayHaveHomes (graph_view graph.now) }
    ensures homes { IfOk result (λ v. AreHomesFor graph.now.name_count v.items) }
    ensures rule { IfOk result (λ v. AreHomes Mode.Registers (graph_view graph.now) v.items) }
{
    let mut interference = interference_of(alloc, graph)?;
    let joined = first_joined(alloc, graph)?;
    let mut choice = Choice {
        homes: Vec::new(alloc),
        slots: 0,
    };
    for (name, first) in joined.iter().enumerate() {
        choice.push(&mut interference, name as u32, *first)?;
    }
    Ok(choice.homes)
}
