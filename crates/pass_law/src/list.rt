//! Lists of passes.

ghost use Rattle.std.specs.Prelude.{◌≡◌, ◌≤◌, ◌<◌, ◌^◌, ◌*◌, ◌+◌, ◌++◌, ◌↔◌, [], ◌∷◌, AllPairs, IfErr, IfOk, IfSome, IsSomeAnd, IsTrue, MatchOption, OnOk, Some, length, map, slice_get};
ghost use Rattle.debug_records.specs.Change.{letters};
ghost use Rattle.graph_core.specs.Graphs.{unit_view};
ghost use Rattle.graph_core.specs.Validity.{IsValid};
ghost use Rattle.graph_core.specs.WellMarked.{AreWellMarked};
ghost use Rattle.pass_law.specs.HandedIn.{AreHandedIn, IsHandedIn, IsNoPass};
ghost use Rattle.pass_law.specs.Keeps.{Keeps};
ghost use Rattle.pass_law.specs.Kept.{KeepsShape};
ghost use Rattle.pass_law.specs.Leading.{IsFirst, IsLawfulStep, Lead};
ghost use Rattle.pass_law.specs.Logs.{LogsWell, most_changes};
ghost use Rattle.pass_law.specs.Trails.{IsReason, IsTrail, OfLast};

use crate::pass::Pass;
use debug_records::PassName;
use graph_core::Unit;
use std::alloc::{AllocError, Global};
use thiserror::Error;

/// How many names a list has at most.
pub const MAX_LIST_LENGTH: usize = 32;

/// The units before and after each pass of a list, in order.
#[derive(Drop)]
pub struct Trail {
    pub units: Vec<Unit>,
}

/// Why a list was not run.
#[derive(Debug, Drop, Error)]
pub enum RunErr {
    /// The name at this index of the list is no pass's.
    #[error("name {0} of the list is no pass's")]
    Unknown(usize),
    /// Memory was refused.
    #[error("out of memory")]
    NoMemory,
}

impl From<AllocError> for RunErr {
    ghost use Rattle.pass_law.specs.declared.list.RunErr.TheVariants.{NoMemory};

    ghost from_gives = { λ _ error. error ≡ NoMemory };

    fn from(_error: AllocError) -> RunErr {
        RunErr::NoMemory
    }
}

/// Whether a pass has a name of the same letters.
fn is_called(pass: &Box<dyn Pass>, name: &PassName) -> bool
    ensures { IsTrue result ↔ (letters (named pass.now) ≡ letters name.now) }
{
    let own = pass.name();
    own.letters() == name.letters()
}

/// The index of the first pass of a name, if one has it.
fn find_pass(passes: &[Box<dyn Pass>], name: &PassName) -> Option<usize>
    ensures found { MatchOption result (IsNoPass (λ p. named p) passes.now (letters name.now))
        (λ _. IsHandedIn (λ p. named p) passes.now (letters name.now)) }
    ensures within { IfSome result (λ i. i < length passes.now) }
    ensures first { IfSome result (λ i. IsSomeAnd (slice_get passes.now i)
        (λ p. IsFirst (λ q. named q) (letters name.now) p passes.now)) }
{
    for (i, pass) in passes.iter().enumerate() {
        if is_called(pass, name) {
            return Some(i);
        }
    }
    None
}

/// Whether a name is the name of a pass.
fn is_handed_in(passes: &[Box<dyn Pass>], name: &PassName) -> bool
    ensures { IsTrue result ↔ IsHandedIn (λ p. named p) passes.now (letters name.now) }
{
    match find_pass(passes, name) {
        Some(_i) => true,
        None => false,
    }
}

/// Whether each of these names is the name of a pass.
pub fn are_handed_in(passes: &[Box<dyn Pass>], names: &[PassName]) -> bool
    ensures { IsTrue result ↔ AreHandedIn (λ p. named p) passes.now (map letters names.now) }
{
    for name in names {
        if !is_handed_in(passes, name) {
            return false;
        }
    }
    true
}

/// The index of the first pass of a name that is some pass's.
fn index_of(passes: &[Box<dyn Pass>], name: &PassName) -> usize
    requires { IsHandedIn (λ p. named p) passes.now (letters name.now) }
    ensures within { result < length passes.now }
    ensures first { IsSomeAnd (slice_get passes.now result)
        (λ p. IsFirst (λ q. named q) (letters name.now) p passes.now) }
{
    match find_pass(passes, name) {
        Some(i) => i,
        None => unreachable!(),
    }
}

/// A step of a pass.
fn apply_one(alloc: Global, pass: &Box<dyn Pass>, unit: &Unit) -> Result<Unit, AllocError>
    requires marked { AreWellMarked (unit_view unit.now) }
    requires room { length (unit_view unit.now).log < 2 ^ 31 }
    ensures kept { IfOk result (λ v. KeepsShape (unit_view unit.now) (unit_view v)) }
    ensures step { IfOk result (λ v. (steps pass.now).leads (unit_view unit.now) (unit_view v)) }
    ensures logs { IfOk result (λ v. LogsWell (named pass.now) (unit_view unit.now) (unit_view v)) }
{
    pass.apply(alloc, unit)
}

/// Appends a unit.
fn push_unit(units: &mut Vec<Unit>, unit: Unit) -> Result<(), AllocError>
    ensures { OnOk result (units.new.items ≡ units.old.items ++ unit ∷ []) }
{
    units.push(unit)?;
    Ok(())
}

/// Runs the passes of these names on a well marked unit without changes, in order, each by one step, and keeps the
/// units
/// before and after each. Of two passes of one name the first is taken. Of the last unit all is said that `run_passes`
/// says of what it gives. The error tells the first name that is no pass's, or that memory was refused.
pub fn run_list(
    alloc: Global,
    passes: &[Box<dyn Pass>],
    names: &[PassName],
    unit: Unit,
) -> Result<Trail, RunErr>
    requires few { length names.now ≤ MAX_LIST_LENGTH }
    requires marked { AreWellMarked (unit_view unit) }
    requires unchanged { (unit_view unit).log ≡ [] }
    ensures first { IfOk result (λ t. slice_get (map unit_view t.units.items) 0 ≡ Some (unit_view unit)) }
    ensures trail { IfOk result
        (λ t. IsTrail (λ p. named p) (λ p. steps p) passes.now names.now (map unit_view t.units.items)) }
    ensures keeps { IfOk result (λ t. AllPairs Keeps (map unit_view t.units.items)) }
    ensures count { IfOk result (λ t. length t.units.items ≡ length names.now + 1) }
    ensures kept { IfOk result
        (λ t. OfLast (map unit_view t.units.items) (length names.now) (λ v. KeepsShape (unit_view unit) v)) }
    ensures lawful { IfOk result (λ t. OfLast (map unit_view t.units.items) (length names.now) (λ v.
        Lead (λ p. named p) (λ p. IsLawfulStep (named p) (steps p).leads) passes.now (map letters names.now)
        (unit_view unit) v)) }
    ensures few_changes { IfOk result (λ t. OfLast (map unit_view t.units.items) (length names.now) (λ v.
        length v.log ≤ most_changes (unit_view unit).room * length names.now)) }
    ensures reason { IfErr result (λ e. IsReason (λ p. named p) passes.now names.now e) }
{
    let mut units = Vec::new(alloc);
    push_unit(&mut units, unit)?;
    for (i, name) in names.iter().enumerate() {
        let Some(k) = find_pass(passes, name) else {
            return Err(RunErr::Unknown(i));
        };
        let next = apply_one(alloc, &passes[k], &units[i])?;
        push_unit(&mut units, next)?;
    }
    Ok(Trail { units })
}

/// Runs the passes of these names on a well marked unit without changes, in order, each by one step; of two passes of
/// one name the first is taken. What is made of it keeps what the unit does, and so does what each step makes of the
/// unit before it, with no more in the log than its pass may log. No names give the unit back. `AllocError` where
/// memory
/// was refused.
pub fn run_passes(
    alloc: Global,
    passes: &[Box<dyn Pass>],
    names: &[PassName],
    unit: Unit,
) -> Result<Unit, AllocError>
    requires few { length names.now ≤ MAX_LIST_LENGTH }
    requires handed_in { AreHandedIn (λ p. named p) passes.now (map letters names.now) }
    requires marked { AreWellMarked (unit_view unit) }
    requires unchanged { (unit_view unit).log ≡ [] }
    ensures made { IfOk result (λ v. IsValid (unit_view v)) }
    ensures kept { IfOk result (λ v. KeepsShape (unit_view unit) (unit_view v)) }
    ensures led { IfOk result (λ v.
        Lead (λ p. named p) (λ p. (steps p).leads) passes.now (map letters names.now) (unit_view unit) (unit_view v)) }
    ensures lawful { IfOk result (λ v.
        Lead (λ p. named p) (λ p. IsLawfulStep (named p) (steps p).leads) passes.now (map letters names.now)
        (unit_view unit) (unit_view v)) }
    ensures keeps { IfOk result (λ v. Keeps (unit_view unit) (unit_view v)) }
    ensures few_changes { IfOk result (λ v.
        length (unit_view v).log ≤ most_changes (unit_view unit).room * length names.now) }
    ensures nothing { names.now ≡ [] → IfOk result (λ v. v ≡ unit) }
{
    let mut last = unit;
    for name in names {
        let i = index_of(passes, name);
        let next = apply_one(alloc, &passes[i], &last)?;
        last = next;
    }
    Ok(last)
}
