//! Names that are read at one point of both graphs.

ghost use Rattle.std.specs.Prelude.{◌≡◌, ℕ, MatchOption, OnOk, map, option_map, slice_get};
ghost use Rattle.graph_core.specs.Graphs.{Scalar as ScalarOf, scalar_view};
ghost use Rattle.graph_core.specs.Uses.{numbers};
ghost use Rattle.debug_records.specs.declared.change.Var as declared-var;
ghost use Rattle.pass_law.specs.declared.cases.Case as declared-case;
ghost use Rattle.pass_law.specs.Changes.{Adds, Numbered};
ghost use Rattle.copy_pass.specs.Points.{IsReplacedAt, placed};
ghost use Rattle.copy_pass.specs.Reads.{IsOther};

use debug_records::{Place, Var};
use graph_core::{Name, Scalar};
use pass_law::Case;
use std::alloc::AllocError;

/// A point of both graphs: the place in force there in both, if there is one, its block, and how many instructions
/// stand before it.
#[derive(Drop)]
pub struct Point {
    pub place: Option<Place>,
    pub block: usize,
    pub index: usize,
}

/// A name of those that are read, by number.
fn name_at(names: &[Name], operand: usize) -> Option<u32>
    ensures { result ≡ slice_get (numbers names.now) operand }
{
    match names.get(operand) {
        Some(name) => Some(name.0),
        None => None,
    }
}

/// The name that was read as an operand, if another one is read now.
fn replaced_name(was: &[Name], is: &[Name], operand: usize) -> Option<u32>
    ensures { MatchOption result ((x : ℕ) → IsOther (numbers was.now) (numbers is.now) operand x → ⊥) (λ x.
        IsOther (numbers was.now) (numbers is.now) operand x) }
{
    match (name_at(was, operand), name_at(is, operand)) {
        (Some(before), Some(after)) => { if before == after { None } else { Some(before) } }
        _ => None,
    }
}

/// The variable that a name is, if it is one.
fn variable_of(scalars: &[Scalar], name: u32) -> Option<Var>
    ensures { option_map (λ (v : declared-var.Var). v.0) result ≡ option_map (λ (s : ScalarOf). s.variable)
        (slice_get (map scalar_view scalars.now) name) }
{
    match scalars.get(name as usize) {
        Some(scalar) => Some(scalar.var),
        None => None,
    }
}

/// Appends the case of an operand, if another name is read as it now.
fn add_operand(
    scalars: &[Scalar],
    point: &Point,
    operand: usize,
    was: &[Name],
    is: &[Name],
    cases: &mut Vec<Case>,
) -> Result<(), AllocError>
    ensures { OnOk result
        (Adds (Numbered (IsReplacedAt (map scalar_view scalars.now) (placed point.now.place) point.now.block
        point.now.index (numbers was.now) (numbers is.now)) (λ (c : declared-case.Case).
        c.operand) operand) cases.old.items cases.new.items) }
{
    let Some(name) = replaced_name(was, is, operand) else {
        return Ok(());
    };
    let Some(place) = point.place else {
        return Ok(());
    };
    let Some(var) = variable_of(scalars, name) else {
        return Ok(());
    };
    cases.push(Case {
        place,
        block: point.block,
        index: point.index,
        operand,
        var,
    })?;
    Ok(())
}

/// Appends the cases of what was read and is read at a point.
pub fn add_names(
    scalars: &[Scalar],
    point: &Point,
    was: &[Name],
    is: &[Name],
    cases: &mut Vec<Case>,
) -> Result<(), AllocError>
    ensures { OnOk result
        (Adds (IsReplacedAt (map scalar_view scalars.now) (placed point.now.place) point.now.block point.now.index
        (numbers was.now) (numbers is.now)) cases.old.items cases.new.items) }
{
    for operand in 0..was.len() {
        add_operand(scalars, point, operand, was, is, cases)?;
    }
    Ok(())
}
