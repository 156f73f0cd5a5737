//! The blocks of statements, the last places first, before those that stand.

ghost use Rattle.std.specs.Prelude.{◌≡◌, IfOk, map, option_map};
ghost use Rattle.c_tree.specs.TypedExpressions.{rvalue_view};
ghost use Rattle.c_tree.specs.TypedStatements.{start_view, statement_view, statements_view, step_view};
ghost use Rattle.graph_core.specs.Graphs.{block_view, operand_view};
ghost use Rattle.graph_build_steps.specs.Drafts.{made_of};
ghost use Rattle.graph_build_statements.specs.Coding.{coding_view, part_view};
ghost use Rattle.graph_build_statements.specs.Reached as definition;
ghost use Rattle.graph_build_statements.specs.Forms.{add, add_all, add_branching, add_going, add_head, add_result, add_run, add_start, add_step, add_switch, default_start, tests};

use crate::{
    Form, Part, add_declared, begun, branching, coded, condition_reached, going, label_for,
    place_of, placed_at, reached, start_reached, statement_reached, with_end,
};
use c_flow::{Ways, round_of, start, start_of_all, within_loop};
use c_tree::{Rvalue, TypedStart, TypedStatement, TypedStatements, TypedStep};
use graph_build_layout::{Use, value_laid};
use graph_build_names::word_of;
use graph_build_steps::{Draft, Goal, closed, ending, next_label};
use graph_core::{Block, Comparison, End, Operand};
use std::alloc::{AllocError, Global};

// What a call gives; its failure is the function's own.
macro_rules! given {
    ($call:expr) => {
        match $call {
            Ok(value) => value,
            Err(fault) => return Err(fault),
        }
    };
}

/// Where `default` leads, or what follows the `switch`.
fn default_start(all: &TypedStatements, next: Option<u32>) -> Option<u32>
    ensures { result ≡ default_start (statements_view all.now) next }
{
    let mut left = all;
    loop {
        match left {
            TypedStatements::End => return next,
            TypedStatements::Default(rest) => return start_of_all(rest, next),
            TypedStatements::More(_, rest) | TypedStatements::Case(_, rest) => left = rest,
        }
    }
}

/// The tests of a `switch` in the order of its labels, each but the first a block of its own.
fn tests(
    alloc: Global,
    form: &Form<'_>,
    at: u32,
    value: Operand,
    all: &TypedStatements,
    next: Option<u32>,
    other: Option<u32>,
    inner: Vec<Block>,
) -> Result<Draft, AllocError>
    ensures { IfOk result (λ d.
        made_of d ≡ tests (coding_view form.now) at (operand_view value) (statements_view all.now) next other
        (map block_view inner.items)) }
{
    match all {
        TypedStatements::End => Ok(going(alloc, form, other, inner)),
        TypedStatements::More(_, rest) | TypedStatements::Default(rest) => {
            tests(alloc, form, at, value, rest, next, other, inner)
        }
        TypedStatements::Case(number, rest) => {
            let to = start_of_all(rest, next);
            let label = label_for(form, to, &inner);
            let ends = given!(with_end(alloc, form, at, to, inner));
            let others = given!(tests(alloc, form, at, value, rest, next, other, ends));
            let end = End::Branch {
                comparison: Comparison::Equal,
                left: value,
                right: Operand::Constant(word_of(*number)),
                then: label,
                otherwise: next_label(form.top, &others.inner),
            };
            let inner = given!(closed(place_of(form, at), others));
            Ok(ending(alloc, end, inner))
        }
    }
}

/// The block of a place that runs an expression.
fn add_run(
    alloc: Global,
    form: &Form<'_>,
    at: u32,
    e: &Rvalue,
    free: u32,
    next: Option<u32>,
    part: Part,
) -> Result<Part, AllocError>
    ensures { IfOk result (λ p.
        part_view p ≡ add_run (coding_view form.now) at (rvalue_view e.now) free next (part_view part)) }
{
    let draft = going(alloc, form, next, part.inner);
    let draft = coded(alloc, form, at, e, free, Goal::Unused(draft))?;
    placed_at(form, at, draft, part.placed)
}

/// The block of a place that leads to another.
fn add_going(
    alloc: Global,
    form: &Form<'_>,
    at: u32,
    next: Option<u32>,
    part: Part,
) -> Result<Part, AllocError>
    ensures { IfOk result (λ p. part_view p ≡ add_going (coding_view form.now) at next (part_view part)) }
{
    let draft = going(alloc, form, next, part.inner);
    placed_at(form, at, draft, part.placed)
}

/// The block of a place that is a condition.
fn add_branching(
    alloc: Global,
    form: &Form<'_>,
    at: u32,
    e: &Rvalue,
    free: u32,
    one: Option<u32>,
    other: Option<u32>,
    part: Part,
) -> Result<Part, AllocError>
    ensures { IfOk result (λ p.
        part_view p ≡ add_branching (coding_view form.now) at (rvalue_view e.now) free one other (part_view part)) }
{
    let draft = branching(alloc, form, at, e, free, one, other, part.inner)?;
    placed_at(form, at, draft, part.placed)
}

/// The first part of a `for`.
fn add_start(
    alloc: Global,
    form: &Form<'_>,
    begin: &TypedStart,
    free: u32,
    head: u32,
    part: Part,
) -> Result<Part, AllocError>
    ensures { IfOk result (λ p.
        part_view p ≡ add_start (coding_view form.now) (start_view begin.now) free head (part_view part)) }
{
    match begin {
        TypedStart::Nothing => Ok(part),
        TypedStart::Expression { spot, value } => {
            add_run(alloc, form, spot.at, value, free, Some(head), part)
        }
        TypedStart::Declaration(all) => add_declared(alloc, form, all, free, Some(head), part),
    }
}

/// The step of a `for`.
fn add_step(
    alloc: Global,
    form: &Form<'_>,
    step: &Option<TypedStep>,
    free: u32,
    head: u32,
    part: Part,
) -> Result<Part, AllocError>
    ensures { IfOk result (λ p.
        part_view p ≡ add_step (coding_view form.now) (option_map step_view step.now) free head (part_view part)) }
{
    match step {
        None => Ok(part),
        Some(step) => add_run(
            alloc,
            form,
            step.spot.at,
            &step.value,
            free,
            Some(head),
            part,
        ),
    }
}

/// The condition of a `for` stands behind its first part, and a head without one before it.
fn add_head(
    alloc: Global,
    form: &Form<'_>,
    begin: &TypedStart,
    free: u32,
    at: u32,
    condition: &Option<Rvalue>,
    inside: Option<u32>,
    next: Option<u32>,
    part: Part,
) -> Result<Part, AllocError>
    ensures { IfOk result (λ p.
        part_view p ≡ add_head (coding_view form.now) (start_view begin.now) free at
        (option_map rvalue_view condition.now) inside next (part_view part)) }
{
    match condition {
        None => {
            let later = add_start(alloc, form, begin, free, at, part)?;
            add_going(alloc, form, at, inside, later)
        }
        Some(e) => {
            let behind = start_reached(form, begin, free)?;
            let later = add_branching(alloc, form, at, e, behind, inside, next, part)?;
            add_start(alloc, form, begin, free, at, later)
        }
    }
}

/// A `return`.
fn add_result(
    alloc: Global,
    form: &Form<'_>,
    at: u32,
    value: &Option<Rvalue>,
    free: u32,
    part: Part,
) -> Result<Part, AllocError>
    ensures { IfOk result (λ p.
        part_view p ≡ add_result (coding_view form.now) at (option_map rvalue_view value.now) free (part_view part)) }
{
    match value {
        None => {
            let draft = ending(alloc, End::Return(None), part.inner);
            placed_at(form, at, draft, part.placed)
        }
        Some(e) => {
            let value = value_laid(form.names, e, Use::Anywhere, begun(form, free))?.value;
            let draft = ending(alloc, End::Return(Some(value)), part.inner);
            let draft = coded(alloc, form, at, e, free, Goal::To(None, draft))?;
            placed_at(form, at, draft, part.placed)
        }
    }
}

/// The block of a `switch`'s value and its tests.
fn add_switch(
    alloc: Global,
    form: &Form<'_>,
    at: u32,
    e: &Rvalue,
    all: &TypedStatements,
    free: u32,
    next: Option<u32>,
    part: Part,
) -> Result<Part, AllocError>
    ensures { IfOk result (λ p.
        part_view p ≡ add_switch (coding_view form.now) at (rvalue_view e.now) (statements_view all.now) free next
        (part_view part)) }
{
    let value = value_laid(form.names, e, Use::Anywhere, begun(form, free))?.value;
    let other = default_start(all, next);
    let draft = tests(alloc, form, at, value, all, next, other, part.inner)?;
    let draft = coded(alloc, form, at, e, free, Goal::To(None, draft))?;
    placed_at(form, at, draft, part.placed)
}

/// The first name behind those that a `for` uses before its body.
fn behind_head(
    form: &Form<'_>,
    begin: &TypedStart,
    condition: &Option<Rvalue>,
    free: u32,
) -> Result<u32, AllocError>
    ensures { IfOk result (λ n.
        n ≡ definition.condition_reached (coding_view form.now) (option_map rvalue_view condition.now)
        (definition.start_reached (coding_view form.now) (start_view begin.now) free)) }
{
    let head = start_reached(form, begin, free)?;
    condition_reached(form, condition, head)
}

/// The blocks of a statement.
#[cycle(statements)]
pub fn add(
    alloc: Global,
    form: &Form<'_>,
    statement: &TypedStatement,
    free: u32,
    ways: Ways,
    part: Part,
) -> Result<Part, AllocError>
    ensures { IfOk result (λ p.
        part_view p ≡ add (coding_view form.now) (statement_view statement.now) free ways (part_view part)) }
{
    match statement {
        TypedStatement::Block(all) => add_all(alloc, form, all, free, ways, part),
        TypedStatement::Declaration(all) => {
            add_declared(alloc, form, all, free, ways.next, part)
        }
        TypedStatement::Empty(spot) => add_going(alloc, form, spot.at, ways.next, part),
        TypedStatement::Expression { spot, value } => {
            add_run(alloc, form, spot.at, value, free, ways.next, part)
        }
        TypedStatement::If {
            spot,
            condition,
            then,
        } => {
            let behind = given!(reached(form, condition, Use::Tested, free));
            let one = start(then, ways.next);
            let later = given!(add(alloc, form, then, behind, ways, part));
            add_branching(alloc, form, spot.at, condition, free, one, ways.next, later)
        }
        TypedStatement::IfElse {
            spot,
            condition,
            then,
            otherwise,
        } => {
            let behind = given!(reached(form, condition, Use::Tested, free));
            let after = given!(statement_reached(form, then, behind));
            let one = start(then, ways.next);
            let other = start(otherwise, ways.next);
            let later = given!(add(alloc, form, otherwise, after, ways, part));
            let later = given!(add(alloc, form, then, behind, ways, later));
            add_branching(alloc, form, spot.at, condition, free, one, other, later)
        }
        TypedStatement::While {
            spot,
            condition,
            body,
        } => {
            let at = spot.at;
            let behind = given!(reached(form, condition, Use::Tested, free));
            let one = start(body, Some(at));
            let later = given!(add(alloc, form, body, behind, within_loop(at, ways), part));
            add_branching(alloc, form, at, condition, free, one, ways.next, later)
        }
        TypedStatement::DoWhile {
            body,
            spot,
            condition,
        } => {
            let at = spot.at;
            let behind = given!(statement_reached(form, body, free));
            let one = start(body, Some(at));
            let later = given!(add_branching(
                alloc, form, at, condition, behind, one, ways.next, part
            ));
            add(alloc, form, body, free, within_loop(at, ways), later)
        }
        TypedStatement::For {
            start: begin,
            spot,
            condition,
            step,
            body,
        } => {
            let at = spot.at;
            let behind = given!(behind_head(form, begin, condition, free));
            let round = round_of(step, at);
            let inside = start(body, Some(round));
            let after = given!(statement_reached(form, body, behind));
            let later = given!(add(alloc, form, body, behind, within_loop(round, ways), part));
            let later = given!(add_step(alloc, form, step, after, at, later));
            add_head(
                alloc, form, begin, free, at, condition, inside, ways.next, later,
            )
        }
        TypedStatement::Switch { spot, value, body } => {
            let behind = given!(reached(form, value, Use::Anywhere, free));
            let within = Ways {
                next: ways.next,
                by_break: ways.next,
                by_continue: ways.by_continue,
            };
            let later = given!(add_all(alloc, form, body, behind, within, part));
            add_switch(alloc, form, spot.at, value, body, free, ways.next, later)
        }
        TypedStatement::Break(spot) => add_going(alloc, form, spot.at, ways.by_break, part),
        TypedStatement::Continue(spot) => add_going(alloc, form, spot.at, ways.by_continue, part),
        TypedStatement::Return { spot, value } => {
            add_result(alloc, form, spot.at, value, free, part)
        }
    }
}

/// The blocks of the statements of a block, each followed by those behind it.
#[cycle(statements)]
pub fn add_all(
    alloc: Global,
    form: &Form<'_>,
    all: &TypedStatements,
    free: u32,
    ways: Ways,
    part: Part,
) -> Result<Part, AllocError>
    ensures { IfOk result (λ p.
        part_view p ≡ add_all (coding_view form.now) (statements_view all.now) free ways (part_view part)) }
{
    match all {
        TypedStatements::End => Ok(part),
        TypedStatements::More(first, rest) => {
            let before = Ways {
                next: start_of_all(rest, ways.next),
                by_break: ways.by_break,
                by_continue: ways.by_continue,
            };
            let behind = given!(statement_reached(form, first, free));
            let later = given!(add_all(alloc, form, rest, behind, ways, part));
            add(alloc, form, first, free, before, later)
        }
        TypedStatements::Case(_, rest) | TypedStatements::Default(rest) => {
            add_all(alloc, form, rest, free, ways, part)
        }
    }
}
