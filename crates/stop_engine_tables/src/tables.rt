//! Tables of an image that are made once and asked often.

ghost use Rattle.std.specs.Prelude.{◌≡◌, ◌<◌, ◌+◌, ◌^◌, IfOk, length, map, sum};
ghost use Rattle.image_form.specs.Names.{function_name, pass_name, variable_name};
ghost use Rattle.image_form.specs.Rules.{IsImage};
ghost use Rattle.image_form.specs.Views.{viewed};
ghost use Rattle.stop_engine_tables.specs.Tables.{AreStartsOf, AreTablesOf, starts_from};

use crate::flow::flow_table;
use crate::names::name_at;
use crate::variable_lists::{VariableLists, variable_lists};
use image_form::View;
use places::FlowTable;
use std::alloc::{AllocError, Global};

/// Where each name of an image starts among the bytes of its names.
#[derive(Drop)]
pub struct NameStarts {
    pub functions: Vec<usize>,
    pub variables: Vec<usize>,
    pub passes: Vec<usize>,
}

/// What is asked of an image again and again.
#[derive(Drop)]
pub struct Tables {
    pub flow: FlowTable,
    pub names: NameStarts,
    pub variables: VariableLists,
}

/// The tables of an image. `AllocError` where memory for them was refused.
pub fn tables_of(alloc: Global, image: &View<'_>) -> Result<Tables, AllocError>
    requires { IsImage (viewed image.now) }
    ensures { IfOk result (AreTablesOf (viewed image.now)) }
{
    let flow = flow_table(alloc, image)?;
    let names = name_starts(alloc, image)?;
    let variables = variable_lists(alloc, image)?;
    Ok(Tables {
        flow,
        names,
        variables,
    })
}

/// Where names of these lengths start that lie one after the other, the first of them there.
fn starts_of(alloc: Global, first: usize, lengths: &[u32]) -> Result<Vec<usize>, AllocError>
    requires { first + sum lengths.now < 2 ^ 64 }
    ensures { IfOk result (λ starts. starts.items ≡ starts_from first lengths.now) }
{
    let mut starts = Vec::new(alloc);
    let mut start = first;
    for length in lengths {
        starts.push(start)?;
        start += *length as usize;
    }
    Ok(starts)
}

/// How many bytes names of these lengths have.
fn total(lengths: &[u32]) -> usize
    requires { sum lengths.now < 2 ^ 64 }
    ensures { result ≡ sum lengths.now }
{
    lengths.iter().map(|length| *length as usize).sum()
}

/// How long the names of functions are.
fn function_lengths(alloc: Global, image: &View<'_>) -> Result<Vec<u32>, AllocError>
    ensures { IfOk result (λ lengths. lengths.items ≡ map (λ f. f.name_length) (viewed image.now).functions) }
{
    let mut lengths = Vec::new(alloc);
    for number in 0..image.function_count() {
        lengths.push(image.function_at(number).name_length)?;
    }
    Ok(lengths)
}

/// How long the names of variables are.
fn variable_lengths(alloc: Global, image: &View<'_>) -> Result<Vec<u32>, AllocError>
    ensures { IfOk result (λ lengths. lengths.items ≡ map (λ v. v.name_length) (viewed image.now).variables) }
{
    let mut lengths = Vec::new(alloc);
    for number in 0..image.variable_count() {
        lengths.push(image.variable_at(number).name_length)?;
    }
    Ok(lengths)
}

/// How long the names of the passes of changes are.
fn pass_lengths(alloc: Global, image: &View<'_>) -> Result<Vec<u32>, AllocError>
    ensures { IfOk result (λ lengths. lengths.items ≡ map (λ c. c.pass_length) (viewed image.now).changes) }
{
    let mut lengths = Vec::new(alloc);
    for number in 0..image.change_count() {
        lengths.push(image.change_at(number).pass_length)?;
    }
    Ok(lengths)
}

/// Where each name of an image starts.
fn name_starts(alloc: Global, image: &View<'_>) -> Result<NameStarts, AllocError>
    requires { IsImage (viewed image.now) }
    ensures { IfOk result (AreStartsOf (viewed image.now)) }
{
    let of_functions = function_lengths(alloc, image)?;
    let of_variables = variable_lengths(alloc, image)?;
    let of_passes = pass_lengths(alloc, image)?;
    let variables_from = total(&of_functions);
    let passes_from = variables_from + total(&of_variables);
    Ok(NameStarts {
        functions: starts_of(alloc, 0, &of_functions)?,
        variables: starts_of(alloc, variables_from, &of_variables)?,
        passes: starts_of(alloc, passes_from, &of_passes)?,
    })
}

impl NameStarts {
    /// The name of a function, by its number.
    pub fn function<'i>(&self, image: &View<'i>, number: usize) -> &'i [u8]
        requires image { IsImage (viewed image.now) }
        requires starts { AreStartsOf (viewed image.now) self.now }
        requires number { number < length (viewed image.now).functions }
        ensures { result.now ≡ function_name (viewed image.now) number }
    {
        let start = self.functions[number];
        name_at(image, start, image.function_at(number).name_length)
    }

    /// The name of a variable, by its number; a literal's is empty.
    pub fn variable<'i>(&self, image: &View<'i>, number: usize) -> &'i [u8]
        requires image { IsImage (viewed image.now) }
        requires starts { AreStartsOf (viewed image.now) self.now }
        requires number { number < length (viewed image.now).variables }
        ensures { result.now ≡ variable_name (viewed image.now) number }
    {
        let start = self.variables[number];
        name_at(image, start, image.variable_at(number).name_length)
    }

    /// The name of the pass that made a change, by the change's number from 0.
    pub fn pass<'i>(&self, image: &View<'i>, number: usize) -> &'i [u8]
        requires image { IsImage (viewed image.now) }
        requires starts { AreStartsOf (viewed image.now) self.now }
        requires number { number < length (viewed image.now).changes }
        ensures { result.now ≡ pass_name (viewed image.now) number }
    {
        let start = self.passes[number];
        name_at(image, start, image.change_at(number).pass_length)
    }
}
