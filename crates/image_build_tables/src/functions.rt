//! The table of functions.

ghost use Rattle.std.specs.Prelude.{◌≡◌, IfOk, length, map};
ghost use Rattle.c_tree.specs.Programs.{function_view};
ghost use Rattle.rv_emit_tables.specs.Emitted as emitted;
ghost use Rattle.image_build_tables.specs.Variables.{entry, length_of_name, name_length};
ghost use Rattle.image_build_tables.specs.Spans.{code_span, saved, span};

use crate::numbers::number_of;
use c_tree::TypedFunction;
use graph_core::Graph;
use image_form::Function;
use rv_emit_tables::EmittedFunction;
use std::alloc::{AllocError, Global};

/// A function with its code.
fn function_of(function: &TypedFunction, graph: &Graph, code: &EmittedFunction) -> Function
    ensures name { name_length result ≡ length_of_name (function_view function.now) }
    ensures entry { entry result ≡ graph.now.entry.0 }
    ensures span { span result ≡ code_span (emitted.function_view code.now) }
    ensures saved { saved result ≡ 0 }
{
    Function {
        name_length: number_of(function.name.len()),
        first: code.first,
        end: code.end,
        frame: code.frame,
        entry: graph.entry.0,
        saved: 0,
    }
}

/// The functions with their code.
pub fn functions_of(
    alloc: Global,
    functions: &[TypedFunction],
    graphs: &[Graph],
    code: &[EmittedFunction],
) -> Result<Vec<Function>, AllocError>
    requires graphs { length graphs.now ≡ length functions.now }
    requires code { length code.now ≡ length functions.now }
    ensures names { IfOk result (λ v. map name_length v.items ≡ map length_of_name (map function_view functions.now)) }
    ensures spans { IfOk result (λ v. map span v.items ≡ map code_span (map emitted.function_view code.now)) }
    ensures entries { IfOk result (λ v. map entry v.items ≡ map (λ g. g.entry.0) graphs.now) }
    ensures saved { IfOk result (λ v. map saved v.items ≡ map (λ f. 0) (map function_view functions.now)) }
{
    let mut made = Vec::new(alloc);
    for (number, function) in functions.iter().enumerate() {
        if let (Some(graph), Some(code)) = (graphs.get(number), code.get(number)) {
            made.push(function_of(function, graph, code))?;
        }
    }
    Ok(made)
}
