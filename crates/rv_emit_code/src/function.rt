//! The beginning and the end of functions, and what stands before all of them.

ghost use Rattle.std.specs.Prelude.{◌≡◌, ◌≤◌, ◌+◌, ◌*◌, OnOk, IfOk, length, false, []};
ghost use Rattle.rv_emit_words.specs.Shown.{shown, stops_of};
ghost use Rattle.rv_emit_words.specs.Words.{words_in};
ghost use Rattle.std.specs.Prelude.{map};
ghost use Rattle.graph_core.specs.Graphs.{binding_view, graph_view};
ghost use Rattle.rv_emit_storage.specs.Storages.{storage_view};
ghost use Rattle.rv_emit_words.specs.Growing.{code_state, with_code};
ghost use Rattle.rv_emit_instructions.specs.Calls.{argument_register};
ghost use Rattle.rv_emit_code.specs.Blocks.{no_code, with_stub};
ghost use Rattle.rv_emit_code.specs.Beginning.{binding_code, element_of, guard_code, saving_code, with_beginning, with_bindings};

use crate::leaving::{move_sp, words_of_move};
use graph_core::{Binding, Element, Graph};
use memory_map::Map;
use rv_code::{BranchOperation, Instruction, StoreOperation};
use rv_emit_instructions::put_first;
use rv_emit_storage::Storage;
use rv_emit_words::{Code, Piece, PlacedPiece, register};
use std::alloc::{AllocError, Global};

/// The register that a parameter is passed in, the last one for those that have none.
fn parameter_register(number: u32) -> u8
    ensures { result ≡ argument_register number }
{
    if number < 8 {
        register::A0 + number as u8
    } else {
        register::A7
    }
}

/// What the elements of a memory object are.
fn element_of(graph: &Graph, object: u32) -> Element
    ensures { result ≡ element_of (graph_view graph.now) object }
{
    match graph.objects.get(object as usize) {
        Some(object) => object.element,
        None => Element::Word,
    }
}

/// Ends the run where no activation may begin, and else counts one.
fn put_guard(code: &mut Code) -> Result<(), AllocError>
    ensures few { OnOk result (words_in code.new.pieces.items ≤ words_in code.old.pieces.items + 4) }
    ensures stops { OnOk result (shown code.new ≡ shown code.old) }
    ensures grown { OnOk result (code_state code.new ≡ with_code guard_code (code_state code.old)) }
{
    code.put(Instruction::Branch(BranchOperation::Bne, register::TP, register::ZERO, 12))?;
    code.put_sum(register::A7, register::ZERO, 3)?;
    code.put(Instruction::Ecall)?;
    code.put_sum(register::TP, register::TP, u32::MAX)
}

/// Saves registers in the frame, from offset 4 on.
fn save(code: &mut Code, saved: &[u8]) -> Result<(), AllocError>
    ensures few { OnOk result (words_in code.new.pieces.items ≤ words_in code.old.pieces.items + (length saved.now)) }
    ensures stops { OnOk result (shown code.new ≡ shown code.old) }
    ensures grown { OnOk result (code_state code.new ≡ with_code (saving_code saved.now 4) (code_state code.old)) }
{
    let mut offset = 4u32;
    for register in saved {
        code.put(Instruction::Store(StoreOperation::Sw, *register, register::SP, offset))?;
        offset = offset.wrapping_add(4);
    }
    Ok(())
}

/// A parameter that a register has becomes its scalar or the first element of its object.
fn bind(
    code: &mut Code,
    storage: &Storage<'_>,
    graph: &Graph,
    register: u8,
    binding: Binding,
) -> Result<(), AllocError>
    ensures few { OnOk result (words_in code.new.pieces.items ≤ words_in code.old.pieces.items + 3) }
    ensures stops { OnOk result (shown code.new ≡ shown code.old) }
    ensures grown { OnOk result
        (code_state code.new ≡ with_code
        (binding_code (storage_view storage.now) (graph_view graph.now) register (binding_view binding))
        (code_state code.old)) }
{
    match binding {
        Binding::Scalar(name) => code.write(storage, storage.home(name), register),
        Binding::Object(object) => {
            put_first(code, storage, object, element_of(graph, object), register)
        }
    }
}

/// The parameters, in order.
fn bind_all(code: &mut Code, storage: &Storage<'_>, graph: &Graph) -> Result<(), AllocError>
    ensures few { OnOk result
        (words_in code.new.pieces.items ≤ words_in code.old.pieces.items + (3 * length graph.now.parameters.items)) }
    ensures stops { OnOk result (shown code.new ≡ shown code.old) }
    ensures grown { OnOk result
        (code_state code.new ≡ with_bindings (storage_view storage.now) (graph_view graph.now) 0
        (map binding_view graph.now.parameters.items) (code_state code.old)) }
{
    let mut number = 0u32;
    for binding in &graph.parameters {
        bind(code, storage, graph, parameter_register(number), *binding)?;
        code.mark_writer(number);
        number = number.wrapping_add(1);
    }
    Ok(())
}

/// The beginning of a function: the guard, the frame, what it saves, `gp` in `main`, the parameters.
fn put_beginning(
    code: &mut Code,
    storage: &Storage<'_>,
    graph: &Graph,
    is_main: bool,
) -> Result<(), AllocError>
    ensures few { OnOk result
        (words_in code.new.pieces.items ≤ words_in code.old.pieces.items
        + (length storage.now.frame.now.saved.items + (10 + 3 * length graph.now.parameters.items))) }
    ensures stops { OnOk result (shown code.new ≡ shown code.old) }
    ensures grown { OnOk result
        (code_state code.new ≡ with_beginning (storage_view storage.now) (graph_view graph.now)
        storage.now.frame.now.saved.items storage.now.frame.now.size is_main (code_state code.old)) }
{
    put_guard(code)?;
    let down = 0u32.wrapping_sub(storage.frame.size);
    move_sp(code, down, words_of_move(down))?;
    code.put(Instruction::Store(StoreOperation::Sw, register::RA, register::SP, 0))?;
    save(code, &storage.frame.saved)?;
    if is_main {
        code.load_constant(register::GP, storage.base, 0)?;
    }
    bind_all(code, storage, graph)
}

/// What stands before all functions.
fn put_stub(code: &mut Code, regions: Map, main: u32) -> Result<(), AllocError>
    ensures few { OnOk result (words_in code.new.pieces.items ≤ words_in code.old.pieces.items + 5) }
    ensures stops { OnOk result (shown code.new ≡ shown code.old) }
    ensures grown { OnOk result (code_state code.new ≡ with_stub regions main (code_state code.old)) }
{
    code.put(Instruction::Lui(register::SP, regions.stack_end() / 4096))?;
    code.put_sum(register::TP, register::ZERO, 1024)?;
    code.put_piece(Piece::Call(main))?;
    code.put_sum(register::A7, register::ZERO, 10)?;
    code.put(Instruction::Ecall)
}

/// The code with which a function begins. That of `main` sets `gp` too.
#[tactic(auto, using(crate::proofs::Stops::no_stops))]
pub fn begin_of_function(
    alloc: Global,
    storage: &Storage<'_>,
    graph: &Graph,
    is_main: bool,
) -> Result<Vec<PlacedPiece>, AllocError>
    ensures few { IfOk result (λ pieces.
        words_in pieces.items ≤ length storage.now.frame.now.saved.items +
        (10 + 3 * length graph.now.parameters.items)) }
    ensures stops { IfOk result (λ pieces. stops_of pieces.items ≡ []) }
    ensures code { IfOk result (λ pieces.
        pieces.items ≡
        (with_beginning (storage_view storage.now) (graph_view graph.now) storage.now.frame.now.saved.items
        storage.now.frame.now.size is_main (no_code storage.now.entry.0 [])).pieces) }
{
    let mut code = Code::new(alloc, storage.entry.0);
    put_beginning(&mut code, storage, graph, is_main)?;
    Ok(code.pieces)
}

/// The code before all functions, over these regions of memory: it calls `main`, which has this number, and ends the
/// run with its result.
#[tactic(auto, using(crate::proofs::Stops::no_stops))]
pub fn stub(alloc: Global, regions: Map, main: u32) -> Result<Vec<PlacedPiece>, AllocError>
    ensures few { IfOk result (λ pieces. words_in pieces.items ≤ 5) }
    ensures stops { IfOk result (λ pieces. stops_of pieces.items ≡ []) }
    ensures code { IfOk result (λ pieces. pieces.items ≡ (with_stub regions main (no_code 0 [])).pieces) }
{
    let mut code = Code::new(alloc, 0);
    put_stub(&mut code, regions, main)?;
    Ok(code.pieces)
}
