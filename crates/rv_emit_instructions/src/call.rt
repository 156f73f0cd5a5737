//! Calls.

ghost use Rattle.std.specs.Prelude.{◌≡◌, ◌≤◌, ◌+◌, ◌*◌, OnOk, length};
ghost use Rattle.rv_emit_words.specs.Shown.{shown};
ghost use Rattle.rv_emit_words.specs.Words.{words_in};
ghost use Rattle.std.specs.Prelude.{map, option_map};
ghost use Rattle.graph_core.specs.declared.name.Name as declared_name;
ghost use Rattle.graph_core.specs.Graphs.{operand_view};
ghost use Rattle.rv_emit_storage.specs.Storages.{storage_view};
ghost use Rattle.rv_emit_words.specs.Growing.{code_state};
ghost use Rattle.rv_emit_instructions.specs.Calls.{argument_register, called, environment_called, passed, passed_from, with_call};

use graph_core::{Callee, Name, Operand};
use rv_code::Instruction;
use rv_emit_storage::Storage;
use rv_emit_words::{Code, Piece, register};
use std::alloc::AllocError;

/// The number of a register that an argument passes in, the last one for those that have none.
fn argument_register(number: u8) -> u8
    ensures { result ≡ argument_register number }
{
    if number < 8 {
        register::A0 + number
    } else {
        register::A7
    }
}

/// An argument is passed in its register.
fn pass(
    code: &mut Code,
    storage: &Storage<'_>,
    number: u8,
    argument: Operand,
) -> Result<(), AllocError>
    ensures few { OnOk result (words_in code.new.pieces.items ≤ words_in code.old.pieces.items + 3) }
    ensures stops { OnOk result (shown code.new ≡ shown code.old) }
    ensures grown { OnOk result
        (code_state code.new
        ≡ passed (storage_view storage.now) number (operand_view argument) (code_state code.old)) }
{
    let register = argument_register(number);
    let source = storage.source(argument);
    code.bring(storage, register, source)?;
    code.forget(register);
    Ok(())
}

/// Arguments are passed in their registers.
fn pass_all(code: &mut Code, storage: &Storage<'_>, arguments: &[Operand]) -> Result<(), AllocError>
    ensures few { OnOk result
        (words_in code.new.pieces.items ≤ words_in code.old.pieces.items + 3 * length arguments.now) }
    ensures stops { OnOk result (shown code.new ≡ shown code.old) }
    ensures grown { OnOk result
        (code_state code.new
        ≡ passed_from (storage_view storage.now) 0 (map operand_view arguments.now) (code_state code.old)) }
{
    let mut left = arguments;
    let mut number = 0u8;
    while let [first, rest @ ..] = left {
        pass(code, storage, number, *first)?;
        number = number.saturating_add(1);
        left = rest;
    }
    Ok(())
}

/// The environment is called by a number.
fn call_environment(code: &mut Code, number: u32) -> Result<(), AllocError>
    ensures few { OnOk result (words_in code.new.pieces.items ≤ words_in code.old.pieces.items + 2) }
    ensures stops { OnOk result (shown code.new ≡ shown code.old) }
    ensures grown { OnOk result (code_state code.new ≡ environment_called number (code_state code.old)) }
{
    code.put_sum(register::A7, register::ZERO, number)?;
    code.forget(register::A7);
    code.put(Instruction::Ecall)
}

/// What is called is called, with its arguments in their registers.
fn call_callee(code: &mut Code, callee: Callee) -> Result<(), AllocError>
    ensures few { OnOk result (words_in code.new.pieces.items ≤ words_in code.old.pieces.items + 2) }
    ensures stops { OnOk result (shown code.new ≡ shown code.old) }
    ensures grown { OnOk result (code_state code.new ≡ called callee (code_state code.old)) }
{
    match callee {
        Callee::Getchar => call_environment(code, 1),
        Callee::Putchar => call_environment(code, 2),
        Callee::Exit => call_environment(code, 10),
        Callee::Function(function) => {
            code.forget_all();
            code.put_piece(Piece::Call(function))
        }
    }
}

/// A call, whose result a target becomes, if there is one.
pub fn put_call(
    code: &mut Code,
    storage: &Storage<'_>,
    target: Option<Name>,
    callee: Callee,
    arguments: &[Operand],
) -> Result<(), AllocError>
    ensures few { OnOk result
        (words_in code.new.pieces.items ≤ words_in code.old.pieces.items + (5 + 3 * length arguments.now)) }
    ensures stops { OnOk result (shown code.new ≡ shown code.old) }
    ensures grown { OnOk result
        (code_state code.new ≡ with_call (storage_view storage.now)
        (option_map (λ (n : declared_name.Name). n.0) target) callee (map operand_view arguments.now)
        (code_state code.old)) }
{
    pass_all(code, storage, arguments)?;
    call_callee(code, callee)?;
    match target {
        Some(target) => code.write(storage, storage.home(target), register::A0),
        None => Ok(()),
    }
}
