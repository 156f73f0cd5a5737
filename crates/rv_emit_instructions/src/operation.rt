//! Operations on words.

ghost use Rattle.std.specs.Prelude.{◌≡◌, ◌≤◌, ◌+◌, OnOk};
ghost use Rattle.rv_emit_words.specs.Shown.{shown};
ghost use Rattle.rv_emit_words.specs.Words.{words_in};
ghost use Rattle.graph_core.specs.Graphs.{operand_view};
ghost use Rattle.rv_emit_storage.specs.Storages.{home_at, source_of, storage_view};
ghost use Rattle.rv_emit_words.specs.Growing.{code_state, with_code};
ghost use Rattle.rv_emit_instructions.specs.Operations.{by_word, compared, comparison_code, constant_written, move_code, on_immediate, on_registers, operation_code, shifted_twice, truncation_code};

use crate::form::{immediate_form, is_commutative, register_operation};
use graph_core::{Name, Operand};
use graph_homes::Home;
use rv_code::{ImmediateOperation, Instruction, RegisterOperation};
use rv_emit_storage::{Source, Storage};
use rv_emit_words::{Code, register, result_register};
use std::alloc::AllocError;
use word_base::{Operation, Truncation, operate};

/// A target becomes a constant.
fn write_constant(
    code: &mut Code,
    storage: &Storage<'_>,
    target: Home,
    word: u32,
) -> Result<(), AllocError>
    ensures few { OnOk result (words_in code.new.pieces.items ≤ words_in code.old.pieces.items + 5) }
    ensures stops { OnOk result (shown code.new ≡ shown code.old) }
    ensures grown { OnOk result
        (code_state code.new ≡ with_code
        (constant_written (storage_view storage.now) code.old.held.items target word) (code_state code.old)) }
{
    match target {
        Home::Register(register) => code.set_constant(register, word, storage.base),
        Home::Slot(_) => {
            let register = code.fetch_constant(word, storage.base, register::T1)?;
            code.write(storage, target, register)
        }
    }
}

/// A target becomes what an operation makes of what two registers hold.
fn operate_registers(
    code: &mut Code,
    storage: &Storage<'_>,
    target: Home,
    operation: RegisterOperation,
    left: Source,
    right: Source,
) -> Result<(), AllocError>
    ensures few { OnOk result (words_in code.new.pieces.items ≤ words_in code.old.pieces.items + 10) }
    ensures stops { OnOk result (shown code.new ≡ shown code.old) }
    ensures grown { OnOk result
        (code_state code.new ≡ with_code
        (on_registers (storage_view storage.now) code.old.held.items target operation left right)
        (code_state code.old)) }
{
    let left = code.fetch_source(storage, left, register::T1)?;
    let right = code.fetch_source(storage, right, register::T2)?;
    let rd = result_register(target);
    code.put(Instruction::Register(operation, rd, left, right))?;
    code.finish(storage, target, rd)
}

/// A target becomes what an operation makes of what a register holds and an immediate.
fn operate_immediate(
    code: &mut Code,
    storage: &Storage<'_>,
    target: Home,
    operation: ImmediateOperation,
    source: Source,
    immediate: u32,
) -> Result<(), AllocError>
    ensures few { OnOk result (words_in code.new.pieces.items ≤ words_in code.old.pieces.items + 7) }
    ensures stops { OnOk result (shown code.new ≡ shown code.old) }
    ensures grown { OnOk result
        (code_state code.new ≡ with_code
        (on_immediate (storage_view storage.now) code.old.held.items target operation source immediate)
        (code_state code.old)) }
{
    let source = code.fetch_source(storage, source, register::T1)?;
    let rd = result_register(target);
    code.put_immediate(operation, rd, source, immediate)?;
    code.finish(storage, target, rd)
}

/// A target becomes what an operation makes of what a register holds and a word.
fn operate_by_word(
    code: &mut Code,
    storage: &Storage<'_>,
    target: Home,
    operation: Operation,
    left: Source,
    right: u32,
) -> Result<(), AllocError>
    ensures few { OnOk result (words_in code.new.pieces.items ≤ words_in code.old.pieces.items + 10) }
    ensures stops { OnOk result (shown code.new ≡ shown code.old) }
    ensures grown { OnOk result
        (code_state code.new ≡ with_code
        (by_word (storage_view storage.now) code.old.held.items target operation left right)
        (code_state code.old)) }
{
    match immediate_form(operation, right) {
        Some((immediate, word)) => {
            operate_immediate(code, storage, target, immediate, left, word)
        }
        None => operate_registers(
            code,
            storage,
            target,
            register_operation(operation),
            left,
            Source::Word(right),
        ),
    }
}

/// A target becomes what an operation makes of two operands.
pub fn put_operation(
    code: &mut Code,
    storage: &Storage<'_>,
    target: Name,
    operation: Operation,
    left: Operand,
    right: Operand,
) -> Result<(), AllocError>
    ensures few { OnOk result (words_in code.new.pieces.items ≤ words_in code.old.pieces.items + 10) }
    ensures stops { OnOk result (shown code.new ≡ shown code.old) }
    ensures grown { OnOk result
        (code_state code.new ≡ with_code (operation_code (storage_view storage.now) code.old.held.items
        (home_at (storage_view storage.now) target.0) operation
        (source_of (storage_view storage.now) (operand_view left))
        (source_of (storage_view storage.now) (operand_view right))) (code_state code.old)) }
{
    let target = storage.home(target);
    match (storage.source(left), storage.source(right)) {
        (Source::Word(left), Source::Word(right)) => {
            write_constant(code, storage, target, operate(operation, left, right))
        }
        (left, Source::Word(right)) => {
            operate_by_word(code, storage, target, operation, left, right)
        }
        (Source::Word(left), right) if is_commutative(operation) => {
            operate_by_word(code, storage, target, operation, right, left)
        }
        (left, right) => {
            operate_registers(
                code,
                storage,
                target,
                register_operation(operation),
                left,
                right,
            )
        }
    }
}

/// A target becomes the lowest bits of a register, so many less than 32 of them, by two shifts.
fn shift_twice(
    code: &mut Code,
    storage: &Storage<'_>,
    target: Home,
    source: Source,
    by: u32,
    back: ImmediateOperation,
) -> Result<(), AllocError>
    ensures few { OnOk result (words_in code.new.pieces.items ≤ words_in code.old.pieces.items + 8) }
    ensures stops { OnOk result (shown code.new ≡ shown code.old) }
    ensures grown { OnOk result
        (code_state code.new ≡ with_code
        (shifted_twice (storage_view storage.now) code.old.held.items target source by back)
        (code_state code.old)) }
{
    let source = code.fetch_source(storage, source, register::T1)?;
    code.put_immediate(ImmediateOperation::Slli, register::T1, source, by)?;
    let rd = result_register(target);
    code.put_immediate(back, rd, register::T1, by)?;
    code.finish(storage, target, rd)
}

/// A target becomes what a truncation leaves of an operand.
pub fn put_truncation(
    code: &mut Code,
    storage: &Storage<'_>,
    target: Name,
    truncation: Truncation,
    from: Operand,
) -> Result<(), AllocError>
    ensures few { OnOk result (words_in code.new.pieces.items ≤ words_in code.old.pieces.items + 8) }
    ensures stops { OnOk result (shown code.new ≡ shown code.old) }
    ensures grown { OnOk result
        (code_state code.new ≡ with_code (truncation_code (storage_view storage.now) code.old.held.items
        (home_at (storage_view storage.now) target.0) truncation
        (source_of (storage_view storage.now) (operand_view from))) (code_state code.old)) }
{
    let target = storage.home(target);
    let from = storage.source(from);
    match truncation {
        Truncation::Unsigned8 => {
            operate_immediate(code, storage, target, ImmediateOperation::Andi, from, 255)
        }
        Truncation::Signed8 => {
            shift_twice(code, storage, target, from, 24, ImmediateOperation::Srai)
        }
        Truncation::Unsigned16 => {
            shift_twice(code, storage, target, from, 16, ImmediateOperation::Srli)
        }
        Truncation::Signed16 => {
            shift_twice(code, storage, target, from, 16, ImmediateOperation::Srai)
        }
    }
}

/// A target becomes 1 where what two registers hold is the same, and else 0.
fn compare_registers(
    code: &mut Code,
    storage: &Storage<'_>,
    target: Home,
    left: Source,
    right: Source,
) -> Result<(), AllocError>
    ensures few { OnOk result (words_in code.new.pieces.items ≤ words_in code.old.pieces.items + 11) }
    ensures stops { OnOk result (shown code.new ≡ shown code.old) }
    ensures grown { OnOk result
        (code_state code.new ≡ with_code (compared (storage_view storage.now) code.old.held.items target left right)
        (code_state code.old)) }
{
    let left = code.fetch_source(storage, left, register::T1)?;
    let right = code.fetch_source(storage, right, register::T2)?;
    code.put(Instruction::Register(RegisterOperation::Xor, register::T1, left, right))?;
    let rd = result_register(target);
    code.put_immediate(ImmediateOperation::Sltiu, rd, register::T1, 1)?;
    code.finish(storage, target, rd)
}

/// A target becomes 1 where what is read is the same, and else 0.
pub fn put_comparison(
    code: &mut Code,
    storage: &Storage<'_>,
    target: Name,
    left: Operand,
    right: Operand,
) -> Result<(), AllocError>
    ensures few { OnOk result (words_in code.new.pieces.items ≤ words_in code.old.pieces.items + 11) }
    ensures stops { OnOk result (shown code.new ≡ shown code.old) }
    ensures grown { OnOk result
        (code_state code.new ≡ with_code (comparison_code (storage_view storage.now) code.old.held.items
        (home_at (storage_view storage.now) target.0) (source_of (storage_view storage.now) (operand_view left))
        (source_of (storage_view storage.now) (operand_view right))) (code_state code.old)) }
{
    let target = storage.home(target);
    match (storage.source(left), storage.source(right)) {
        (Source::Word(0), other) | (other, Source::Word(0)) => {
            operate_immediate(code, storage, target, ImmediateOperation::Sltiu, other, 1)
        }
        (left, right) => compare_registers(code, storage, target, left, right),
    }
}

/// A target becomes an operand.
pub fn put_move(
    code: &mut Code,
    storage: &Storage<'_>,
    target: Name,
    from: Operand,
) -> Result<(), AllocError>
    ensures few { OnOk result (words_in code.new.pieces.items ≤ words_in code.old.pieces.items + 6) }
    ensures stops { OnOk result (shown code.new ≡ shown code.old) }
    ensures grown { OnOk result
        (code_state code.new ≡ with_code (move_code (storage_view storage.now) code.old.held.items
        (home_at (storage_view storage.now) target.0)
        (source_of (storage_view storage.now) (operand_view from))) (code_state code.old)) }
{
    let target = storage.home(target);
    match (target, storage.source(from)) {
        (_, Source::Word(word)) => write_constant(code, storage, target, word),
        (Home::Register(rd), Source::Home(Home::Slot(slot))) => {
            code.load_slot(rd, storage.slot(slot))
        }
        (_, Source::Home(home)) => {
            let register = code.fetch_home(storage, home, register::T1)?;
            code.write(storage, target, register)
        }
    }
}
