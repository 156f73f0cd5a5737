//! The ends of blocks.

ghost use Rattle.std.specs.Prelude.{◌≡◌, ◌≤◌, ◌+◌, ◌++◌, false, OnOk, IfOk, Some, length, option_map};
ghost use Rattle.rv_emit_words.specs.Shown.{shown};
ghost use Rattle.rv_emit_words.specs.Words.{words_in};
ghost use Rattle.rv_emit_words.specs.Fetching.{most_words_of_source, most_words_to_bring};
ghost use Rattle.graph_core.specs.Graphs.{end_view, operand_view};
ghost use Rattle.rv_emit_storage.specs.Storages.{source_of, storage_view};
ghost use Rattle.rv_emit_words.specs.Growing.{code_state, with_code, with_piece};
ghost use Rattle.rv_emit_words.specs.Operands.{fetched_source, source_register};
ghost use Rattle.rv_emit_words.specs.declared.piece.Piece.TheVariants as piece;
ghost use Rattle.rv_emit_code.specs.Ends.{branch_operation, going, going_by, opposite, with_jump, with_branch, with_choice, with_loads, with_pieces, with_zero, word_test};
ghost use Rattle.rv_emit_code.specs.Leaving.{with_end, with_leave, with_return};

use crate::leaving::{put_leaving, words_of_move};
use graph_core::{Comparison, End, Label, Operand};
use graph_homes::Home;
use rv_code::BranchOperation;
use rv_emit_storage::{Source, Storage};
use rv_emit_words::{Code, Held, Piece, register, words_of_constant};
use std::alloc::AllocError;
use word_base::{slt, sltu};

/// How many words an end takes at most.
const MOST_WORDS: u32 = 9;

/// A branch that is taken where a comparison of two registers holds.
#[derive(Clone, Copy)]
struct Test {
    operation: BranchOperation,
    left: u8,
    right: u8,
}

/// The branch by a comparison.
fn branch_operation(comparison: Comparison) -> BranchOperation
    ensures { result ≡ branch_operation comparison }
{
    match comparison {
        Comparison::Equal => BranchOperation::Beq,
        Comparison::NotEqual => BranchOperation::Bne,
        Comparison::Less => BranchOperation::Blt,
        Comparison::AtLeast => BranchOperation::Bge,
        Comparison::LessUnsigned => BranchOperation::Bltu,
        Comparison::AtLeastUnsigned => BranchOperation::Bgeu,
    }
}

/// The branch that is taken where this one is not.
pub fn opposite(operation: BranchOperation) -> BranchOperation
    ensures { result ≡ opposite operation }
{
    match operation {
        BranchOperation::Beq => BranchOperation::Bne,
        BranchOperation::Bne => BranchOperation::Beq,
        BranchOperation::Blt => BranchOperation::Bge,
        BranchOperation::Bge => BranchOperation::Blt,
        BranchOperation::Bltu => BranchOperation::Bgeu,
        BranchOperation::Bgeu => BranchOperation::Bltu,
    }
}

/// Whether a comparison of two words holds.
fn holds(comparison: Comparison, left: u32, right: u32) -> bool
    ensures { result ≡ word_test comparison left right }
{
    match comparison {
        Comparison::Equal => left == right,
        Comparison::NotEqual => left != right,
        Comparison::Less => slt(left, right) == 1,
        Comparison::AtLeast => slt(left, right) == 0,
        Comparison::LessUnsigned => left < right,
        Comparison::AtLeastUnsigned => left >= right,
    }
}

/// What is compared, with 0 in place of 1 on the right or of -1 on the left where another comparison then says the
/// same.
fn with_zero(comparison: Comparison, left: Source, right: Source) -> (Comparison, Source, Source)
    ensures comparison { result.0 ≡ (with_zero comparison left right).comparison }
    ensures left { result.1 ≡ (with_zero comparison left right).left }
    ensures right { result.2 ≡ (with_zero comparison left right).right }
{
    let zero = Source::Word(0);
    match (comparison, left, right) {
        (Comparison::Less, left, Source::Word(1)) => (Comparison::AtLeast, zero, left),
        (Comparison::AtLeast, left, Source::Word(1)) => (Comparison::Less, zero, left),
        (Comparison::LessUnsigned, left, Source::Word(1)) => (Comparison::Equal, left, zero),
        (Comparison::AtLeastUnsigned, left, Source::Word(1)) => (Comparison::NotEqual, left, zero),
        (Comparison::Less, Source::Word(u32::MAX), right) => (Comparison::AtLeast, right, zero),
        (Comparison::AtLeast, Source::Word(u32::MAX), right) => (Comparison::Less, right, zero),
        (comparison, left, right) => (comparison, left, right),
    }
}

/// How many words fetching takes at most.
fn words_of_fetch(source: Source) -> u32
    ensures { result ≡ most_words_of_source source }
{
    match source {
        Source::Home(Home::Register(_)) => 0,
        Source::Home(Home::Slot(_)) => 3,
        Source::Word(_) => 2,
    }
}

/// How many words bring what is read into one register at most.
fn words_to_bring(source: Source) -> u32
    ensures { result ≡ most_words_to_bring source }
{
    match source {
        Source::Home(Home::Register(_)) => 1,
        Source::Home(Home::Slot(_)) => 3,
        Source::Word(_) => 2,
    }
}

/// Loads constants into scratch registers, as far as that takes no more than so many words.
fn load_held(code: &mut Code, base: u32, loads: &[Held], room: u32) -> Result<(), AllocError>
    ensures few { OnOk result (words_in code.new.pieces.items ≤ words_in code.old.pieces.items + room) }
    ensures stops { OnOk result (shown code.new ≡ shown code.old) }
    ensures grown { OnOk result (code_state code.new ≡ with_loads base room loads.now (code_state code.old)) }
{
    let mut left = room;
    for held in loads {
        let words = words_of_constant(held.word, base);
        if words <= left {
            left -= words;
            code.hold(*held, base, words)?;
        }
    }
    Ok(())
}

/// Goes to a block, behind which the one that stands next follows.
fn go(code: &mut Code, to: Label, next: Label) -> Result<(), AllocError>
    ensures few { OnOk result (words_in code.new.pieces.items ≤ words_in code.old.pieces.items + 1) }
    ensures stops { OnOk result (shown code.new ≡ shown code.old) }
    ensures begun { OnOk result (code.new.begins ≡ false) }
    ensures grown { OnOk result
        (code_state code.new ≡ with_pieces (going code.old.begins to.0 next.0) (code_state code.old)) }
{
    if to.0 == next.0 {
        code.settle()
    } else {
        code.put_piece(Piece::Jump(to))
    }
}

/// Branches to a block.
fn branch_to(
    code: &mut Code,
    operation: BranchOperation,
    left: u8,
    right: u8,
    to: Label,
) -> Result<(), AllocError>
    ensures few { OnOk result (words_in code.new.pieces.items ≤ words_in code.old.pieces.items + 2) }
    ensures stops { OnOk result (shown code.new ≡ shown code.old) }
    ensures begun { OnOk result (code.new.begins ≡ false) }
    ensures grown { OnOk result
        (code_state code.new ≡ with_piece (piece.Branch operation left right to) (code_state code.old)) }
{
    code.put_piece(Piece::Branch {
        operation,
        left,
        right,
        to,
    })
}

/// Goes to one block where a comparison of registers holds, and else to another.
fn go_by_test(
    code: &mut Code,
    test: Test,
    then: Label,
    otherwise: Label,
    next: Label,
) -> Result<(), AllocError>
    ensures few { OnOk result (words_in code.new.pieces.items ≤ words_in code.old.pieces.items + 3) }
    ensures stops { OnOk result (shown code.new ≡ shown code.old) }
    ensures begun { OnOk result (code.new.begins ≡ false) }
    ensures grown { OnOk result
        (code_state code.new ≡ with_pieces (going_by test.operation test.left test.right then.0 otherwise.0 next.0)
        (code_state code.old)) }
{
    if then.0 == next.0 {
        return branch_to(
            code,
            opposite(test.operation),
            test.left,
            test.right,
            otherwise,
        );
    }
    branch_to(code, test.operation, test.left, test.right, then)?;
    go(code, otherwise, next)
}

/// Fetches what is compared.
fn fetch_test(
    code: &mut Code,
    storage: &Storage<'_>,
    comparison: Comparison,
    left: Source,
    right: Source,
) -> Result<Test, AllocError>
    ensures few { OnOk result
        (words_in code.new.pieces.items
        ≤ words_in code.old.pieces.items + (most_words_of_source left + most_words_of_source right)) }
    ensures stops { OnOk result (shown code.new ≡ shown code.old) }
    ensures right { IfOk result (λ t. t.right ≡ source_register (storage_view storage.now) code.old.held.items right 7) }
    ensures left { IfOk result (λ t. t.left ≡ source_register (storage_view storage.now) code.old.held.items left 6) }
    ensures operation { IfOk result (λ t. t.operation ≡ branch_operation comparison) }
    ensures grown { OnOk result
        (code_state code.new ≡ with_code (fetched_source (storage_view storage.now) code.old.held.items left 6
        ++ fetched_source (storage_view storage.now) code.old.held.items right 7) (code_state code.old)) }
{
    let left = code.fetch_source(storage, left, register::T1)?;
    let right = code.fetch_source(storage, right, register::T2)?;
    Ok(Test {
        operation: branch_operation(comparison),
        left,
        right,
    })
}

/// Loads constants and goes to a block, in at most nine words.
fn jump(
    code: &mut Code,
    storage: &Storage<'_>,
    to: Label,
    next: Label,
    loads: &[Held],
) -> Result<(), AllocError>
    ensures few { OnOk result (words_in code.new.pieces.items ≤ words_in code.old.pieces.items + 9) }
    ensures stops { OnOk result (shown code.new ≡ shown code.old) }
    ensures begun { OnOk result (code.new.begins ≡ false) }
    ensures grown { OnOk result
        (code_state code.new ≡ with_jump (storage_view storage.now) loads.now to.0 next.0 (code_state code.old)) }
{
    load_held(code, storage.base, loads, MOST_WORDS - 1)?;
    go(code, to, next)
}

/// Loads constants and goes to one block where a comparison holds, and else to another, in at most nine words.
fn branch(
    code: &mut Code,
    storage: &Storage<'_>,
    compared: (Comparison, Source, Source),
    targets: (Label, Label),
    next: Label,
    loads: &[Held],
) -> Result<(), AllocError>
    ensures few { OnOk result (words_in code.new.pieces.items ≤ words_in code.old.pieces.items + 9) }
    ensures stops { OnOk result (shown code.new ≡ shown code.old) }
    ensures begun { OnOk result (code.new.begins ≡ false) }
    ensures grown { OnOk result
        (code_state code.new ≡ with_branch (storage_view storage.now) loads.now
        (with_zero compared.0 compared.1 compared.2) targets.0.0 targets.1.0 next.0 (code_state code.old)) }
{
    let (comparison, left, right) = with_zero(compared.0, compared.1, compared.2);
    let room = MOST_WORDS - 3 - words_of_fetch(left) - words_of_fetch(right);
    load_held(code, storage.base, loads, room)?;
    let test = fetch_test(code, storage, comparison, left, right)?;
    go_by_test(code, test, targets.0, targets.1, next)
}

/// Goes on from the end of a block by a comparison, which may be known.
fn branch_or_jump(
    code: &mut Code,
    storage: &Storage<'_>,
    compared: (Comparison, Source, Source),
    targets: (Label, Label),
    next: Label,
    loads: &[Held],
) -> Result<(), AllocError>
    ensures few { OnOk result (words_in code.new.pieces.items ≤ words_in code.old.pieces.items + 9) }
    ensures stops { OnOk result (shown code.new ≡ shown code.old) }
    ensures begun { OnOk result (code.new.begins ≡ false) }
    ensures grown { OnOk result
        (code_state code.new ≡ with_choice (storage_view storage.now) loads.now compared.0 compared.1 compared.2
        targets.0.0 targets.1.0 next.0 (code_state code.old)) }
{
    if targets.0.0 == targets.1.0 {
        return jump(code, storage, targets.0, next, loads);
    }
    match compared {
        (comparison, Source::Word(left), Source::Word(right)) => {
            let to = if holds(comparison, left, right) {
                targets.0
            } else {
                targets.1
            };
            jump(code, storage, to, next, loads)
        }
        _ => branch(code, storage, compared, targets, next, loads),
    }
}

/// Leaves the function, with its result in `a0`: by its end, which is repeated here where that takes no more than so
/// many words.
fn leave(code: &mut Code, storage: &Storage<'_>, next: Label, room: u32) -> Result<(), AllocError>
    requires { 1 ≤ room }
    ensures few { OnOk result (words_in code.new.pieces.items ≤ words_in code.old.pieces.items + room) }
    ensures stops { OnOk result (shown code.new ≡ shown code.old) }
    ensures begun { OnOk result (code.new.begins ≡ false) }
    ensures grown { OnOk result
        (code_state code.new ≡ with_leave storage.now.frame.now.saved.items storage.now.frame.now.size
        storage.now.end.0 next.0 room (code_state code.old)) }
{
    let moves = words_of_move(storage.frame.size);
    let saved = storage.frame.saved.len();
    if next.0 == storage.end.0 || saved > 9 || saved + 3 + moves as usize > room as usize {
        return go(code, storage.end, next);
    }
    put_leaving(code, storage.frame, moves)
}

/// Returns a value, in at most nine words.
fn put_return_of(
    code: &mut Code,
    storage: &Storage<'_>,
    value: Source,
    next: Label,
) -> Result<(), AllocError>
    ensures few { OnOk result (words_in code.new.pieces.items ≤ words_in code.old.pieces.items + 9) }
    ensures stops { OnOk result (shown code.new ≡ shown code.old) }
    ensures begun { OnOk result (code.new.begins ≡ false) }
    ensures grown { OnOk result
        (code_state code.new ≡ with_return (storage_view storage.now) storage.now.frame.now.saved.items
        storage.now.frame.now.size storage.now.end.0 next.0 (Some value) (code_state code.old)) }
{
    if let Source::Word(word) = value {
        let words = words_of_constant(word, storage.base);
        code.set_by(register::A0, word, storage.base, words)?;
        return leave(code, storage, next, MOST_WORDS - words);
    }
    code.bring(storage, register::A0, value)?;
    leave(code, storage, next, MOST_WORDS - words_to_bring(value))
}

/// Returns, with a value or none, in at most nine words.
fn put_return(
    code: &mut Code,
    storage: &Storage<'_>,
    value: Option<Operand>,
    next: Label,
) -> Result<(), AllocError>
    ensures few { OnOk result (words_in code.new.pieces.items ≤ words_in code.old.pieces.items + 9) }
    ensures stops { OnOk result (shown code.new ≡ shown code.old) }
    ensures begun { OnOk result (code.new.begins ≡ false) }
    ensures grown { OnOk result
        (code_state code.new ≡ with_return (storage_view storage.now) storage.now.frame.now.saved.items
        storage.now.frame.now.size storage.now.end.0 next.0
        (option_map (source_of (storage_view storage.now)) (option_map operand_view value))
        (code_state code.old)) }
{
    match value {
        None => leave(code, storage, next, MOST_WORDS),
        Some(value) => put_return_of(code, storage, storage.source(value), next),
    }
}

/// The end of a block, behind which this one stands next, in at most nine words. These constants are loaded, as far as
/// that leaves room.
pub(crate) fn put_end(
    code: &mut Code,
    storage: &Storage<'_>,
    end: End,
    next: Label,
    loads: &[Held],
) -> Result<(), AllocError>
    ensures few { OnOk result (words_in code.new.pieces.items ≤ words_in code.old.pieces.items + 9) }
    ensures stops { OnOk result (shown code.new ≡ shown code.old) }
    ensures begun { OnOk result (code.new.begins ≡ false) }
    ensures grown { OnOk result
        (code_state code.new ≡ with_end (storage_view storage.now) storage.now.frame.now.saved.items
        storage.now.frame.now.size storage.now.end.0 next.0 loads.now (end_view end) (code_state code.old)) }
{
    match end {
        End::Jump(to) => jump(code, storage, to, next, loads),
        End::Branch {
            comparison,
            left,
            right,
            then,
            otherwise,
        } => {
            let compared = (comparison, storage.source(left), storage.source(right));
            branch_or_jump(code, storage, compared, (then, otherwise), next, loads)
        }
        End::Return(value) => put_return(code, storage, value, next),
    }
}
