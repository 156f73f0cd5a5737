//! That the constants of graphs are words: of each one its type says so, and a walk says it of all.

ghost use Rattle.std.specs.Prelude.{map};
ghost use Rattle.std.specs.List.{AllByRecursion};
ghost use Rattle.graph_core.specs.Graphs.{block_view, end_view, graph_view, instruction_view, location_view, operand_view};
ghost use Rattle.rv_emit_runs.specs.Passing.{AreWords};
ghost use Rattle.rv_emit_runs.specs.Laid.{HasWords, HasWordsAtEnd, HasWordsInBlock, IsInWords, IsWord, IsWordIn};

use graph_core::{Block, End, Graph, Instr, Location, Operand};

/// A constant is a word.
fn operand_is_word(operand: Operand)
    ensures { IsWord (operand_view operand) }
{
    if let Operand::Constant(word) = operand {
        let _word = word;
    }
}

/// The constants of operands are words.
fn operands_are_words(operands: &[Operand])
    ensures { AreWords (map operand_view operands.now) }
{
    let mut left = operands;
    while let [first, rest @ ..] = left {
        operand_is_word(*first);
        left = rest;
    }
}

/// A constant of a location is a word.
fn location_is_word(location: Location)
    ensures { IsWordIn (location_view location) }
{
    if let Location::At(operand) = location {
        operand_is_word(operand);
    }
}

/// Two constants are words.
fn both_are_words(left: Operand, right: Operand)
    ensures left { IsWord (operand_view left) }
    ensures right { IsWord (operand_view right) }
{
    operand_is_word(left);
    operand_is_word(right);
}

/// The constants of an instruction are words.
fn instruction_has_words(instruction: &Instr)
    ensures { HasWords (instruction_view instruction.now) }
{
    match instruction {
        Instr::Move { from, .. } | Instr::Truncate { from, .. } => operand_is_word(*from),
        Instr::Operate { left, right, .. } | Instr::Same { left, right, .. } => {
            both_are_words(*left, *right)
        }
        Instr::Load { from, .. } => location_is_word(*from),
        Instr::Store { to, value, .. } => {
            location_is_word(*to);
            operand_is_word(*value);
        }
        Instr::Call { arguments, .. } => operands_are_words(arguments),
        _ => (),
    }
}

/// The constants of instructions are words.
fn instructions_have_words(instructions: &[Instr])
    ensures { AllByRecursion HasWords (map instruction_view instructions.now) }
{
    let mut left = instructions;
    while let [first, rest @ ..] = left {
        instruction_has_words(first);
        left = rest;
    }
}

/// The constants of the end of a block are words.
fn end_has_words(end: &End)
    ensures { HasWordsAtEnd (end_view end.now) }
{
    match end {
        End::Jump(_) => (),
        End::Branch { left, right, .. } => both_are_words(*left, *right),
        End::Return(Some(value)) => operand_is_word(*value),
        End::Return(None) => (),
    }
}

/// The constants of a block are words.
fn block_has_words(block: &Block)
    ensures { HasWordsInBlock (block_view block.now) }
{
    instructions_have_words(&block.instructions);
    end_has_words(&block.end);
}

/// The constants of blocks are words.
fn blocks_have_words(blocks: &[Block])
    ensures { AllByRecursion HasWordsInBlock (map block_view blocks.now) }
{
    let mut left = blocks;
    while let [first, rest @ ..] = left {
        block_has_words(first);
        left = rest;
    }
}

/// The constants of a graph are words.
fn graph_has_words(graph: &Graph)
    ensures { IsInWords (graph_view graph.now) }
{
    blocks_have_words(&graph.blocks);
}

/// The constants of graphs are words.
pub fn graphs_have_words(graphs: &[Graph])
    ensures { AllByRecursion IsInWords (map graph_view graphs.now) }
{
    let mut left = graphs;
    while let [first, rest @ ..] = left {
        graph_has_words(first);
        left = rest;
    }
}
