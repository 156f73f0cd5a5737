//! Whether a unit stays within the bounds of valid ones where its graphs are moved.

ghost use Rattle.std.specs.Prelude.{◌≡◌, ◌-◌, ◌^◌, ◌++◌, ◌∷◌, IfSome, List, None, length, map, min};
ghost use Rattle.graph_core.specs.Graphs as spec;
ghost use Rattle.graph_core.specs.Graphs.{block_view, graph_view, instruction_view};
ghost use Rattle.graph_core.specs.Validity.{counts, instructions_of, total};
ghost use Rattle.motion_pass_placement.specs.Moves.{IsWithin};

use graph_core::{
    Block, Graph, Instr, MAX_FUNCTION_INSTRUCTIONS, MAX_NAMES, Room, max_blocks, max_instructions,
};

/// How much graphs have of what is bounded.
#[derive(Clone, Copy)]
pub struct Amount {
    /// Instructions that are neither markers nor notes.
    instructions: u64,
    blocks: u64,
}

/// Whether an instruction is counted, as a number.
fn counts(instruction: &Instr) -> u64
    ensures { result ≡ counts (instruction_view instruction.now) }
{
    match instruction {
        Instr::Marker(_) | Instr::Note { .. } => 0,
        _ => 1,
    }
}

/// How many of these instructions are counted, or the greatest number where they are more.
fn counted(instructions: &[Instr]) -> u64
    ensures { result ≡ min (total counts (map instruction_view instructions.now)) (2 ^ 64 - 1) }
{
    instructions.iter().fold(
        0,
        |sum, instruction| sum.saturating_add(counts(instruction)),
    )
}

fn counted_along(blocks: &[Block]) -> u64
    ensures { result
        ≡ min (total (λ (b : spec.Block). total counts b.instructions) (map block_view blocks.now)) (2 ^ 64 - 1) }
{
    blocks.iter().fold(
        0,
        |sum, block| sum.saturating_add(counted(&block.instructions)),
    )
}

/// How many instructions of a graph are counted, or the greatest number where they are more.
fn counted_of(graph: &Graph) -> u64
    ensures { result ≡ min (instructions_of (graph_view graph.now)) (2 ^ 64 - 1) }
{
    counted_along(&graph.blocks)
}

fn counted_in(graphs: &[Graph]) -> u64
    ensures { result ≡ min (total instructions_of (map graph_view graphs.now)) (2 ^ 64 - 1) }
{
    graphs
        .iter()
        .fold(0, |sum, graph| sum.saturating_add(counted_of(graph)))
}

/// How many blocks graphs have, or the greatest number where they are more.
fn blocks_in(graphs: &[Graph]) -> u64
    ensures { result ≡ min (total (λ (g : spec.Graph). length g.blocks) (map graph_view graphs.now)) (2 ^ 64 - 1) }
{
    graphs.iter().fold(
        0,
        |sum, graph| sum.saturating_add(graph.blocks.len() as u64),
    )
}

impl Amount {
    ghost use Rattle.motion_pass.specs.Amounts.{IsAmount};

    /// How much these graphs have.
    pub fn of(graphs: &[Graph]) -> Amount
        ensures instructions { result.instructions
            ≡ min (total instructions_of (map graph_view graphs.now)) (2 ^ 64 - 1) }
        ensures blocks { result.blocks
            ≡ min (total (λ (g : spec.Graph). length g.blocks) (map graph_view graphs.now)) (2 ^ 64 - 1) }
    {
        Amount {
            instructions: counted_in(graphs),
            blocks: blocks_in(graphs),
        }
    }

    /// How much there is with a graph in place of another, or the greatest number where it is more.
    fn with(self, graph: &Graph, moved: &Graph) -> Amount
        ensures instructions { (before behind : List spec.Graph)
            → IsAmount self (before ++ graph_view graph.now ∷ behind)
            → result.instructions ≡ min (total instructions_of (before ++ graph_view moved.now ∷ behind)) (2 ^ 64 - 1) }
        ensures blocks { (before behind : List spec.Graph) → IsAmount self (before ++ graph_view graph.now ∷ behind)
            → result.blocks ≡ min
            (total (λ (g : spec.Graph). length g.blocks) (before ++ graph_view moved.now ∷ behind)) (2 ^ 64 - 1) }
    {
        let was = counted_of(graph);
        let own = counted_of(moved);
        let rest = self.instructions.saturating_sub(was);
        let instructions = rest.saturating_add(own);
        let others = self.blocks.saturating_sub(graph.blocks.len() as u64);
        let blocks = others.saturating_add(moved.blocks.len() as u64);
        Amount {
            instructions,
            blocks,
        }
    }

    /// How much there is with a graph in place of another, if that is within the bounds of a unit of this room, and the
    /// graph within those of a function.
    pub fn replaced(self, room: Room, graph: &Graph, moved: &Graph) -> Option<Amount>
        ensures within { (before behind : List spec.Graph) → IsAmount self (before ++ graph_view graph.now ∷ behind)
            → IfSome result (λ a. IsWithin room (graph_view moved.now) (before ++ graph_view moved.now ∷ behind)) }
        ensures amount { (before behind : List spec.Graph) → IsAmount self (before ++ graph_view graph.now ∷ behind)
            → IfSome result (λ a. IsAmount a (before ++ graph_view moved.now ∷ behind)) }
        ensures beyond { (before behind : List spec.Graph) → IsAmount self (before ++ graph_view graph.now ∷ behind)
            → result ≡ None
            → IsWithin room (graph_view moved.now) (before ++ graph_view moved.now ∷ behind) → ⊥ }
    {
        let own = counted_of(moved);
        let all = self.with(graph, moved);
        if moved.name_count > MAX_NAMES {
            return None;
        }
        if own > MAX_FUNCTION_INSTRUCTIONS {
            return None;
        }
        if all.instructions > max_instructions(room) {
            return None;
        }
        if all.blocks > max_blocks(room) {
            return None;
        }
        Some(all)
    }
}
