//! Values worked by hand: the meet over all paths of a graph with cycles, the live names of a loop, facts inside a
//! block, and rows of bits.

ghost use Rattle.std.specs.Prelude.{◌≡◌, ◌<◌, ◌≤◌, ◌^◌, IfOk, length};
ghost use Rattle.graph_core.specs.Graphs.{graph_view};
ghost use Rattle.graph_solve.specs.GraphFlow.{AreTargetsWithin};
ghost use Rattle.cdbg_middle_tests.specs.Passed.{fact_if, passed_flow};
ghost use Rattle.cdbg_middle_tests.specs.Passing.{HasShape, end_effect, written_effect};

use bit_rows::Rows;
use debug_records::Place;
use graph_core::{Block, Comparison, End, Graph, Instr, Label, Name, NoteValue, Operand, Recipe};
use graph_solve::{solve, solve_plain, targets_are_within};
use graph_solve_live::{Effect, Effects, live, live_before, live_before_end, step_over, walk_over};
use graph_solve_problem::{Facts, Problem, Solution};
use std::alloc::{AllocError, Global};
use std::process::Abort;
use std::test::Fail;
use word_base::Operation;

/// Whether each path passed block 1, and not block 2 since then: the fact 0.
#[derive(Drop)]
struct Passed {
    forward: bool,
}

impl Problem for Passed {
    ghost flow = { λ passed. passed_flow passed.forward };

    fn forward(&self) -> bool {
        self.forward
    }

    fn height(&self) -> u32 {
        1
    }

    fn width(&self) -> u32 {
        1
    }

    fn unites(&self) -> bool {
        false
    }

    fn kept(&self, block: u32, _fact: u32) -> bool {
        block != 2
    }

    fn written(&self, block: u32, _fact: u32) -> bool {
        block == 1
    }

    fn edge(&self, alloc: Global) -> Result<Facts, AllocError> {
        Ok(Facts::new(alloc))
    }

    fn top(&self, alloc: Global) -> Result<Facts, AllocError> {
        let mut all = Facts::new(alloc);
        all.add(0)?;
        Ok(all)
    }

    fn meet(&self, _alloc: Global, a: &Facts, b: &Facts) -> Result<Facts, AllocError> {
        a.intersection(b)
    }

    fn transfer(&self, alloc: Global, block: u32, value: &Facts) -> Result<Facts, AllocError> {
        let made = fact_if(alloc, block == 1)?;
        let lost = fact_if(alloc, block == 2)?;
        let kept = value.difference(&lost)?;
        made.union(&kept)
    }
}

/// The fact 0, or none.
fn fact_if(alloc: Global, is: bool) -> Result<Facts, AllocError>
    ensures { IfOk result (λ facts. facts ≡ fact_if is) }
{
    let mut facts = Facts::new(alloc);
    if is {
        facts.add(0)?;
    }
    Ok(facts)
}

/// Whether the fact is in the value of the block.
fn has(values: &[Facts], block: usize, fact: u32) -> bool {
    match values.get(block) {
        Some(facts) => facts.has(fact),
        None => false,
    }
}

fn jump(to: u32) -> End {
    End::Jump(Label(to))
}

fn branch(left: Operand, right: Operand, then: u32, otherwise: u32) -> End {
    End::Branch {
        comparison: Comparison::Less,
        left,
        right,
        then: Label(then),
        otherwise: Label(otherwise),
    }
}

fn block(instructions: Vec<Instr>, end: End) -> Block {
    Block {
        place: None,
        instructions,
        end,
    }
}

fn graph(alloc: Global, blocks: Vec<Block>) -> Graph {
    Graph {
        entry: Place(1),
        parameters: Vec::new(alloc),
        scalars: Vec::new(alloc),
        objects: Vec::new(alloc),
        name_count: 4,
        first_moved: 4,
        blocks,
    }
}

/// A cycle of the blocks 1 and 3, by which the way 0, 2, 4 does not go; the blocks 5 and 6 are a cycle that nothing
/// reaches.
fn two_cycles(alloc: Global) -> Result<Graph, AllocError> {
    let zero = Operand::Constant(0);
    let blocks = vec![in alloc;
        block(Vec::new(alloc), branch(zero, zero, 1, 2)),
        block(Vec::new(alloc), jump(3)),
        block(Vec::new(alloc), jump(4)),
        block(Vec::new(alloc), branch(zero, zero, 1, 4)),
        block(Vec::new(alloc), End::Return(None)),
        block(Vec::new(alloc), jump(6)),
        block(Vec::new(alloc), jump(5)),
    ]?;
    Ok(graph(alloc, blocks))
}

/// In which blocks a fact is wanted.
fn assert_has(rt: &impl Abort, values: &[Facts], fact: u32, wanted: &[bool], shows: &str) {
    for (block, is_wanted) in wanted.iter().enumerate() {
        assert!(rt;
            has(values, block, fact) == *is_wanted,
            "{fact} at {shows} of {block}"
        );
    }
}

/// Whether the problem goes forward, and in which blocks the fact is wanted at the start, and at the end.
static EVERY_PATH: [(bool, [bool; 7], [bool; 7]); 2] = [
    (
        true,
        [false, false, false, true, false, true, true],
        [false, true, false, true, false, true, true],
    ),
    (
        false,
        [false, true, false, false, false, true, true],
        [false, false, false, false, false, true, true],
    ),
];

/// The solution by rows of bits, or by ordered sets.
fn solution_of(
    alloc: Global,
    graph: &Graph,
    problem: &Passed,
    is_plain: bool,
) -> Result<Solution, AllocError>
    requires few { length graph.now.blocks.items < 2 ^ 31 }
    requires within { AreTargetsWithin (graph_view graph.now) }
{
    if is_plain {
        solve_plain(alloc, graph, problem)
    } else {
        solve(alloc, graph, problem)
    }
}

#[test]
fn every_path_counts(rt: HostRuntime) -> Result<(), Fail> {
    let graph = two_cycles(rt.alloc())?;
    assert!(rt; graph.blocks.len() < 100);
    assert!(rt; targets_are_within(&graph));
    for (forward, starts, ends) in &EVERY_PATH {
        let problem = Passed { forward: *forward };
        for is_plain in [false, true] {
            let solution = solution_of(rt.alloc(), &graph, &problem, is_plain)?;
            assert_has(&rt, &solution.starts, 0, starts.as_slice(), "the start");
            assert_has(&rt, &solution.ends, 0, ends.as_slice(), "the end");
        }
    }
    Ok(())
}

/// `a = 5; while (a < b) a = a + b; return a;` with a note of the name 2, where a and b are the names 0 and 1.
fn loop_graph(alloc: Global) -> Result<Graph, AllocError> {
    let a = Operand::Name(Name(0));
    let b = Operand::Name(Name(1));
    let first = vec![in alloc;
        Instr::Move {
            target: Name(0),
            from: Operand::Constant(5)
        },
    ]?;
    let body = vec![in alloc;
        Instr::Note {
            of: Name(2),
            value: NoteValue::Is(Recipe::of_name(Name(3)))
        },
        Instr::Operate {
            target: Name(0),
            operation: Operation::Add,
            left: a,
            right: b
        },
    ]?;
    let blocks = vec![in alloc;
        block(first, jump(1)),
        block(Vec::new(alloc), branch(a, b, 2, 3)),
        block(body, jump(1)),
        block(Vec::new(alloc), End::Return(Some(a))),
    ]?;
    Ok(graph(alloc, blocks))
}

/// In which blocks each of the four names is live at the start, and at the end.
static LIVE: [([bool; 4], [bool; 4]); 4] = [
    ([false, true, true, true], [true, true, true, false]),
    ([true, true, true, false], [true, true, true, false]),
    ([false, false, false, false], [false, false, false, false]),
    ([false, false, false, false], [false, false, false, false]),
];

#[test]
fn names_are_live_until_they_are_read_last(rt: HostRuntime) -> Result<(), Fail> {
    let graph = loop_graph(rt.alloc())?;
    assert!(rt; graph.blocks.len() < 100);
    assert!(rt; targets_are_within(&graph));
    let solution = live(rt.alloc(), &graph)?;
    for (name, (starts, ends)) in (0..4u32).zip(&LIVE) {
        assert_has(&rt, &solution.starts, name, starts.as_slice(), "the start");
        assert_has(&rt, &solution.ends, name, ends.as_slice(), "the end");
    }
    Ok(())
}

/// Whether a name was written since its last note: the fact of its number. The end of a block clears the fact 1.
#[derive(Drop)]
struct Written;

impl Effects for Written {
    ghost effect = { λ all block left i fact. written_effect i fact };

    ghost at_end = { λ all block end fact. end_effect end fact };

    fn effect(&self, _block: u32, _left: usize, instruction: &Instr, fact: u32) -> Effect {
        if instruction.target().is_some_and(|target| target.0 == fact) {
            return Effect::Sets;
        }
        match instruction {
            Instr::Note { of, .. } if of.0 == fact => Effect::Clears,
            _ => Effect::Leaves,
        }
    }

    fn at_end(&self, _block: u32, _end: &End, fact: u32) -> Effect {
        if fact == 1 {
            Effect::Clears
        } else {
            Effect::Leaves
        }
    }
}

/// `a = 5;`, a note of a, `b = a + b;`, where a and b are the names 0 and 1.
fn noted_block(alloc: Global) -> Result<Block, AllocError> {
    let instructions = vec![in alloc;
        Instr::Move {
            target: Name(0),
            from: Operand::Constant(5)
        },
        Instr::Note {
            of: Name(0),
            value: NoteValue::Is(Recipe::of_name(Name(0)))
        },
        Instr::Operate {
            target: Name(1),
            operation: Operation::Add,
            left: Operand::Name(Name(0)),
            right: Operand::Name(Name(1))
        },
    ]?;
    Ok(block(instructions, End::Return(None)))
}

/// The facts 0 and 1 behind each instruction in turn, where they are walked over forward from fact 1 alone.
static BEHIND: [[bool; 2]; 3] = [[true, true], [false, true], [false, true]];

#[test]
fn facts_inside_a_block(rt: HostRuntime) -> Result<(), Fail> {
    let alloc = rt.alloc();
    let block = noted_block(alloc)?;
    let mut facts = Facts::new(alloc);
    facts.add(1)?;
    let mut whole = facts.duplicate()?;
    for ((left, instruction), wanted) in [2, 1, 0].iter().zip(&block.instructions).zip(&BEHIND) {
        step_over(&Written, 0, *left, instruction, 2, &mut facts)?;
        assert!(rt; [facts.has(0), facts.has(1)] == *wanted, "{left} are left");
    }
    walk_over(&Written, 0, &block, true, 2, &mut whole)?;
    assert!(rt; !whole.has(0) && !whole.has(1));
    walk_over(&Written, 0, &block, false, 2, &mut whole)?;
    assert!(rt; whole.has(0) && whole.has(1));
    Ok(())
}

/// The names 0 and 1 that are live before each instruction of the block, from the last to the first, where name 1 is
/// live at the block's end.
static LIVE_BEFORE: [[bool; 2]; 3] = [[true, true], [true, true], [false, true]];

#[test]
fn names_are_live_inside_a_block(rt: HostRuntime) -> Result<(), Fail> {
    let alloc = rt.alloc();
    let block = noted_block(alloc)?;
    let mut names = Facts::new(alloc);
    names.add(1)?;
    live_before_end(alloc, &block.end, 2, &mut names)?;
    assert!(rt; !names.has(0) && names.has(1));
    for (instruction, wanted) in block.instructions.iter().rev().zip(&LIVE_BEFORE) {
        live_before(alloc, instruction, 2, &mut names)?;
        assert!(rt; [names.has(0), names.has(1)] == *wanted);
    }
    Ok(())
}

/// Sets bits of a row.
fn set_bits(rows: &mut Rows, row: u32, bits: &[u32])
    requires shape { HasShape 2 70 rows.old }
    requires row { row < 2 }
    ensures { HasShape 2 70 rows.new }
{
    for bit in bits {
        if *bit < 70 {
            rows.set(row, *bit);
        }
    }
}

/// Clears bits of a row.
fn clear_bits(rows: &mut Rows, row: u32, bits: &[u32])
    requires shape { HasShape 2 70 rows.old }
    requires row { row < 2 }
    ensures { HasShape 2 70 rows.new }
{
    for bit in bits {
        if *bit < 70 {
            rows.clear(row, *bit);
        }
    }
}

/// Which bits of a row are set.
fn assert_bits(rt: &impl Abort, rows: &Rows, row: u32, wanted: &[u32], shows: &str)
    requires shape { HasShape 2 70 rows.now }
    requires row { row < 2 }
{
    for bit in 0..70u32 {
        assert!(rt;
            rows.get(row, bit) == wanted.contains(&bit),
            "{bit} of {shows}"
        );
    }
}

/// Bits that are set in two rows, bits that are then cleared in the second, and what is left in it; then whether the
/// first meets it by union, what is left, and whether that changed it.
struct MeetTable {
    first: &'static [u32],
    second: &'static [u32],
    cleared: &'static [u32],
    behind: &'static [u32],
    unite: bool,
    met: &'static [u32],
    changed: bool,
}

static MEETS: [MeetTable; 4] = [
    MeetTable {
        first: &[0, 63, 69],
        second: &[1, 63, 64],
        cleared: &[1],
        behind: &[63, 64],
        unite: true,
        met: &[0, 63, 64, 69],
        changed: true,
    },
    MeetTable {
        first: &[0, 63, 69],
        second: &[1, 63, 64],
        cleared: &[64],
        behind: &[1, 63],
        unite: false,
        met: &[63],
        changed: true,
    },
    MeetTable {
        first: &[64],
        second: &[0, 64],
        cleared: &[5],
        behind: &[0, 64],
        unite: true,
        met: &[0, 64],
        changed: false,
    },
    MeetTable {
        first: &[0, 69],
        second: &[69],
        cleared: &[],
        behind: &[69],
        unite: false,
        met: &[69],
        changed: false,
    },
];

#[test]
fn rows_meet(rt: HostRuntime) -> Result<(), Fail> {
    for table in &MEETS {
        let mut rows = Rows::new(rt.alloc(), 2, 70)?;
        set_bits(&mut rows, 0, table.first);
        set_bits(&mut rows, 1, table.second);
        clear_bits(&mut rows, 1, table.cleared);
        assert_bits(&rt, &rows, 1, table.behind, "what was set");
        let changed = meet(&mut rows, table.unite);
        assert!(rt; changed == table.changed);
        assert_bits(&rt, &rows, 1, table.met, "what was met");
    }
    Ok(())
}

/// Lets the second row meet the first.
fn meet(rows: &mut Rows, unite: bool) -> bool
    requires shape { HasShape 2 70 rows.old }
    ensures { HasShape 2 70 rows.new }
{
    rows.meet_into(0, 1, unite)
}
