//! Units that are valid, and units that are not for one reason each, by the rules of places as they are written down.

use debug_records::{ChangeLog, Place};
use graph_core::{Block, Callee, End, Graph, Instr, Label, Name, Operand, Room, Unit};
use places::FlowTable;
use smallvec::SmallVec;
use std::alloc::{AllocError, Global};
use std::test::Fail;

const RETURN: End = End::Return(None);

/// An instruction: a marker, a move to the one name, or a call of `main`.
enum Step {
    Marker(u32),
    Move,
    Call,
}

/// A block: its place, its instructions and its end.
struct BlockTable(Option<u32>, &'static [Step], End);

/// A unit of `main` alone, with the place of its entry and its blocks, and whether it is valid.
struct UnitTable {
    shows: &'static str,
    entry: u32,
    blocks: &'static [BlockTable],
    is_valid: bool,
}

/// The instruction of a step.
fn instruction(alloc: Global, step: &Step) -> Instr {
    match step {
        Step::Marker(place) => Instr::Marker(Place(*place)),
        Step::Move => Instr::Move {
            target: Name(0),
            from: Operand::Constant(0),
        },
        Step::Call => Instr::Call {
            target: None,
            callee: Callee::Function(0),
            arguments: SmallVec::new(alloc),
        },
    }
}

/// The blocks of their tables.
fn blocks_of(alloc: Global, tables: &[BlockTable]) -> Result<Vec<Block>, AllocError> {
    let mut blocks = Vec::new(alloc);
    for BlockTable(place, steps, end) in tables {
        let mut instructions = Vec::new(alloc);
        for step in *steps {
            instructions.push(instruction(alloc, step))?;
        }
        blocks.push(Block {
            place: place.map(Place),
            instructions,
            end: *end,
        })?;
    }
    Ok(blocks)
}

/// The unit of `main` alone, with one name.
fn unit_of(alloc: Global, entry: u32, blocks: Vec<Block>) -> Result<Unit, AllocError> {
    let main = Graph {
        entry: Place(entry),
        parameters: Vec::new(alloc),
        scalars: Vec::new(alloc),
        objects: Vec::new(alloc),
        name_count: 1,
        first_moved: 1,
        blocks,
    };
    let mut graphs = Vec::new(alloc);
    graphs.push(main)?;
    Ok(Unit {
        graphs,
        main: 0,
        statics: Vec::new(alloc),
        array_bytes: Vec::new(alloc),
        flow: FlowTable {
            steps: Vec::new(alloc),
            assignments: Vec::new(alloc),
        },
        log: ChangeLog::new(alloc),
        room: Room::Small,
    })
}

static UNITS: [UnitTable; 10] = [
    UnitTable {
        shows: "a block that keeps the entry, calls, begins the entry and begins again",
        entry: 2,
        blocks: &[BlockTable(Some(2), &[Step::Call, Step::Marker(2)], End::Jump(Label(0)))],
        is_valid: true,
    },
    UnitTable {
        shows: "the same block in a function of another entry",
        entry: 1,
        blocks: &[BlockTable(Some(2), &[Step::Call, Step::Marker(2)], End::Jump(Label(0)))],
        is_valid: false,
    },
    UnitTable {
        shows: "no block",
        entry: 1,
        blocks: &[],
        is_valid: false,
    },
    UnitTable {
        shows: "a first block that keeps the entry, without a marker",
        entry: 1,
        blocks: &[BlockTable(Some(1), &[], RETURN)],
        is_valid: true,
    },
    UnitTable {
        shows: "a first block that keeps another place",
        entry: 1,
        blocks: &[BlockTable(Some(2), &[], RETURN)],
        is_valid: false,
    },
    UnitTable {
        shows: "a first block without a place",
        entry: 1,
        blocks: &[BlockTable(None, &[], RETURN)],
        is_valid: false,
    },
    UnitTable {
        shows: "an instruction in a block that keeps a place",
        entry: 1,
        blocks: &[
            BlockTable(None, &[Step::Marker(1)], RETURN),
            BlockTable(Some(1), &[Step::Move], RETURN),
        ],
        is_valid: true,
    },
    UnitTable {
        shows: "an instruction behind a marker",
        entry: 1,
        blocks: &[
            BlockTable(None, &[Step::Marker(1)], RETURN),
            BlockTable(None, &[Step::Marker(2), Step::Move], RETURN),
        ],
        is_valid: true,
    },
    UnitTable {
        shows: "an instruction at no place",
        entry: 1,
        blocks: &[
            BlockTable(None, &[Step::Marker(1)], RETURN),
            BlockTable(None, &[Step::Move], RETURN),
        ],
        is_valid: false,
    },
    UnitTable {
        shows: "an instruction before its block's first marker",
        entry: 1,
        blocks: &[
            BlockTable(None, &[Step::Marker(1)], RETURN),
            BlockTable(None, &[Step::Move, Step::Marker(2)], RETURN),
        ],
        is_valid: false,
    },
];

#[test]
fn units_are_valid_by_the_rules_of_places(rt: HostRuntime) -> Result<(), Fail> {
    for table in &UNITS {
        let blocks = blocks_of(rt.alloc(), table.blocks)?;
        let unit = unit_of(rt.alloc(), table.entry, blocks)?;
        assert!(rt; unit.is_valid() == table.is_valid, "{}", table.shows);
    }
    Ok(())
}
