//! How often a sum is done along the two paths of a program, before code motion and behind it.

use c_source::program;
use graph_build::build;
use graph_core::{End, Graph, Name, Operand, Unit};
use motion_pass::{Computation, counts, move_code};
use std::alloc::{AllocError, Global};
use std::test::Fail;
use word_base::Operation;

/// A sum that is done on one of two paths, and again where they meet.
const SUMS: &[u8] =
    b"#include <stdio.h>\nint main(void){int a=getchar(); int b=getchar(); int x=0; int y=0; if(a>60) x=a+b; else y=1; y=a+b; return x+y;}\n";

/// The sum of the first two variables.
const SUM: Computation = Computation::Operated {
    operation: Operation::Add,
    left: Operand::Name(Name(0)),
    right: Operand::Name(Name(1)),
};

/// The unit of the program, and behind code motion.
fn units(alloc: Global) -> Result<Option<(Unit, Unit)>, AllocError> {
    let Ok(program) = program(alloc, SUMS) else {
        return Ok(None);
    };
    let unit = build(alloc, &program)?;
    if !unit.is_valid() {
        return Ok(None);
    }
    let moved = move_code(alloc, &unit)?;
    Ok(Some((unit, moved)))
}

/// The block to which the end of a block leads: where it branches, the one where the comparison holds, or the other.
fn next_of(graph: &Graph, block: u32, holds: bool) -> Option<u32> {
    match graph.blocks.get(block as usize)?.end {
        End::Return(_) => None,
        End::Jump(to) => Some(to.0),
        End::Branch {
            then,
            otherwise,
            ..
        } => {
            if holds {
                Some(then.0)
            } else {
                Some(otherwise.0)
            }
        }
    }
}

/// The first blocks of the path from the entry on which each comparison holds, or none does.
fn path_of(alloc: Global, graph: &Graph, holds: bool) -> Result<Vec<u32>, AllocError> {
    let mut path = Vec::new(alloc);
    let mut next = Some(0u32);
    for _ in 0..16 {
        if let Some(block) = next {
            path.push(block)?;
            next = next_of(graph, block, holds);
        }
    }
    Ok(path)
}

/// How often the sum is done along such a path of the first function.
fn sums_along(alloc: Global, unit: &Unit, holds: bool) -> Result<Option<u32>, AllocError> {
    let Some(graph) = unit.graphs.first() else {
        return Ok(None);
    };
    let path = path_of(alloc, graph, holds)?;
    counts(alloc, graph, &path, &SUM)
}

#[test]
fn code_motion_leaves_one_sum_on_each_path(rt: HostRuntime) -> Result<(), Fail> {
    let Some((before, after)) = units(rt.alloc())? else {
        return Err(Fail::from("a moved unit"));
    };
    assert!(rt; sums_along(rt.alloc(), &before, true)? == Some(2));
    assert!(rt; sums_along(rt.alloc(), &after, true)? == Some(1));
    assert!(rt; sums_along(rt.alloc(), &before, false)? == Some(1));
    assert!(rt; sums_along(rt.alloc(), &after, false)? == Some(1));
    Ok(())
}

#[test]
fn nothing_is_counted_along_what_is_no_path(rt: HostRuntime) -> Result<(), Fail> {
    let Some((before, _)) = units(rt.alloc())? else {
        return Err(Fail::from("a moved unit"));
    };
    let Some(graph) = before.graphs.first() else {
        return Err(Fail::from("a function"));
    };
    let none: [u32; 0] = [];
    assert!(rt; counts(rt.alloc(), graph, &none, &SUM)? == None);
    assert!(rt; counts(rt.alloc(), graph, &[1], &SUM)? == None);
    assert!(rt; counts(rt.alloc(), graph, &[0, 0], &SUM)? == None);
    assert!(rt; counts(rt.alloc(), graph, &[0, 99], &SUM)? == None);
    Ok(())
}
