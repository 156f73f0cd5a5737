//! Paths of a loop, worked by hand: a call of each function.

use debug_records::{Place, Var};
use places::{Assignment, FlowStep, FlowTable, Path, is_path, route, route_past};
use smallvec::SmallVec;
use std::alloc::{AllocError, Global};
use std::test::Fail;

fn step(from: u32, to: u32) -> FlowStep {
    FlowStep {
        from: Place(from),
        to: Place(to),
    }
}

/// A loop: from 1 to 2 and 3, and from 3 back to 2; place 3 assigns variable 7.
fn loop_table(alloc: Global) -> Result<FlowTable, AllocError> {
    Ok(FlowTable {
        steps: vec![in alloc; step(1, 2), step(2, 3), step(3, 2)]?,
        assignments: vec![in alloc;
            Assignment {
                place: Place(3),
                var: Var(7)
            },
        ]?,
    })
}

fn path(alloc: Global, places: &[Place]) -> Result<Path, AllocError> {
    Ok(Path {
        places: SmallVec::from_slice(alloc, places)?,
    })
}

/// Lists of places, and whether each is a path of the loop.
static PATHS: [(&[Place], bool); 4] = [
    (&[], true),
    (&[Place(1), Place(2), Place(3), Place(2)], true),
    (&[Place(1), Place(3)], false),
    (&[Place(2), Place(1)], false),
];

#[test]
fn paths_go_by_flow(rt: HostRuntime) -> Result<(), Fail> {
    let table = loop_table(rt.alloc())?;
    for (places, wanted) in &PATHS {
        let path = path(rt.alloc(), *places)?;
        assert!(rt; is_path(&table, &path) == *wanted);
    }
    assert!(rt; table.can_go(Place(3), Place(2)) && !table.can_go(Place(1), Place(3)));
    assert!(rt; table.assigns(Place(3), Var(7)) && !table.assigns(Place(2), Var(7)));
    Ok(())
}

#[test]
fn a_route_goes_by_a_place(rt: HostRuntime) -> Result<(), Fail> {
    let table = FlowTable {
        steps: vec![in rt.alloc(); step(1, 2)]?,
        assignments: Vec::new(rt.alloc()),
    };
    let Some(found) = route(rt.alloc(), &table, Var(0), Place(1), Place(1), Place(2))? else {
        return Err(Fail::from("a path from 1 to 2"));
    };
    assert!(rt; found.places.as_slice() == [Place(1), Place(2)].as_slice());
    Ok(())
}

/// Steps from 1 to 4, by 2 and by 3.
static BY_TWO: [FlowStep; 4] = [
    FlowStep {
        from: Place(1),
        to: Place(2),
    },
    FlowStep {
        from: Place(1),
        to: Place(3),
    },
    FlowStep {
        from: Place(2),
        to: Place(4),
    },
    FlowStep {
        from: Place(3),
        to: Place(4),
    },
];

/// Flags of places, and the least way from 1 by 1 to 4 past those that are set: by 2, or else by 3, or else none.
static PAST: [(&[bool], &[Place]); 4] = [
    (&[], &[Place(1), Place(2), Place(4)]),
    (
        &[false, true, false, true, true],
        &[Place(1), Place(2), Place(4)],
    ),
    (&[false, false, true], &[Place(1), Place(3), Place(4)]),
    (&[false, false, true, true], &[]),
];

#[test]
fn a_route_goes_past_blocked_places(rt: HostRuntime) -> Result<(), Fail> {
    for (flags, wanted) in &PAST {
        let found = route_past(rt.alloc(), &BY_TWO, *flags, Place(1), Place(1), Place(4))?;
        match found {
            Some(found) => assert!(rt; found.places.as_slice() == *wanted),
            None => assert!(rt; wanted.is_empty()),
        }
    }
    Ok(())
}
