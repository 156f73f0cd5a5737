//! The places of small programs, where execution may go from them and what they assign, from the texts on.

use c_flow::{fits, flow_table, place_table};
use c_flow_assigns::assigns;
use c_parse::parse;
use c_token::tokens;
use c_tree::Program;
use c_type::check;
use debug_records::{Place, SourceErr, Var};
use places::{FlowTable, PlaceRow, PlaceTable};
use std::alloc::{AllocError, Global};
use std::process::Abort;
use std::test::Fail;

/// The program of a text.
fn program_of(alloc: Global, text: &[u8]) -> Result<Program, SourceErr> {
    let tokens = tokens(alloc, text)?;
    let program = check(alloc, parse(alloc, &tokens)?)?;
    Ok(program)
}

/// A place: where it stands, its line, the number of its function, whether it is an entry, and the numbers of the
/// variables visible there.
struct Row(u32, u32, u32, bool, &'static [u32]);

/// A text with its places, and by their numbers the steps between them and what they assign.
struct Worked {
    text: &'static [u8],
    places: &'static [Row],
    steps: &'static [(u32, u32)],
    assignments: &'static [(u32, u32)],
}

/// The steps and assignments of a table, as pairs of numbers.
fn pairs(
    alloc: Global,
    table: &FlowTable,
) -> Result<(Vec<(u32, u32)>, Vec<(u32, u32)>), AllocError> {
    let mut steps = Vec::new(alloc);
    for step in &table.steps {
        steps.push((step.from.0, step.to.0))?;
    }
    let mut assignments = Vec::new(alloc);
    for assignment in &table.assignments {
        assignments.push((assignment.place.0, assignment.var.0))?;
    }
    Ok((steps, assignments))
}

/// The visible variables of a table's places, by number.
fn visible(alloc: Global, table: &PlaceTable) -> Result<Vec<Vec<u32>>, AllocError> {
    let mut all = Vec::new(alloc);
    for row in &table.rows {
        let mut numbers = Vec::new(alloc);
        for variable in &row.visible {
            numbers.push(variable.0)?;
        }
        all.push(numbers)?;
    }
    Ok(all)
}

/// Programs, with what an independent reference in Python gives of them, by ISO/IEC 9899:2011 and the sentences of
/// docs/definitions.md on places.
static PROGRAMS: [Worked; 7] = [
    Worked {
        text: b"#include <stdio.h>\nint main(void){int x=2; x=x+3; putchar(65); return x;}",
        places: &[
            Row(23, 2, 0, true, &[]),
            Row(38, 2, 0, false, &[]),
            Row(43, 2, 0, false, &[0]),
            Row(50, 2, 0, false, &[0]),
            Row(63, 2, 0, false, &[0]),
        ],
        steps: &[(1, 2), (2, 3), (3, 4), (4, 5)],
        assignments: &[(2, 0), (3, 0)],
    },
    // both arms are places of their own
    Worked {
        text: b"int main(void){int c=0; if (c) ; else ; return c;}",
        places: &[
            Row(4, 1, 0, true, &[]),
            Row(19, 1, 0, false, &[]),
            Row(28, 1, 0, false, &[0]),
            Row(31, 1, 0, false, &[0]),
            Row(38, 1, 0, false, &[0]),
            Row(40, 1, 0, false, &[0]),
        ],
        steps: &[(1, 2), (2, 3), (3, 4), (3, 5), (4, 6), (5, 6)],
        assignments: &[(2, 0)],
    },
    // no place stands at the closing brace, which is never reached
    Worked {
        text: b"int main(void){for(;;){}}",
        places: &[Row(4, 1, 0, true, &[]), Row(15, 1, 0, false, &[])],
        steps: &[(1, 2), (2, 2)],
        assignments: &[],
    },
    // control falls from one label into the next, and with a `default` not past them all (6.8.4.2)
    Worked {
        text: b"#include <stdio.h>\nint main(void){switch(1){case 0: putchar(48); case 1: putchar(49); case 2: putchar(50); break; default: putchar(51);} return 0;}",
        places: &[
            Row(23, 2, 0, true, &[]),
            Row(41, 2, 0, false, &[]),
            Row(52, 2, 0, false, &[]),
            Row(73, 2, 0, false, &[]),
            Row(94, 2, 0, false, &[]),
            Row(107, 2, 0, false, &[]),
            Row(123, 2, 0, false, &[]),
            Row(137, 2, 0, false, &[]),
        ],
        steps: &[
            (1, 2),
            (2, 3),
            (2, 4),
            (2, 5),
            (2, 7),
            (3, 4),
            (4, 5),
            (5, 6),
            (6, 8),
            (7, 8),
        ],
        assignments: &[],
    },
    // a declarator does not see its own name, and hides what has it behind itself (6.2.1): the variables are the static x, main's x, y and the inner x
    Worked {
        text: b"int x=1; int main(void){int x=x=2; {int y=3, x=y; x=x+1;} return x;}",
        places: &[
            Row(13, 1, 0, true, &[]),
            Row(28, 1, 0, false, &[]),
            Row(40, 1, 0, false, &[1]),
            Row(45, 1, 0, false, &[1, 2]),
            Row(50, 1, 0, false, &[2, 3]),
            Row(58, 1, 0, false, &[1]),
        ],
        steps: &[(1, 2), (2, 3), (3, 4), (4, 5), (5, 6)],
        assignments: &[(2, 1), (3, 2), (4, 3), (5, 3)],
    },
    // the entry assigns the parameter, which is not visible there: the variables are g and a
    Worked {
        text: b"int g;\nint f(int a){a=a+1; return a;}\nint main(void){g=f(1); return g;}",
        places: &[
            Row(11, 2, 0, true, &[]),
            Row(20, 2, 0, false, &[1]),
            Row(27, 2, 0, false, &[1]),
            Row(42, 3, 1, true, &[]),
            Row(53, 3, 1, false, &[]),
            Row(61, 3, 1, false, &[]),
        ],
        steps: &[(1, 2), (2, 3), (4, 5), (5, 6)],
        assignments: &[(1, 1), (2, 1), (5, 0)],
    },
    // assignments, increments and decrements within expressions: the variables are g, the literal, p, i and a
    Worked {
        text: b"int g; int main(void){char *p=\"ab\"; int i=0; int a[2]; a[i++]=g+=2; for(i=1; i<3 && p++; a[i]=0) --i; return i?i-=1:g++;}",
        places: &[
            Row(11, 1, 0, true, &[]),
            Row(28, 1, 0, false, &[]),
            Row(40, 1, 0, false, &[2]),
            Row(49, 1, 0, false, &[2, 3]),
            Row(55, 1, 0, false, &[2, 3, 4]),
            Row(72, 1, 0, false, &[2, 3, 4]),
            Row(77, 1, 0, false, &[2, 3, 4]),
            Row(89, 1, 0, false, &[2, 3, 4]),
            Row(97, 1, 0, false, &[2, 3, 4]),
            Row(102, 1, 0, false, &[2, 3, 4]),
        ],
        steps: &[
            (1, 2),
            (2, 3),
            (3, 4),
            (4, 5),
            (5, 6),
            (6, 7),
            (7, 9),
            (7, 10),
            (8, 7),
            (9, 8),
        ],
        assignments: &[
            (2, 2),
            (3, 3),
            (4, 4),
            (5, 0),
            (5, 3),
            (6, 3),
            (7, 2),
            (9, 3),
            (10, 0),
            (10, 3),
        ],
    },
];

/// Whether a place is the one of a row.
fn is_row(row: &PlaceRow, seen: &[u32], wanted: &Row) -> bool {
    row.position == wanted.0
        && row.line == wanted.1
        && row.function == wanted.2
        && row.is_entry == wanted.3
        && seen == wanted.4
}

/// Whether the places of a table are those of the rows.
fn are_rows(alloc: Global, table: &PlaceTable, wanted: &[Row]) -> Result<bool, AllocError> {
    let seen = visible(alloc, table)?;
    let mut rows = table.rows.iter().zip(&seen).zip(wanted);
    Ok(
        table.rows.len() == wanted.len()
            && rows.all(|((row, seen), wanted)| is_row(row, seen, wanted)),
    )
}

/// The tables of a program are those that it was worked with.
fn assert_worked(rt: &impl Abort, alloc: Global, worked: &Worked) -> Result<(), Fail> {
    let text = worked.text;
    let program = program_of(alloc, text)?;
    let is_small = fits(alloc, &program)?;
    assert!(rt; is_small);
    let places = place_table(alloc, &program)?;
    let flows = flow_table(alloc, &program)?;
    let (steps, assignments) = pairs(alloc, &flows)?;
    let are_worked = are_rows(alloc, &places, worked.places)?
        && steps.as_slice() == worked.steps
        && assignments.as_slice() == worked.assignments;
    assert!(rt; are_worked, "{text:?}");
    Ok(())
}

#[test]
fn tables_are_those_of_the_reference(rt: HostRuntime) -> Result<(), Fail> {
    for worked in &PROGRAMS {
        assert_worked(&rt, rt.alloc(), worked)?;
    }
    Ok(())
}

#[test]
fn assigns_agrees_with_the_table_for_each_place_and_variable(rt: HostRuntime) -> Result<(), Fail> {
    for worked in &PROGRAMS {
        let program = program_of(rt.alloc(), worked.text)?;
        // one more of each than any of the programs has
        for place in 0..12 {
            for variable in 0..6 {
                let listed = worked.assignments.contains(&(place, variable));
                assert!(rt; assigns(&program, Place(place), Var(variable)) == listed);
            }
        }
    }
    Ok(())
}
