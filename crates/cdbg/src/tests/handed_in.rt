//! Sessions to which passes of the test's own are handed in.

ghost use Rattle.std.specs.Prelude.{◌≡◌};
ghost use Rattle.pass_law.specs.Relations.{kept_steps};

use super::sessions::{image_of, shelf};
use super::split;
use cdbg_passes::CopyPropagation;
use debug_records::PassName;
use graph_core::Unit;
use line_form::Status;
use outside::{MemShelf, MemSink};
use pass_law::{Pass, name_of};
use session::session;
use std::alloc::{AllocError, Global};
use std::process::Abort;
use std::test::Fail;

/// A pass that gives its unit back as a copy, by a name that it is given.
#[derive(Drop)]
struct Same {
    name: PassName,
}

impl Pass for Same {
    ghost named = { λ pass. pass.name };

    ghost steps = { λ pass. kept_steps (λ u v. v ≡ u) };

    fn name(&self) -> PassName {
        self.name
    }

    fn apply(&self, alloc: Global, unit: &Unit) -> Result<Unit, AllocError> {
        unit.duplicate(alloc)
    }
}

const COPIED: &[u8] =
    b"#include <stdio.h>\nint main(void){\nint y=getchar();\nint x=0;\nx=y;\nputchar(x+1);\nreturn x;\n}\n";

/// A session to which copy propagation is handed in, and before it a pass of this name that changes nothing. What its
/// contract says is
/// left out here.
fn run_with(
    alloc: Global,
    own: PassName,
    words: &[String],
    shelf: &mut MemShelf,
) -> Result<Status, AllocError> {
    let mut passes: Vec<Box<dyn Pass>> = Vec::new(alloc);
    passes.push(Box::new(alloc, Same { name: own })?)?;
    passes.push(Box::new(alloc, CopyPropagation::new())?)?;
    let mut sink = MemSink::new(alloc, [].as_slice())?;
    Ok(session(alloc, words, &passes, shelf, &mut sink))
}

/// The image of the source behind the passes of these words.
fn image_behind(
    rt: &impl Abort,
    alloc: Global,
    own: PassName,
    words: &str,
) -> Result<Vec<u8>, AllocError> {
    let mut shelf = shelf(alloc, COPIED, b"".as_slice(), b"".as_slice())?;
    let words = split(alloc, words)?;
    let status = run_with(alloc, own, &words, &mut shelf)?;
    assert!(rt; status == Status::Done);
    image_of(alloc, &shelf)
}

const COPY: &str = "cdbg compile --passes copy program.c image";

const SAME_AND_COPY: &str = "cdbg compile --passes same,copy program.c image";

const NONE: &str = "cdbg compile --passes none program.c image";

#[test]
fn a_pass_that_changes_nothing_may_stand_before_another(rt: HostRuntime) -> Result<(), Fail> {
    let alloc = rt.alloc();
    let both = image_behind(&rt, alloc, name_of(b"same"), SAME_AND_COPY)?;
    let one = image_behind(&rt, alloc, name_of(b"same"), COPY)?;
    assert!(rt; !both.is_empty() && both.as_slice() == one.as_slice());
    Ok(())
}

#[test]
fn of_two_passes_of_a_name_the_first_is_taken(rt: HostRuntime) -> Result<(), Fail> {
    let alloc = rt.alloc();
    let none = image_behind(&rt, alloc, name_of(b"same"), NONE)?;
    let first = image_behind(&rt, alloc, name_of(b"copy"), COPY)?;
    let copied = image_behind(&rt, alloc, name_of(b"same"), COPY)?;
    assert!(rt; !none.is_empty() && first.as_slice() == none.as_slice());
    assert!(rt;
        copied.as_slice() != none.as_slice(),
        "copy propagation changes the image"
    );
    Ok(())
}
