//! The program that is built, and the numbers of its places.

ghost use Rattle.std.specs.Prelude.{◌≡◌, IfOk};
ghost use Rattle.c_tree.specs.Programs.{program_view};
ghost use Rattle.c_places.specs.Places.{place_number_at, places_of_program};
ghost use Rattle.graph_build_statements.specs.Numbering.{AreNumbered};

use c_flow::number_in;
use c_tree::Program;
use std::alloc::AllocError;

/// The program that is built, with the positions of its places in order.
#[derive(Clone, Copy)]
pub struct Source<'a> {
    pub program: &'a Program,
    pub positions: &'a [u32],
    ghost numbered: { AreNumbered (program_view program.now) positions.now },
}

/// The number of the place at a position.
pub fn place_number(source: &Source<'_>, at: u32) -> u32
    ensures { result ≡ place_number_at (places_of_program (program_view source.now.program.now)) at }
{
    number_in(source.positions, at)
}

/// A number as one of 32 bits; want of memory where it is more, which no text makes.
pub fn narrow(number: u64) -> Result<u32, AllocError>
    ensures { IfOk result (λ n. n ≡ number) }
{
    match u32::try_from(number) {
        Ok(narrow) => Ok(narrow),
        Err(_) => Err(AllocError),
    }
}
