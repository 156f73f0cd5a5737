//! Where the commands halt that go by the depth of a stop.

ghost use Rattle.std.specs.Prelude.{◌≡◌, option_map};
ghost use Rattle.stop_engine.specs.Marking.{aim_of};
ghost use Rattle.stop_engine.specs.Transcript.{below, finish_aim, next_aim};

use crate::run::Run;
use crate::stops::{Marks, Stops};

/// Where `next` halts: where a place is marked, or no deeper than the stop at which the run stands. From no stop it is
/// a `step`.
#[tactic(auto, using(crate::proofs::ByDepth::next_within, crate::proofs::ByDepth::next_any))]
pub fn next_stops<'m>(run: &Run<'_>, marks: &'m Marks) -> Stops<'m>
    ensures { aim_of result ≡ next_aim marks.now.places run.now.position }
{
    match run.depth() {
        Some(depth) => Stops::Within(depth, marks),
        None => Stops::Any,
    }
}

/// Where `finish` halts: where a place is marked, or less deep than the stop at which the run stands. Where the run has
/// come to no halt yet, it goes nowhere.
#[tactic(auto, using(crate::proofs::ByDepth::finish_fresh, crate::proofs::ByDepth::finish_below, crate::proofs::ByDepth::finish_over))]
pub fn finish_stops<'m>(run: &Run<'_>, marks: &'m Marks) -> Option<Stops<'m>>
    ensures { option_map aim_of result ≡ finish_aim marks.now.places run.now.position }
{
    if run.is_fresh() {
        return None;
    }
    match run.depth() {
        Some(depth) => Some(stops_below(depth, marks)),
        None => Some(Stops::At(marks)),
    }
}

/// Where a place is marked, or less deep than this.
fn stops_below<'m>(depth: u32, marks: &'m Marks) -> Stops<'m>
    ensures { aim_of result ≡ below depth marks.now.places }
{
    if depth == 0 {
        Stops::At(marks)
    } else {
        Stops::Within(depth - 1, marks)
    }
}
