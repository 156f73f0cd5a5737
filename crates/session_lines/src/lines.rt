//! The lines of a summary: how many stops a run came to, and what could be told there of the variables.

ghost use Rattle.std.specs.Prelude.{◌≡◌, IfOk};
ghost use Rattle.session_lines.specs.Lines.{out_count_line, pairs_line, seed_line, stops_line};

use std::alloc::{AllocError, Global};

/// Of how many pairs of a stop and a variable that is visible there what is told.
#[derive(Clone, Copy)]
pub struct PairCounts {
    /// All pairs.
    pub pairs: u64,
    /// The variable's home, or its memory, has its value.
    pub home: u64,
    /// Its value is computed anew.
    pub recovered: u64,
    /// Its home does not have its value.
    pub noncurrent: u64,
    /// Its home is another one's.
    pub nonresident: u64,
}

/// `seed SEED size SIZE`: the program is the one that is generated from these. `AllocError` where memory for the text
/// was refused, as for each of these lines.
#[tactic(auto, unfolding(crate::specs::Lines::seed_line))]
pub fn seed_line(alloc: Global, seed: u32, size: u32) -> Result<Vec<u8>, AllocError>
    ensures { IfOk result (λ text. text.items ≡ seed_line seed size) }
{
    Ok(format!(in alloc; "seed {seed} size {size}")?.into_bytes())
}

/// `stops COUNT`: the run came to so many stops.
#[tactic(auto, unfolding(crate::specs::Lines::stops_line))]
pub fn stops_line(alloc: Global, count: u64) -> Result<Vec<u8>, AllocError>
    ensures { IfOk result (λ text. text.items ≡ stops_line count) }
{
    Ok(format!(in alloc; "stops {count}")?.into_bytes())
}

/// `pairs COUNT home COUNT recovered COUNT noncurrent COUNT nonresident COUNT`: of how many pairs what was told.
#[tactic(auto, unfolding(crate::specs::Lines::pairs_line))]
pub fn pairs_line(alloc: Global, counts: PairCounts) -> Result<Vec<u8>, AllocError>
    ensures { IfOk result (λ text.
        text.items ≡ pairs_line counts.pairs counts.home counts.recovered counts.noncurrent counts.nonresident) }
{
    let PairCounts {
        pairs,
        home,
        recovered,
        noncurrent,
        nonresident,
    } = counts;
    Ok(format!(in alloc;
        "pairs {pairs} home {home} recovered {recovered} noncurrent {noncurrent} nonresident {nonresident}"
    )?.into_bytes())
}

/// `out COUNT`: the program has put out so many bytes.
#[tactic(auto, unfolding(crate::specs::Lines::out_count_line))]
pub fn out_count_line(alloc: Global, count: u64) -> Result<Vec<u8>, AllocError>
    ensures { IfOk result (λ text. text.items ≡ out_count_line count) }
{
    Ok(format!(in alloc; "out {count}")?.into_bytes())
}
