//! Which words the scratch registers of a region hold: those that are fetched most often.

ghost use Rattle.std.specs.Prelude.{IfOk, IfSome, OnOk};
ghost use Rattle.rv_emit_plan.specs.Plans.{AreChosen, MayHold};

use crate::regions::{Calls, Regions};
use crate::table::{at, put};
use crate::{Flow, Loops, frequency};
use graph_core::{Block, End, Graph, Operand};
use graph_homes::Home;
use rv_emit_code::{code_of_block, words_of_constant};
use rv_emit_storage::Storage;
use rv_emit_words::{Held, register};
use std::alloc::{AllocError, Global};

/// The scratch registers that may hold words: a6 to a1, s0, and a7 where nothing of the machine is called.
const SCRATCH: [u8; 8] = [16, 15, 14, 13, 12, 11, register::S0, register::A7];

/// The scratch register of a number, if there is one.
fn scratch(number: u32) -> Option<u8>
    ensures { IfSome result (λ register. MayHold register) }
{
    match SCRATCH.get(number as usize) {
        Some(register) => Some(*register),
        None => None,
    }
}

/// How many words the end of a block has at most.
const MAX_END_WORDS: u32 = 9;

/// What a choice is made of.
#[derive(Clone, Copy)]
pub struct Ground<'a> {
    pub storage: &'a Storage<'a>,
    pub graph: &'a Graph,
    pub flow: &'a Flow,
    pub loops: &'a Loops,
    pub regions: &'a Regions,
    /// By block.
    pub calls: &'a [Calls],
}

/// How often a word is fetched in a region.
#[derive(Clone, Copy, PartialEq, Eq, PartialOrd, Ord)]
struct Fetch {
    region: u32,
    word: u32,
    /// How many instructions bring it into a register.
    words: u32,
    weight: u64,
}

/// A word of a region, by how little it gains to be held.
#[derive(Clone, Copy, PartialEq, Eq, PartialOrd, Ord)]
struct Candidate {
    region: u32,
    loss: u64,
    word: u32,
    words: u32,
}

/// Appends a word that is fetched, with the instructions that this takes.
fn push_fetch(
    fetches: &mut Vec<Fetch>,
    base: u32,
    region: u32,
    weight: u64,
    word: u32,
) -> Result<(), AllocError> {
    let words = words_of_constant(word, base);
    if words > 0 {
        fetches.push(Fetch {
            region,
            word,
            words,
            weight: weight.saturating_mul(u64::from(words)),
        })?;
    }
    Ok(())
}

/// Appends the words that a block fetches where nothing is held.
fn push_block(
    alloc: Global,
    storage: &Storage<'_>,
    block: &Block,
    region: u32,
    weight: u64,
    fetches: &mut Vec<Fetch>,
) -> Result<(), AllocError> {
    let code = code_of_block(alloc, storage, block, storage.end, &[], &[])?;
    for word in &code.fetched {
        push_fetch(fetches, storage.base, region, weight, *word)?;
    }
    Ok(())
}

/// The words that the blocks of regions fetch, by region and word.
fn fetches_of(alloc: Global, of: Ground<'_>) -> Result<Vec<Fetch>, AllocError> {
    let mut fetches = Vec::new(alloc);
    let mut number = 0u32;
    for block in &of.graph.blocks {
        let region = of.regions.region(number);
        if region != 0 {
            let weight = u64::from(frequency(at(&of.loops.depths, number)));
            push_block(alloc, of.storage, block, region, weight, &mut fetches)?;
        }
        number = number.saturating_add(1);
    }
    fetches.sort()?;
    Ok(fetches)
}

/// Appends what is known of a word whose fetches have this weight together.
fn push_candidate(candidates: &mut Vec<Candidate>, of: Fetch) -> Result<(), AllocError> {
    if of.weight > 0 {
        candidates.push(Candidate {
            region: of.region,
            loss: u64::MAX - of.weight,
            word: of.word,
            words: of.words,
        })?;
    }
    Ok(())
}

/// The words of regions, those that gain most first in each region.
fn candidates_of(alloc: Global, fetches: &[Fetch]) -> Result<Vec<Candidate>, AllocError> {
    let mut candidates = Vec::new(alloc);
    let mut sum = Fetch {
        region: 0,
        word: 0,
        words: 0,
        weight: 0,
    };
    for fetch in fetches {
        if fetch.region != sum.region || fetch.word != sum.word {
            push_candidate(&mut candidates, sum)?;
            sum = *fetch;
        } else {
            sum.weight = sum.weight.saturating_add(fetch.weight);
        }
    }
    push_candidate(&mut candidates, sum)?;
    candidates.sort()?;
    Ok(candidates)
}

/// How many words the fetch of an operand has.
fn fetch_words(storage: &Storage<'_>, operand: Operand) -> u32 {
    match operand {
        Operand::Name(name) => match storage.homes.get(name.0 as usize) {
            Some(Home::Register(_)) => 0,
            Some(Home::Slot(slot)) => {
                if slot.saturating_mul(4).saturating_add(storage.frame.slots) < 2048 {
                    1
                } else {
                    3
                }
            }
            None => 3,
        },
        Operand::Constant(0) => 0,
        Operand::Constant(word) => words_of_constant(word, storage.base),
        Operand::StaticAddress { .. } => 2,
    }
}

/// How many words may be loaded at the end of a block.
fn room_at(storage: &Storage<'_>, end: End) -> u32 {
    match end {
        End::Return(_) => 0,
        End::Jump(_) => MAX_END_WORDS - 1,
        End::Branch { left, right, .. } => {
            let fetches = fetch_words(storage, left).saturating_add(fetch_words(storage, right));
            MAX_END_WORDS.saturating_sub(3).saturating_sub(fetches)
        }
    }
}

/// A region that a way leads into from outside; 0 for none.
fn entered(regions: &Regions, from: u32, way: Option<u32>) -> u32 {
    match way {
        Some(to) => {
            let region = regions.region(to);
            if region == regions.region(from) {
                0
            } else {
                region
            }
        }
        None => 0,
    }
}

/// Lowers the room of a region to that of an end that leads into it.
fn lower(rooms: &mut [u32], region: u32, room: u32) {
    let lowered = at(rooms, region).min(room);
    put(rooms, region, lowered);
}

/// For each region how many words can be loaded at each end that leads into it.
fn rooms_of(alloc: Global, of: Ground<'_>) -> Result<Vec<u32>, AllocError> {
    let mut rooms = vec![in alloc; MAX_END_WORDS; (of.flow.blocks as usize).saturating_add(1)]?;
    let mut number = 0u32;
    for block in &of.graph.blocks {
        let ways = of.flow.ways(number);
        let room = room_at(of.storage, block.end);
        lower(&mut rooms, entered(of.regions, number, ways.first), room);
        lower(&mut rooms, entered(of.regions, number, ways.second), room);
        number = number.saturating_add(1);
    }
    Ok(rooms)
}

/// For each region how many registers may hold words.
fn register_counts(alloc: Global, of: Ground<'_>) -> Result<Vec<u32>, AllocError> {
    let mut counts = vec![in alloc; 8; (of.flow.blocks as usize).saturating_add(1)]?;
    let mut number = 0u32;
    for calls in of.calls {
        if calls.machine {
            put(&mut counts, of.regions.region(number), 7);
        }
        number = number.saturating_add(1);
    }
    Ok(counts)
}

/// What a region holds.
#[derive(Clone, Copy)]
pub struct Holding {
    pub region: u32,
    pub held: Held,
}

/// The choice as far as it has come.
#[derive(Drop)]
struct Choice {
    rooms: Vec<u32>,
    counts: Vec<u32>,
    chosen: Vec<Holding>,
    region: u32,
    taken: u32,
}

impl Choice {
    /// Gives a word the next register of its region, if there is one, and room to load it.
    fn choose(&mut self, candidate: Candidate) -> Result<(), AllocError>
        ensures { OnOk result (AreChosen self.old.chosen.items → AreChosen self.new.chosen.items) }
    {
        if candidate.region != self.region {
            self.region = candidate.region;
            self.taken = 0;
        }
        let room = at(&self.rooms, candidate.region);
        let words = candidate.words;
        if words > room || self.taken >= at(&self.counts, candidate.region) {
            return Ok(());
        }
        if let Some(register) = scratch(self.taken) {
            let held = Held {
                register,
                word: candidate.word,
            };
            self.chosen.push(Holding {
                region: candidate.region,
                held,
            })?;
            put(&mut self.rooms, candidate.region, room - words);
            self.taken = self.taken.saturating_add(1);
        }
        Ok(())
    }
}

/// What the regions of a graph hold, region by region.
pub fn holdings_of(alloc: Global, of: Ground<'_>) -> Result<Vec<Holding>, AllocError>
    ensures { IfOk result (λ holdings. AreChosen holdings.items) }
{
    let fetches = fetches_of(alloc, of)?;
    let mut choice = Choice {
        rooms: rooms_of(alloc, of)?,
        counts: register_counts(alloc, of)?,
        chosen: Vec::new(alloc),
        region: 0,
        taken: 0,
    };
    for candidate in &candidates_of(alloc, &fetches)? {
        choice.choose(*candidate)?;
    }
    Ok(choice.chosen)
}
