//! Blocks that follow one another with no other way in or out.

ghost use Rattle.std.specs.Prelude.{◌≡◌, ◌<◌, ◌≤◌, ◌↔◌, ℕ, IfOk, IfSome, None, OnOk, Some, length, slice_get, slice_set, true};
ghost use Rattle.graph_core.specs.declared.block.Block as declared-block;
ghost use Rattle.graph_core.specs.Graphs.{Jump, end_view};
ghost use Rattle.graph_core.specs.Paths.{Among};
ghost use Rattle.graph_core.specs.Uses.{targets_of};
ghost use Rattle.currency_shown.specs.Chains.{AreBegun, AreChains, AreEdgesNext, AreKept, AreLinks, IsChain, IsFollowed, IsNext, IsStruck, StartsIf, block_before, name_at, position_at};

use graph_core::{Block, End};
use graph_paths::{put_entry, reached_in_order};
use std::alloc::{AllocError, Global};

/// Which block stands directly before another one in a chain.
#[derive(Drop)]
pub struct Links {
    /// By block; none where a chain begins with it.
    before: Vec<Option<u32>>,
    /// By block; a block stands behind the one directly before it.
    positions: Vec<u32>,
}

impl Links {
    /// The block that stands directly before another one, if one does.
    fn before_of(&self, block: u32) -> Option<u32>
        ensures { result ≡ block_before self.now block }
    {
        match self.before.get(block as usize) {
            Some(found) => *found,
            None => None,
        }
    }

    /// Whether a block stands directly before another one.
    fn is_before(&self, block: u32, next: u32) -> bool
        ensures { (result ≡ true) ↔ (block_before self.now next ≡ Some block) }
    {
        match self.before_of(next) {
            Some(found) => found == block,
            None => false,
        }
    }
}

/// At which position of an order each of so many blocks stands, from 1; 0 where it stands at none.
fn positions_in(alloc: Global, order: &[u32], count: usize) -> Result<Vec<u32>, AllocError> {
    let mut positions = vec![in alloc; 0u32; count]?;
    let mut position = 0u32;
    for number in order {
        position = position.saturating_add(1);
        put_entry(&mut positions, *number, position);
    }
    Ok(positions)
}

/// The block to which an end leads alone.
fn jump_of(end: &End) -> Option<u32>
    ensures some { IfSome result (λ next. end_view end.now ≡ Jump next) }
    ensures none { result ≡ None → (next : ℕ) → end_view end.now ≡ Jump next → ⊥ }
{
    match end {
        End::Jump(label) => Some(label.0),
        End::Branch { .. } | End::Return(_) => None,
    }
}

/// What is told of a block; nothing where there is none of this number.
fn name_of(names: &Vec<Option<u32>>, number: u32) -> Option<u32>
    ensures { result ≡ name_at names.now.items number }
{
    match names.get(number as usize) {
        Some(name) => *name,
        None => None,
    }
}

/// This is told of a block, if there is one of this number.
fn put_name(names: &mut Vec<Option<u32>>, number: u32, name: Option<u32>)
    ensures { names.new.items ≡ slice_set names.old.items number name }
{
    if (number as usize) < names.len() {
        names[number as usize] = name;
    }
}

/// The position of a block; 0 where there is none of this number.
fn position_of(positions: &[u32], number: usize) -> u32
    ensures { result ≡ position_at positions.now number }
{
    if number < positions.len() {
        positions[number]
    } else {
        0
    }
}

/// Each block to which another one of an order leads alone stands behind the last such one, as far as that is known.
fn guessed(alloc: Global, blocks: &[Block], order: &[u32]) -> Result<Vec<Option<u32>>, AllocError>
    ensures { IfOk result (λ before. length before.items ≡ length blocks.now) }
{
    let mut before = vec![in alloc; None; blocks.len()]?;
    for number in order {
        guess(&mut before, blocks, *number);
    }
    Ok(before)
}

/// A block to which this one leads alone stands behind it.
fn guess(before: &mut Vec<Option<u32>>, blocks: &[Block], number: u32)
    ensures { length before.new.items ≡ length before.old.items }
{
    if number as usize >= blocks.len() {
        return;
    }
    if let Some(next) = jump_of(&blocks[number as usize].end) {
        put_name(before, next, Some(number));
    }
}

/// Whether a block has a later position than another one.
fn is_later(positions: &[u32], number: usize, to: u32) -> bool
    ensures later { result ≡ true → position_at positions.now number < position_at positions.now to }
    ensures within { result ≡ true → position_at positions.now to ≤ length positions.now }
{
    let position = position_of(positions, to as usize);
    if position as usize > positions.len() {
        return false;
    }
    position_of(positions, number) < position
}

/// Whether the block that is taken to stand before another one is this one, which has this end, leads to the other one
/// alone, and has an earlier position.
fn is_next(positions: &[u32], found: u32, number: usize, end: &End, to: u32) -> bool
    ensures { result ≡ true → (found ≡ number) × IsNext positions.now number (end_view end.now) to }
{
    if found as usize != number {
        return false;
    }
    let Some(next) = jump_of(end) else {
        return false;
    };
    if next != to {
        return false;
    }
    is_later(positions, number, to)
}

/// A block to which this one leads does not stand directly behind another one, and behind this one only if it leads to
/// that alone.
fn strike_edge(before: &mut Vec<Option<u32>>, positions: &[u32], number: usize, end: &End, to: u32)
    ensures struck { IsStruck before.old.items before.new.items }
    ensures edge { (m : ℕ) → name_at before.new.items to ≡ Some m
        → (m ≡ number) × IsNext positions.now number (end_view end.now) to }
{
    match name_of(before, to) {
        Some(found) => if !is_next(positions, found, number, end, to) {
            put_name(before, to, None);
        },
        None => {}
    }
}

/// The same of each block to which this one leads.
fn strike_edges(before: &mut Vec<Option<u32>>, positions: &[u32], number: usize, end: &End)
    ensures struck { IsStruck before.old.items before.new.items }
    ensures edges { AreEdgesNext before.new.items positions.now number (end_view end.now) }
{
    let targets = end.targets();
    for target in targets.as_slice() {
        strike_edge(before, positions, number, end, target.0);
    }
}

/// Which block stands directly before another one, where each leads to the next alone, and nothing else leads to that.
fn links_of(alloc: Global, blocks: &[Block], order: &[u32]) -> Result<Links, AllocError>
    ensures { IfOk result (λ links. AreLinks blocks.now links) }
{
    let positions = positions_in(alloc, order, blocks.len())?;
    let mut before = guessed(alloc, blocks, order)?;
    put_name(&mut before, 0, None);
    for number in 0..blocks.len() {
        strike_edges(&mut before, &positions, number, &blocks[number].end);
    }
    Ok(Links { before, positions })
}

/// The block that stands directly behind one, if there is one.
fn follower(blocks: &[Block], links: &Links, number: u32) -> Option<u32>
    requires { AreLinks blocks.now links.now }
    ensures some { IfSome result (λ next. IsFollowed blocks.now links.now number next) }
    ensures none { result ≡ None → (b : declared-block.Block) → slice_get blocks.now number ≡ Some b
        → (l : ℕ) → Among l (targets_of (end_view b.end)) → block_before links.now l ≡ None }
{
    if number as usize >= blocks.len() {
        return None;
    }
    match jump_of(&blocks[number as usize].end) {
        Some(next) => if links.is_before(number, next) {
            Some(next)
        } else {
            None
        },
        None => None,
    }
}

/// A block with which a chain begins, and those that stand behind it, one after the other.
fn chain_from(
    alloc: Global,
    blocks: &[Block],
    links: &Links,
    first: u32,
) -> Result<Vec<u32>, AllocError>
    requires links { AreLinks blocks.now links.now }
    requires within { first < length blocks.now }
    requires start { block_before links.now first ≡ None }
    ensures { IfOk result (λ chain. IsChain blocks.now links.now first chain.items) }
{
    let mut chain = Vec::new(alloc);
    chain.push(first)?;
    let mut last = first;
    while let Some(next) = follower(blocks, links, last) {
        chain.push(next)?;
        last = next;
    }
    Ok(chain)
}

/// Chains, as far as they were begun.
#[derive(Drop)]
pub struct Chains {
    /// Whether a chain was begun with a block, by its number.
    begun: Vec<bool>,
    chains: Vec<Vec<u32>>,
}

impl Chains {
    /// Appends the chain that begins with a block, if one does, and it was not begun yet.
    fn add(
        &mut self,
        alloc: Global,
        blocks: &[Block],
        links: &Links,
        first: u32,
    ) -> Result<(), AllocError>
        requires links { AreLinks blocks.now links.now }
        requires begun { AreBegun blocks.now links.now self.old }
        ensures begun { OnOk result (AreBegun blocks.now links.now self.new) }
        ensures kept { OnOk result (AreKept self.old self.new) }
        ensures starts { OnOk result (StartsIf blocks.now links.now self.new first) }
    {
        if first as usize >= blocks.len() {
            return Ok(());
        }
        match links.before_of(first) {
            Some(_) => return Ok(()),
            None => {}
        }
        if self.begun[first as usize] {
            return Ok(());
        }
        let chain = chain_from(alloc, blocks, links, first)?;
        self.begun[first as usize] = true;
        self.chains.push(chain)?;
        Ok(())
    }

    /// Appends the chains that begin with these blocks, in order.
    fn add_each(
        &mut self,
        alloc: Global,
        blocks: &[Block],
        links: &Links,
        numbers: &[u32],
    ) -> Result<(), AllocError>
        requires links { AreLinks blocks.now links.now }
        requires begun { AreBegun blocks.now links.now self.old }
        ensures begun { OnOk result (AreBegun blocks.now links.now self.new) }
        ensures kept { OnOk result (AreKept self.old self.new) }
    {
        for number in numbers {
            self.add(alloc, blocks, links, *number)?;
        }
        Ok(())
    }

    /// Appends the chains that begin with the blocks to which an end leads.
    fn add_targets(
        &mut self,
        alloc: Global,
        blocks: &[Block],
        links: &Links,
        end: &End,
    ) -> Result<(), AllocError>
        requires links { AreLinks blocks.now links.now }
        requires begun { AreBegun blocks.now links.now self.old }
        ensures begun { OnOk result (AreBegun blocks.now links.now self.new) }
        ensures kept { OnOk result (AreKept self.old self.new) }
        ensures starts { OnOk result ((l : ℕ) → Among l (targets_of (end_view end.now))
            → StartsIf blocks.now links.now self.new l) }
    {
        let targets = end.targets();
        for target in targets.as_slice() {
            self.add(alloc, blocks, links, target.0)?;
        }
        Ok(())
    }

    /// Appends the chains that begin with blocks to which another one leads.
    fn add_all(&mut self, alloc: Global, blocks: &[Block], links: &Links) -> Result<(), AllocError>
        requires links { AreLinks blocks.now links.now }
        requires begun { AreBegun blocks.now links.now self.old }
        ensures begun { OnOk result (AreBegun blocks.now links.now self.new) }
        ensures kept { OnOk result (AreKept self.old self.new) }
        ensures starts { OnOk result ((n : ℕ) (b : declared-block.Block) → slice_get blocks.now n ≡ Some b
            → (l : ℕ) → Among l (targets_of (end_view b.end)) → StartsIf blocks.now links.now self.new l) }
    {
        for block in blocks {
            self.add_targets(alloc, blocks, links, &block.end)?;
        }
        Ok(())
    }
}

/// The blocks of a function in chains: those of a chain are come to by way of its first one alone, and only the last
/// may lead elsewhere, where other chains begin. As far as some path from the first block reaches them, each chain
/// stands before those to which it leads but where a way leads back.
pub fn chains_of(alloc: Global, blocks: &[Block]) -> Result<Vec<Vec<u32>>, AllocError>
    ensures { IfOk result (λ chains. AreChains blocks.now chains.items) }
{
    let reached = reached_in_order(alloc, blocks)?;
    let links = links_of(alloc, blocks, &reached)?;
    let mut chains = Chains {
        begun: vec![in alloc; false; blocks.len()]?,
        chains: Vec::new(alloc),
    };
    chains.add(alloc, blocks, &links, 0)?;
    chains.add_each(alloc, blocks, &links, &reached)?;
    chains.add_all(alloc, blocks, &links)?;
    Ok(chains.chains)
}
