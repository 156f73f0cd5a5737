//! A flood: facts that flow from block to block, a row of them at once, until all are where some way brings them.

ghost use Rattle.std.specs.Prelude.{◌≡◌, ℕ, ◌^◌, ◌<◌, IfOk, OnOk, false, length, map, true};
ghost use Rattle.graph_core.specs.Graphs.{block_view, end_view};
ghost use Rattle.graph_core.specs.Paths.{Among};
ghost use Rattle.graph_core.specs.Uses.{targets_of};
ghost use Rattle.graph_paths.specs.Flood.{AreFurther, AreSameBut, AreSameFrom, AreSettled, AreTables, Flows, HasEdge, IsClosedAlong, IsClosedAt, IsStep, block_at};
ghost use Rattle.graph_paths.specs.PathMarksTable.{bits_of};

use crate::marks::Marks;
use graph_core::{Block, End};
use std::alloc::AllocError;

/// What the blocks of a graph do to facts.
pub trait Transfer {
    ghost use Rattle.graph_paths.specs.Flood.{Course};

    /// How the facts flow.
    ghost course: { Self → Course };

    /// Whether facts flow as execution goes, or against it.
    fn forward(&self) -> bool
        ensures { result ≡ (course self.now).forward };

    /// Whether facts flow along the edges of a block.
    fn is_open(&self, block: u32) -> bool
        ensures { result ≡ (course self.now).is_open block };

    /// Makes of a row of facts that come to a block the row of those that leave it.
    fn pass(&self, block: u32, rows: &mut Marks, row: u32) -> Result<(), AllocError>
        requires block { block < length (course self.now).blocks }
        requires row { row < rows.old.count }
        requires width { rows.old.width ≡ (course self.now).width }
        ensures passed { OnOk result ((fact : ℕ) → fact < (course self.now).width
            → bits_of rows.new row fact ≡ (course self.now).does block fact (bits_of rows.old row fact)) }
        ensures others { OnOk result (AreSameBut row (bits_of rows.old) (bits_of rows.new)) }
        ensures same_count { OnOk result (rows.new.count ≡ rows.old.count) }
        ensures same_width { OnOk result (rows.new.width ≡ rows.old.width) };
}

/// Makes what leaves a block of what comes to it.
fn make<T: Transfer>(
    transfer: &T,
    comes: &Marks,
    leaves: &mut Marks,
    number: u32,
) -> Result<(), AllocError>
    requires tables { AreTables (T.course transfer.now) comes.now leaves.old }
    requires block { number < length (T.course transfer.now).blocks }
    ensures made { OnOk result ((fact : ℕ) → fact < (T.course transfer.now).width
        → bits_of leaves.new number fact ≡ (T.course transfer.now).does number fact (bits_of comes.now number fact)) }
    ensures others { OnOk result (AreSameBut number (bits_of leaves.old) (bits_of leaves.new)) }
    ensures same_count { OnOk result (leaves.new.count ≡ leaves.old.count) }
    ensures same_width { OnOk result (leaves.new.width ≡ leaves.old.width) }
{
    leaves.copy_from(number, comes, number);
    transfer.pass(number, leaves, number)
}

/// Makes what leaves each of so many blocks of what comes to it.
fn make_all<T: Transfer>(
    transfer: &T,
    count: u32,
    comes: &Marks,
    leaves: &mut Marks,
) -> Result<(), AllocError>
    requires tables { AreTables (T.course transfer.now) comes.now leaves.old }
    requires blocks { count ≡ length (T.course transfer.now).blocks }
    ensures made { OnOk result ((n fact : ℕ) → n < count → fact < (T.course transfer.now).width
        → bits_of leaves.new n fact ≡ (T.course transfer.now).does n fact (bits_of comes.now n fact)) }
    ensures spare { OnOk result (AreSameFrom count (bits_of leaves.old) (bits_of leaves.new)) }
    ensures tables { OnOk result (AreTables (T.course transfer.now) comes.now leaves.new) }
    ensures same_count { OnOk result (leaves.new.count ≡ leaves.old.count) }
    ensures same_width { OnOk result (leaves.new.width ≡ leaves.old.width) }
{
    for number in 0..count {
        make(transfer, comes, leaves, number)?;
    }
    Ok(())
}

/// What leaves a block comes to another one, to which it flows. Tells whether anything is new there.
fn carry<T: Transfer>(
    transfer: &T,
    comes: &mut Marks,
    leaves: &mut Marks,
    from: u32,
    to: u32,
) -> Result<bool, AllocError>
    requires tables { AreTables (T.course transfer.now) comes.old leaves.old }
    requires from { from < length (T.course transfer.now).blocks }
    requires to { to < length (T.course transfer.now).blocks }
    requires flows { Flows (T.course transfer.now) from to }
    ensures step { IfOk result (IsStep (T.course transfer.now) comes.old leaves.old comes.new leaves.new) }
    ensures come { IfOk result (λ is_new. is_new ≡ false
        → (fact : ℕ) → bits_of leaves.new from fact ≡ true → bits_of comes.new to fact ≡ true) }
{
    let is_new = comes.add_from(to, leaves, from);
    if is_new {
        make(transfer, comes, leaves, to)?;
    }
    Ok(is_new)
}

/// What flows along an edge of a block comes to its other end. Tells whether anything is new there.
fn flow_along<T: Transfer>(
    transfer: &T,
    comes: &mut Marks,
    leaves: &mut Marks,
    count: u32,
    number: u32,
    to: u32,
) -> Result<bool, AllocError>
    requires tables { AreTables (T.course transfer.now) comes.old leaves.old }
    requires blocks { count ≡ length (T.course transfer.now).blocks }
    requires block { number < count }
    requires edge { HasEdge (T.course transfer.now).blocks (T.course transfer.now).is_open number to }
    ensures step { IfOk result (IsStep (T.course transfer.now) comes.old leaves.old comes.new leaves.new) }
    ensures closed { IfOk result (λ is_new. is_new ≡ false
        → IsClosedAlong (T.course transfer.now) number to (bits_of comes.new) (bits_of leaves.new)) }
{
    if to >= count {
        return Ok(false);
    }
    if transfer.forward() {
        let is_new = carry(transfer, comes, leaves, number, to)?;
        Ok(is_new)
    } else {
        let is_new = carry(transfer, comes, leaves, to, number)?;
        Ok(is_new)
    }
}

/// Facts flow along the edges of a block with this end. Tells whether any is new.
fn lead<T: Transfer>(
    transfer: &T,
    comes: &mut Marks,
    leaves: &mut Marks,
    count: u32,
    number: u32,
    end: &End,
) -> Result<bool, AllocError>
    requires tables { AreTables (T.course transfer.now) comes.old leaves.old }
    requires blocks { count ≡ length (T.course transfer.now).blocks }
    requires block { number < count }
    requires edges { (l : ℕ) → Among l (targets_of (end_view end.now))
        → HasEdge (T.course transfer.now).blocks (T.course transfer.now).is_open number l }
    ensures step { IfOk result (IsStep (T.course transfer.now) comes.old leaves.old comes.new leaves.new) }
    ensures closed { IfOk result (λ is_new. is_new ≡ false → (l : ℕ) → Among l (targets_of (end_view end.now))
        → IsClosedAlong (T.course transfer.now) number l (bits_of comes.new) (bits_of leaves.new)) }
{
    match end {
        End::Return(_) => Ok(false),
        End::Jump(to) => {
            let is_new = flow_along(transfer, comes, leaves, count, number, to.0)?;
            Ok(is_new)
        }
        End::Branch {
            then,
            otherwise,
            ..
        } => {
            let first = flow_along(transfer, comes, leaves, count, number, then.0)?;
            let second = flow_along(transfer, comes, leaves, count, number, otherwise.0)?;
            Ok(first || second)
        }
    }
}

/// Facts flow along the edges of a block, if it is open. Tells whether any is new.
fn visit<T: Transfer>(
    transfer: &T,
    blocks: &[Block],
    comes: &mut Marks,
    leaves: &mut Marks,
    number: u32,
) -> Result<bool, AllocError>
    requires tables { AreTables (T.course transfer.now) comes.old leaves.old }
    requires blocks { (T.course transfer.now).blocks ≡ map block_view blocks.now }
    requires few { length blocks.now < 2 ^ 32 }
    ensures step { IfOk result (IsStep (T.course transfer.now) comes.old leaves.old comes.new leaves.new) }
    ensures closed { IfOk result (λ is_new. is_new ≡ false
        → IsClosedAt (T.course transfer.now) number (bits_of comes.new) (bits_of leaves.new)) }
{
    let count = blocks.len() as u32;
    if number >= count || !transfer.is_open(number) {
        return Ok(false);
    }
    let block = &blocks[number as usize];
    let is_new = lead(transfer, comes, leaves, count, number, &block.end)?;
    Ok(is_new)
}

/// Visits blocks in an order. Tells whether any fact is new.
fn round<T: Transfer>(
    transfer: &T,
    blocks: &[Block],
    comes: &mut Marks,
    leaves: &mut Marks,
    order: &[u32],
) -> Result<bool, AllocError>
    requires tables { AreTables (T.course transfer.now) comes.old leaves.old }
    requires blocks { (T.course transfer.now).blocks ≡ map block_view blocks.now }
    requires few { length blocks.now < 2 ^ 32 }
    ensures step { IfOk result (IsStep (T.course transfer.now) comes.old leaves.old comes.new leaves.new) }
{
    let mut is_new = false;
    for number in order {
        let is_newer = visit(transfer, blocks, comes, leaves, *number)?;
        is_new |= is_newer;
    }
    Ok(is_new)
}

/// The block of a turn, where each gets one: as execution goes the first one first, and against it the last one.
fn at_turn(forward: bool, count: u32, turn: u32) -> u32
    requires { turn < count }
    ensures { result ≡ block_at forward count turn }
{
    if forward { turn } else { count - 1 - turn }
}

/// Visits each block once. Tells whether any fact is new.
fn whole_round<T: Transfer>(
    transfer: &T,
    blocks: &[Block],
    comes: &mut Marks,
    leaves: &mut Marks,
) -> Result<bool, AllocError>
    requires tables { AreTables (T.course transfer.now) comes.old leaves.old }
    requires blocks { (T.course transfer.now).blocks ≡ map block_view blocks.now }
    requires few { length blocks.now < 2 ^ 32 }
    ensures step { IfOk result (IsStep (T.course transfer.now) comes.old leaves.old comes.new leaves.new) }
    ensures closed { IfOk result (λ is_new. is_new ≡ false → (n : ℕ) → n < length blocks.now
        → IsClosedAt (T.course transfer.now) n (bits_of comes.new) (bits_of leaves.new)) }
{
    let count = blocks.len() as u32;
    let forward = transfer.forward();
    let mut is_new = false;
    for turn in 0..count {
        let number = at_turn(forward, count, turn);
        let is_newer = visit(transfer, blocks, comes, leaves, number)?;
        is_new |= is_newer;
    }
    Ok(is_new)
}

/// Visits blocks in an order, round by round, until a round brings nothing.
fn rounds<T: Transfer>(
    transfer: &T,
    blocks: &[Block],
    comes: &mut Marks,
    leaves: &mut Marks,
    order: &[u32],
) -> Result<(), AllocError>
    requires tables { AreTables (T.course transfer.now) comes.old leaves.old }
    requires blocks { (T.course transfer.now).blocks ≡ map block_view blocks.now }
    requires few { length blocks.now < 2 ^ 32 }
    ensures { OnOk result (AreFurther (T.course transfer.now) comes.old leaves.old comes.new leaves.new) }
{
    let mut is_new = true;
    while is_new {
        is_new = round(transfer, blocks, comes, leaves, order)?;
    }
    Ok(())
}

/// To each block the facts that some way brings to it, where those begin that the rows of blocks tell at first, and
/// what leaves it. It ends, since there are but so many facts;
/// the order in which blocks are visited decides how soon, and nothing else.
pub fn settle<T: Transfer>(
    transfer: &T,
    blocks: &[Block],
    order: &[u32],
    comes: &mut Marks,
    leaves: &mut Marks,
) -> Result<(), AllocError>
    requires tables { AreTables (T.course transfer.now) comes.old leaves.old }
    requires blocks { (T.course transfer.now).blocks ≡ map block_view blocks.now }
    requires few { length blocks.now < 2 ^ 32 }
    ensures settled { OnOk result
        (AreSettled (T.course transfer.now) (bits_of comes.old) (bits_of comes.new) (bits_of leaves.new)) }
    ensures tables { OnOk result (AreTables (T.course transfer.now) comes.new leaves.new) }
    ensures spare_comes { OnOk result (AreSameFrom (length blocks.now) (bits_of comes.old) (bits_of comes.new)) }
    ensures spare_leaves { OnOk result (AreSameFrom (length blocks.now) (bits_of leaves.old) (bits_of leaves.new)) }
    ensures comes_count { OnOk result (comes.new.count ≡ comes.old.count) }
    ensures leaves_count { OnOk result (leaves.new.count ≡ leaves.old.count) }
{
    make_all(transfer, blocks.len() as u32, comes, leaves)?;
    round(transfer, blocks, comes, leaves, order)?;
    let mut is_new = whole_round(transfer, blocks, comes, leaves)?;
    while is_new {
        rounds(transfer, blocks, comes, leaves, order)?;
        is_new = whole_round(transfer, blocks, comes, leaves)?;
    }
    Ok(())
}
