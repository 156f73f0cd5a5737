//! Where pieces stand, and the words that they become.

ghost use Rattle.std.specs.Prelude.{◌≡◌, ◌≤◌, ◌++◌, ◌∷◌, [], IfOk, OnOk, get_or, length, slice_index};
ghost use Rattle.rv_code.specs.declared.instruction.Instruction.TheVariants as instruction;
ghost use Rattle.rv_emit_code.specs.Ends.{opposite};
ghost use Rattle.rv_emit_sequence.specs.Sequences.{sequence_view};
ghost use Rattle.rv_emit_layout.specs.declared.reaching.Reach.TheVariants.{Near};
ghost use Rattle.rv_emit_layout.specs.Longest.{longest};
ghost use Rattle.rv_emit_layout.specs.Layouts.{branch_code, distance, function_words, jump_code, label_at, layout_of, layout_view, longest_layout, longest_view, lying, most_pieces, offsets_from, owned_words, piece_code, reach_of, reaches_from, IsLayoutOf};

use crate::measuring::longest_offsets;
use crate::reaching::{Reach, farthest, is_near, jump_reach, words_of, words_of_branch};
use crate::spelling::word_of;
use graph_core::Label;
use memory_map::Room;
use rv_code::{BranchOperation, Instruction};
use rv_emit_code::opposite;
use rv_emit_sequence::Sequence;
use rv_emit_sequence::table::{at, count};
use rv_emit_words::{Piece, PlacedPiece, high_part, low_part, register};
use std::alloc::{AllocError, Global};

/// A word of code, and the place that it belongs to, or 0.
#[derive(Clone, Copy)]
pub struct OwnedWord {
    pub word: u32,
    pub owner: u32,
}

/// Where the pieces of a function stand.
#[derive(Drop)]
pub struct Layout {
    /// For each piece how many words stand before it, and before the end.
    pub offsets: Vec<u32>,
    /// How many words all pieces have.
    pub words: u32,
    /// How each piece comes to where it leads.
    reaches: Vec<Reach>,
}

/// Where the code of a unit stands in the longest layout, as seen from one of its functions.
#[derive(Clone, Copy)]
pub struct Longest<'a> {
    pub room: Room,
    /// How many words stand before the function.
    pub first: u32,
    /// How many words stand before each function, and in all.
    pub firsts: &'a [u32],
    /// For each piece of the function how many of its words stand before it, and before the end.
    pub offsets: &'a [u32],
}

/// The word of a distance between two words of code.
fn distance(from: u32, to: u32) -> u32
    ensures { result ≡ distance from to }
{
    to.wrapping_sub(from).wrapping_mul(4)
}

/// Where a label stands.
fn label_at(labels: &[u32], offsets: &[u32], label: Label) -> u32
    ensures { result ≡ label_at labels.now offsets.now label.0 }
{
    at(offsets, at(labels, label.0))
}

impl<'a> Longest<'a> {
    /// How a piece of the function, before which so many of its words stand, comes to where it leads.
    fn reach_of(&self, labels: &[u32], from: u32, piece: Piece) -> Reach
        ensures { result ≡ reach_of (longest_view self.now) labels.now from piece }
    {
        match piece {
            Piece::Word(_) => Reach::Near,
            Piece::Jump(to) => jump_reach(self.room, from, label_at(labels, self.offsets, to)),
            Piece::Branch { to, .. } => {
                let target = label_at(labels, self.offsets, to);
                if is_near(from, target) {
                    Reach::Near
                } else {
                    jump_reach(self.room, from.saturating_add(1), target)
                }
            }
            Piece::Call(function) => {
                let here = self.first.saturating_add(from);
                jump_reach(self.room, here, at(self.firsts, function))
            }
        }
    }

    /// How each piece of the function comes to where it leads.
    fn reaches_of(&self, alloc: Global, sequence: &Sequence) -> Result<Vec<Reach>, AllocError>
        ensures { IfOk result (λ reaches.
            reaches.items ≡ reaches_from (longest_view self.now) sequence.now.labels.items 0
            sequence.now.pieces.items) }
    {
        let mut reaches = Vec::new(alloc);
        let mut index = 0u32;
        let mut left: &[PlacedPiece] = &sequence.pieces;
        while let [piece, rest @ ..] = left {
            let from = at(self.offsets, index);
            reaches.push(self.reach_of(&sequence.labels, from, piece.piece))?;
            index = index.saturating_add(1);
            left = rest;
        }
        Ok(reaches)
    }
}

/// How the piece of an index comes to where it leads.
fn reach_at(reaches: &[Reach], index: u32) -> Reach
    ensures { result ≡ get_or reaches.now index Near }
{
    match reaches.get(index as usize) {
        Some(reach) => *reach,
        None => Reach::Near,
    }
}

/// Where pieces stand, and behind them their end.
fn offsets_of(
    alloc: Global,
    pieces: &[PlacedPiece],
    reaches: &[Reach],
) -> Result<Vec<u32>, AllocError>
    ensures { IfOk result (λ offsets. offsets.items ≡ offsets_from reaches.now 0 0 pieces.now) }
{
    let mut offsets = Vec::new(alloc);
    let mut words = 0u32;
    let mut index = 0u32;
    let mut left = pieces;
    while let [piece, rest @ ..] = left {
        offsets.push(words)?;
        words = words.saturating_add(words_of(piece.piece, reach_at(reaches, index)));
        index = index.saturating_add(1);
        left = rest;
    }
    offsets.push(words)?;
    Ok(offsets)
}

/// The longest layout of a function.
pub fn longest_layout(alloc: Global, room: Room, sequence: &Sequence) -> Result<Layout, AllocError>
    ensures { IfOk result (λ layout. layout_view layout ≡ longest_layout room (sequence_view sequence.now)) }
{
    let offsets = longest_offsets(alloc, room, sequence)?;
    let words = at(&offsets, count(sequence.pieces.len()));
    Ok(Layout {
        offsets,
        words,
        reaches: vec![in alloc; farthest(room); sequence.pieces.len()]?,
    })
}

/// Where the pieces of a function stand: each has as few words as the longest layout of its unit allows.
fn shortened(
    alloc: Global,
    measured: Longest<'_>,
    sequence: &Sequence,
) -> Result<Layout, AllocError>
    ensures { IfOk result
        (λ layout. layout_view layout ≡ layout_of (longest_view measured.entry) (sequence_view sequence.now)) }
{
    let reaches = measured.reaches_of(alloc, sequence)?;
    let offsets = offsets_of(alloc, &sequence.pieces, &reaches)?;
    let words = at(&offsets, count(reaches.len()));
    Ok(Layout {
        offsets,
        words,
        reaches,
    })
}

/// Where the pieces of a function stand, each near enough to where it leads.
pub fn layout_of(
    alloc: Global,
    measured: Longest<'_>,
    sequence: &Sequence,
) -> Result<Layout, AllocError>
    ensures exact { IfOk result
        (λ layout. layout_view layout ≡ layout_of (longest_view measured.entry) (sequence_view sequence.now)) }
    ensures layout { IfOk result (λ layout. length sequence.now.pieces.items ≤ most_pieces
        → measured.entry.offsets.now ≡ longest measured.entry.room (sequence_view sequence.now)
        → IsLayoutOf measured.entry.room (sequence_view sequence.now) (layout_view layout)) }
{
    let layout = shortened(alloc, measured, sequence)?;
    Ok(layout)
}

/// Appends the word of an instruction.
fn push(code: &mut Vec<OwnedWord>, instruction: Instruction, owner: u32) -> Result<(), AllocError>
    ensures { OnOk result (code.new.items ≡ code.old.items ++ owned_words owner (instruction ∷ [])) }
{
    code.push(OwnedWord {
        word: word_of(instruction),
        owner,
    })?;
    Ok(())
}

/// Appends a jump or a call over a distance: one word, or two by way of a register. The first of the registers takes the
/// address behind it.
fn push_jump(
    code: &mut Vec<OwnedWord>,
    owner: u32,
    registers: (u8, u8),
    reach: Reach,
    distance: u32,
) -> Result<(), AllocError>
    ensures { OnOk result
        (code.new.items ≡ code.old.items ++ owned_words owner (jump_code reach registers.0 registers.1 distance)) }
{
    let (link, by) = registers;
    match reach {
        Reach::Near | Reach::Over => push(code, Instruction::Jal(link, distance), owner),
        Reach::Far => {
            push(code, Instruction::Auipc(by, high_part(distance)), owner)?;
            push(code, Instruction::Jalr(link, by, low_part(distance)), owner)
        }
    }
}

/// Appends a branch over a distance: itself, or the opposite one over a jump.
fn push_branch(
    code: &mut Vec<OwnedWord>,
    owner: u32,
    branch: (BranchOperation, u8, u8),
    reach: Reach,
    distance: u32,
) -> Result<(), AllocError>
    ensures { OnOk result (code.new.items ≡ code.old.items ++ owned_words owner (branch_code reach (λ d.
        instruction.Branch branch.0 branch.1 branch.2 d) (λ d. instruction.Branch (opposite branch.0) branch.1
        branch.2 d) distance)) }
{
    let (operation, left, right) = branch;
    if reach == Reach::Near {
        let alone = Instruction::Branch(operation, left, right, distance);
        return push(code, alone, owner);
    }
    let behind = 4 * words_of_branch(reach);
    let over = Instruction::Branch(opposite(operation), left, right, behind);
    push(code, over, owner)?;
    let rest = distance.wrapping_sub(4);
    push_jump(code, owner, (register::ZERO, register::T0), reach, rest)
}

/// What the words of a function are made of.
#[derive(Clone, Copy)]
struct Ground<'a> {
    sequence: &'a Sequence,
    layout: &'a Layout,
    /// How many words stand before the function.
    first: u32,
    /// How many words stand before each function.
    functions: &'a [u32],
}

impl<'a> Ground<'a> {
    /// The distance to a label from a number of words behind the beginning of the function.
    fn distance_to(&self, from: u32, label: Label) -> u32
        ensures { result ≡ distance from
            (label_at self.now.sequence.now.labels.items self.now.layout.now.offsets.items label.0) }
    {
        distance(
            from,
            label_at(&self.sequence.labels, &self.layout.offsets, label),
        )
    }

    /// Appends the words of a piece.
    fn push_piece(
        &self,
        index: u32,
        placed: PlacedPiece,
        code: &mut Vec<OwnedWord>,
    ) -> Result<(), AllocError>
        ensures { OnOk result
            (code.new.items ≡ code.old.items ++ owned_words placed.owner (piece_code (lying
            (sequence_view self.now.sequence.now) (layout_view self.now.layout.now) self.now.first
            self.now.functions.now) (get_or self.now.layout.now.reaches.items index Near) (slice_index
            self.now.layout.now.offsets.items index) placed.piece)) }
    {
        let from = at(&self.layout.offsets, index);
        let reach = reach_at(&self.layout.reaches, index);
        let owner = placed.owner;
        match placed.piece {
            Piece::Word(instruction) => push(code, instruction, owner),
            Piece::Jump(to) => {
                let distance = self.distance_to(from, to);
                push_jump(code, owner, (register::ZERO, register::T0), reach, distance)
            }
            Piece::Branch {
                operation,
                left,
                right,
                to,
            } => {
                let distance = self.distance_to(from, to);
                push_branch(code, owner, (operation, left, right), reach, distance)
            }
            Piece::Call(function) => {
                let here = self.first.wrapping_add(from);
                let distance = distance(here, at(self.functions, function));
                push_jump(code, owner, (register::RA, register::RA), reach, distance)
            }
        }
    }
}

impl Layout {
    /// Appends the words of a function before which so many words stand, where each function has so many before it.
    pub fn push_words(
        &self,
        sequence: &Sequence,
        first: u32,
        functions: &[u32],
        code: &mut Vec<OwnedWord>,
    ) -> Result<(), AllocError>
        ensures { OnOk result
            (code.new.items ≡ code.old.items
            ++ function_words (sequence_view sequence.now) (layout_view self.now) first functions.now) }
    {
        let ground = Ground {
            sequence,
            layout: self,
            first,
            functions,
        };
        let mut left: &[PlacedPiece] = &sequence.pieces;
        let mut index = 0u32;
        while let [piece, rest @ ..] = left {
            ground.push_piece(index, *piece, code)?;
            index = index.saturating_add(1);
            left = rest;
        }
        Ok(())
    }
}
