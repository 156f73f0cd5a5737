//! Code as it grows.

ghost use Rattle.std.specs.Prelude.{◌≡◌, ◌≤◌, ◌+◌, ◌++◌, ◌∷◌, [], false, OnOk, IfOk};
ghost use Rattle.rv_emit_words.specs.Shown.{shown, stop_if};
ghost use Rattle.rv_emit_words.specs.Words.{words_in, words_of_piece};

use crate::{Held, Piece, PlacedPiece, register};
use rv_code::{ImmediateOperation, Instruction};
use std::alloc::{AllocError, Global};

/// Code as it grows, with what is known where it ends.
#[derive(Drop)]
pub struct Code {
    pub pieces: Vec<PlacedPiece>,
    /// What scratch registers hold, each at most one word.
    pub held: Vec<Held>,
    /// The constants that were brought into a register.
    pub fetched: Vec<u32>,
    /// The place in force, or 0.
    owner: u32,
    /// The place in force is a stop and has no word yet.
    begins: bool,
}

impl Code {
    ghost use Rattle.rv_emit_words.specs.Growing.{code_state, marked, settled, with_code, with_piece};
    ghost use Rattle.rv_code.specs.declared.instruction.Instruction.TheVariants.{Immediate};
    ghost use Rattle.rv_code.specs.declared.instruction.ImmediateOperation.TheVariants.{Addi};

    /// No code yet, of a place or of none, which is 0.
    pub fn new(alloc: Global, owner: u32) -> Code
        ensures few { words_in result.pieces.items ≡ 0 }
        ensures stops { shown result ≡ [] }
        ensures grown { code_state result ≡ record { pieces = []; held = []; owner = owner; begins = false } }
    {
        Code {
            pieces: Vec::new(alloc),
            held: Vec::new(alloc),
            fetched: Vec::new(alloc),
            owner,
            begins: false,
        }
    }

    /// No code yet, where these constants are held.
    pub fn knowing(alloc: Global, owner: u32, known: &[Held]) -> Result<Code, AllocError>
        ensures few { IfOk result (λ code. words_in code.pieces.items ≡ 0) }
        ensures stops { IfOk result (λ code. shown code ≡ []) }
        ensures grown { IfOk result (λ code.
            code_state code ≡ record { pieces = []; held = known.now; owner = owner; begins = false }) }
    {
        Ok(Code {
            pieces: Vec::new(alloc),
            held: Vec::from_slice(alloc, known)?,
            fetched: Vec::new(alloc),
            owner,
            begins: false,
        })
    }

    /// Appends a piece of the place in force.
    pub fn put_piece(&mut self, piece: Piece) -> Result<(), AllocError>
        ensures few { OnOk result
            (words_in self.new.pieces.items ≤ words_in self.old.pieces.items + words_of_piece piece) }
        ensures stops { OnOk result (shown self.new ≡ shown self.old) }
        ensures grown { OnOk result (code_state self.new ≡ with_piece piece (code_state self.old)) }
        ensures begun { OnOk result (self.new.begins ≡ false) }
    {
        let is_stop = self.begins;
        self.begins = false;
        self.pieces.push(PlacedPiece {
            piece,
            owner: self.owner,
            is_stop,
            writes: None,
        })?;
        Ok(())
    }

    /// Appends a word.
    pub fn put(&mut self, instruction: Instruction) -> Result<(), AllocError>
        ensures few { OnOk result (words_in self.new.pieces.items ≤ words_in self.old.pieces.items + 1) }
        ensures stops { OnOk result (shown self.new ≡ shown self.old) }
        ensures grown { OnOk result (code_state self.new ≡ with_code (instruction ∷ []) (code_state self.old)) }
        ensures begun { OnOk result (self.new.begins ≡ false) }
    {
        self.put_piece(Piece::Word(instruction))
    }

    /// Appends `operation rd, source, immediate`.
    pub fn put_immediate(
        &mut self,
        operation: ImmediateOperation,
        rd: u8,
        source: u8,
        immediate: u32,
    ) -> Result<(), AllocError>
        ensures few { OnOk result (words_in self.new.pieces.items ≤ words_in self.old.pieces.items + 1) }
        ensures stops { OnOk result (shown self.new ≡ shown self.old) }
        ensures grown { OnOk result
            (code_state self.new ≡ with_code (Immediate operation rd source immediate ∷ []) (code_state self.old)) }
        ensures begun { OnOk result (self.new.begins ≡ false) }
    {
        self.put(Instruction::Immediate(operation, rd, source, immediate))
    }

    /// Appends `addi rd, source, immediate`.
    pub fn put_sum(&mut self, rd: u8, source: u8, immediate: u32) -> Result<(), AllocError>
        ensures few { OnOk result (words_in self.new.pieces.items ≤ words_in self.old.pieces.items + 1) }
        ensures stops { OnOk result (shown self.new ≡ shown self.old) }
        ensures grown { OnOk result
            (code_state self.new ≡ with_code (Immediate Addi rd source immediate ∷ []) (code_state self.old)) }
        ensures begun { OnOk result (self.new.begins ≡ false) }
    {
        self.put_immediate(ImmediateOperation::Addi, rd, source, immediate)
    }

    /// Where the place in force is a stop and has no word yet, appends one that does nothing.
    pub fn settle(&mut self) -> Result<(), AllocError>
        ensures few { OnOk result (words_in self.new.pieces.items ≤ words_in self.old.pieces.items + 1) }
        ensures stops { OnOk result (shown self.new ≡ shown self.old) }
        ensures grown { OnOk result (code_state self.new ≡ settled (code_state self.old)) }
        ensures begun { OnOk result (self.new.begins ≡ false) }
    {
        if self.begins {
            self.put_sum(register::ZERO, register::ZERO, 0)
        } else {
            Ok(())
        }
    }

    /// A place begins.
    pub fn begin(&mut self, place: u32, is_stop: bool) -> Result<(), AllocError>
        ensures few { OnOk result (words_in self.new.pieces.items ≤ words_in self.old.pieces.items + 1) }
        ensures stops { OnOk result (shown self.new ≡ shown self.old ++ stop_if is_stop place) }
        ensures grown { OnOk result
            (code_state self.new ≡ record (settled (code_state self.old)) { owner = place; begins = is_stop }) }
    {
        self.settle()?;
        self.owner = place;
        self.begins = is_stop;
        Ok(())
    }

    /// What follows belongs to no place. The place before has a word.
    pub fn leave_place(&mut self)
        ensures few { words_in self.new.pieces.items ≡ words_in self.old.pieces.items }
        ensures stops { self.old.begins ≡ false → shown self.new ≡ shown self.old }
        ensures grown { code_state self.new ≡ record (code_state self.old) { owner = 0 } }
        ensures begun { self.new.begins ≡ self.old.begins }
    {
        self.owner = 0;
    }

    /// The last word writes the home of the target of an instruction of this number.
    pub fn mark_writer(&mut self, number: u32)
        ensures few { words_in self.new.pieces.items ≡ words_in self.old.pieces.items }
        ensures stops { shown self.new ≡ shown self.old }
        ensures grown { code_state self.new
            ≡ record (code_state self.old) { pieces = marked number self.old.pieces.items } }
        ensures begun { self.new.begins ≡ self.old.begins }
    {
        if let Some(last) = self.pieces.last_mut() {
            last.writes = Some(number);
        }
    }
}
