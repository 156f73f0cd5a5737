//! Operands and results.

ghost use Rattle.std.specs.Prelude.{◌≡◌, ◌≤◌, ◌+◌, [], ◌∷◌, OnOk, IfOk};
ghost use Rattle.rv_emit_words.specs.Shown.{shown};
ghost use Rattle.rv_emit_words.specs.Words.{words_in};
ghost use Rattle.rv_emit_words.specs.Fetching.{most_words_of_home, most_words_of_source, most_words_to_bring};
ghost use Rattle.graph_core.specs.Graphs.{operand_view};
ghost use Rattle.rv_code.specs.declared.instruction.Instruction.TheVariants as instruction;
ghost use Rattle.rv_code.specs.declared.instruction.RegisterOperation.TheVariants as register_operation;
ghost use Rattle.rv_emit_storage.specs.Storages.{source_of, storage_view};
ghost use Rattle.rv_emit_words.specs.Constants.{high_part};
ghost use Rattle.rv_emit_words.specs.Growing.{code_state, with_code};
ghost use Rattle.rv_emit_words.specs.Operands.{address_code, bringing, fetched_home, fetched_source, finishing, home_register, home_written, load_slot_code, result_register, source_register, store_slot_code};

use crate::code::Code;
use crate::constant::{high_part, low_part};
use crate::register;
use graph_core::Operand;
use graph_homes::Home;
use rv_code::{Instruction, LoadOperation, RegisterOperation, StoreOperation};
use rv_emit_storage::{Source, Storage};
use std::alloc::AllocError;

impl Code {
    /// The words that make the base of what lies far from `sp`, in `t0`: its upper part, and `sp` added to it.
    fn put_far_base(&mut self, offset: u32) -> Result<(), AllocError>
        ensures few { OnOk result (words_in self.new.pieces.items ≤ words_in self.old.pieces.items + 2) }
        ensures stops { OnOk result (shown self.new ≡ shown self.old) }
        ensures grown { OnOk result
            (code_state self.new ≡ with_code
            (instruction.Lui 5 (high_part offset) ∷ instruction.Register register_operation.Add 5 5 2 ∷ [])
            (code_state self.old)) }
    {
        self.put(Instruction::Lui(register::T0, high_part(offset)))?;
        self.put(Instruction::Register(
            RegisterOperation::Add,
            register::T0,
            register::T0,
            register::SP,
        ))
    }

    /// Loads a word of the frame, in one word or in three that stand together.
    pub fn load_slot(&mut self, rd: u8, offset: u32) -> Result<(), AllocError>
        ensures few { OnOk result (words_in self.new.pieces.items ≤ words_in self.old.pieces.items + 3) }
        ensures stops { OnOk result (shown self.new ≡ shown self.old) }
        ensures grown { OnOk result (code_state self.new ≡ with_code (load_slot_code rd offset) (code_state self.old)) }
    {
        if offset < 2048 {
            return self.put(Instruction::Load(LoadOperation::Lw, rd, register::SP, offset));
        }
        self.put_far_base(offset)?;
        self.put(Instruction::Load(LoadOperation::Lw, rd, register::T0, low_part(offset)))
    }

    /// Stores a word of the frame, in one word or in three that stand together.
    pub fn store_slot(&mut self, value: u8, offset: u32) -> Result<(), AllocError>
        ensures few { OnOk result (words_in self.new.pieces.items ≤ words_in self.old.pieces.items + 3) }
        ensures stops { OnOk result (shown self.new ≡ shown self.old) }
        ensures grown { OnOk result
            (code_state self.new ≡ with_code (store_slot_code value offset) (code_state self.old)) }
    {
        if offset < 2048 {
            return self.put(Instruction::Store(StoreOperation::Sw, value, register::SP, offset));
        }
        self.put_far_base(offset)?;
        self.put(Instruction::Store(StoreOperation::Sw, value, register::T0, low_part(offset)))
    }

    /// A register that holds what a home holds, `scratch` where that is a slot.
    pub fn fetch_home(
        &mut self,
        storage: &Storage<'_>,
        home: Home,
        scratch: u8,
    ) -> Result<u8, AllocError>
        ensures few { OnOk result
            (words_in self.new.pieces.items ≤ words_in self.old.pieces.items + most_words_of_home home) }
        ensures stops { OnOk result (shown self.new ≡ shown self.old) }
        ensures grown { OnOk result
            (code_state self.new
            ≡ with_code (fetched_home (storage_view storage.now) home scratch) (code_state self.old)) }
        ensures found { IfOk result (λ r. r ≡ home_register home scratch) }
    {
        match home {
            Home::Register(register) => Ok(register),
            Home::Slot(slot) => {
                self.load_slot(scratch, storage.slot(slot))?;
                Ok(scratch)
            }
        }
    }

    /// A register that holds what is read, `scratch` where it has none of its own.
    pub fn fetch_source(
        &mut self,
        storage: &Storage<'_>,
        source: Source,
        scratch: u8,
    ) -> Result<u8, AllocError>
        ensures few { OnOk result
            (words_in self.new.pieces.items ≤ words_in self.old.pieces.items + most_words_of_source source) }
        ensures stops { OnOk result (shown self.new ≡ shown self.old) }
        ensures grown { OnOk result
            (code_state self.new ≡ with_code
            (fetched_source (storage_view storage.now) self.old.held.items source scratch)
            (code_state self.old)) }
        ensures kept { OnOk result (self.new.held.items ≡ self.old.held.items) }
        ensures found { IfOk result
            (λ r. r ≡ source_register (storage_view storage.now) self.old.held.items source scratch) }
    {
        match source {
            Source::Home(home) => self.fetch_home(storage, home, scratch),
            Source::Word(word) => self.fetch_constant(word, storage.base, scratch),
        }
    }

    /// A register that holds an operand, `scratch` where it has none of its own.
    pub fn fetch(
        &mut self,
        storage: &Storage<'_>,
        operand: Operand,
        scratch: u8,
    ) -> Result<u8, AllocError>
        ensures few { OnOk result (words_in self.new.pieces.items ≤ words_in self.old.pieces.items + 3) }
        ensures stops { OnOk result (shown self.new ≡ shown self.old) }
        ensures grown { OnOk result
            (code_state self.new ≡ with_code (fetched_source (storage_view storage.now) self.old.held.items
            (source_of (storage_view storage.now) (operand_view operand)) scratch) (code_state self.old)) }
        ensures kept { OnOk result (self.new.held.items ≡ self.old.held.items) }
        ensures found { IfOk result (λ r.
            r ≡ source_register (storage_view storage.now) self.old.held.items
            (source_of (storage_view storage.now) (operand_view operand)) scratch) }
    {
        self.fetch_source(storage, storage.source(operand), scratch)
    }

    /// Brings what is read into a register. Where it is there already, this takes no word.
    pub fn bring(&mut self, storage: &Storage<'_>, rd: u8, source: Source) -> Result<(), AllocError>
        ensures few { OnOk result
            (words_in self.new.pieces.items ≤ words_in self.old.pieces.items + most_words_to_bring source) }
        ensures stops { OnOk result (shown self.new ≡ shown self.old) }
        ensures grown { OnOk result
            (code_state self.new ≡ with_code (bringing (storage_view storage.now) self.old.held.items rd source)
            (code_state self.old)) }
    {
        match source {
            Source::Word(word) => self.set_constant(rd, word, storage.base),
            Source::Home(Home::Slot(slot)) => self.load_slot(rd, storage.slot(slot)),
            Source::Home(Home::Register(register)) => {
                if register == rd {
                    Ok(())
                } else {
                    self.put_sum(rd, register, 0)
                }
            }
        }
    }

    /// Stores the result of an instruction, which is in a register, where the target's home is a slot; the last word is
    /// then that store.
    pub fn finish(
        &mut self,
        storage: &Storage<'_>,
        target: Home,
        register: u8,
    ) -> Result<(), AllocError>
        ensures few { OnOk result (words_in self.new.pieces.items ≤ words_in self.old.pieces.items + 3) }
        ensures stops { OnOk result (shown self.new ≡ shown self.old) }
        ensures grown { OnOk result
            (code_state self.new
            ≡ with_code (finishing (storage_view storage.now) target register) (code_state self.old)) }
    {
        match target {
            Home::Register(_) => Ok(()),
            Home::Slot(slot) => self.store_slot(register, storage.slot(slot)),
        }
    }

    /// Writes a home from a register that is none; the last word is the one that writes it.
    pub fn write(
        &mut self,
        storage: &Storage<'_>,
        target: Home,
        register: u8,
    ) -> Result<(), AllocError>
        ensures few { OnOk result (words_in self.new.pieces.items ≤ words_in self.old.pieces.items + 3) }
        ensures stops { OnOk result (shown self.new ≡ shown self.old) }
        ensures grown { OnOk result
            (code_state self.new
            ≡ with_code (home_written (storage_view storage.now) target register) (code_state self.old)) }
    {
        match target {
            Home::Register(home) => self.put_sum(home, register, 0),
            Home::Slot(slot) => self.store_slot(register, storage.slot(slot)),
        }
    }

    /// The address of a byte of the frame, in a register.
    pub fn put_address(&mut self, rd: u8, scratch: u8, offset: u32) -> Result<(), AllocError>
        ensures few { OnOk result (words_in self.new.pieces.items ≤ words_in self.old.pieces.items + 3) }
        ensures stops { OnOk result (shown self.new ≡ shown self.old) }
        ensures grown { OnOk result
            (code_state self.new ≡ with_code (address_code rd scratch offset) (code_state self.old)) }
    {
        if offset < 2048 {
            return self.put_sum(rd, register::SP, offset);
        }
        let high = high_part(offset);
        self.put(Instruction::Lui(scratch, high))?;
        let low = low_part(offset);
        if low != 0 {
            self.put_sum(scratch, scratch, low)?;
        }
        self.put(Instruction::Register(RegisterOperation::Add, rd, scratch, register::SP))
    }
}

/// The register in which the result of an instruction is made: the target's home, or `t1` on the way to a slot.
pub fn result_register(target: Home) -> u8
    ensures { result ≡ result_register target }
{
    match target {
        Home::Register(register) => register,
        Home::Slot(_) => register::T1,
    }
}
