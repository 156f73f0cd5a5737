//! Constants.

ghost use Rattle.std.specs.Prelude.{◌≡◌, ◌≤◌, ◌+◌, [], ◌∷◌, OnOk, IfOk};
ghost use Rattle.rv_emit_words.specs.Shown.{shown};
ghost use Rattle.rv_emit_words.specs.Words.{words_in};
ghost use Rattle.rv_emit_words.specs.Constants.{constant_by, constant_code, constant_register, fetched_constant, high_part, holding, is_near_base, is_small, low_part, one_word_constant, set_constant_by, set_constant_code, words_of_constant};
ghost use Rattle.rv_emit_words.specs.Growing.{code_state, forgotten, holder_of, with_code};

use crate::code::Code;
use crate::{Held, register};
use rv_code::Instruction;
use std::alloc::AllocError;

/// Whether a word is that of a number of 12 bits, -2048 to 2047.
pub fn is_small(word: u32) -> bool
    ensures { result ≡ is_small word }
{
    word < 2048 || word >= 4294965248
}

/// The lowest 12 bits of a word, with their sign.
pub fn low_part(word: u32) -> u32
    ensures { result ≡ low_part word }
{
    let low = word % 4096;
    if low < 2048 { low } else { low + 4294963200 }
}

/// What the upper 20 bits have to be so that the low part added to them gives a word.
pub fn high_part(word: u32) -> u32
    ensures { result ≡ high_part word }
{
    word.wrapping_sub(low_part(word)) / 4096
}

/// Whether a word is made best from the address that `gp` holds: it would take two words else.
fn is_near_base(word: u32, base: u32) -> bool
    ensures { result ≡ is_near_base word base }
{
    !is_small(word) && low_part(word) != 0 && is_small(word.wrapping_sub(base))
}

/// How many words bring a constant into a register, where `gp` holds this address.
pub fn words_of_constant(word: u32, base: u32) -> u32
    ensures few { (1 ≤ result) × (result ≤ 2) }
    ensures words { result ≡ words_of_constant word base }
{
    if is_small(word) || low_part(word) == 0 || is_near_base(word, base) {
        1
    } else {
        2
    }
}

impl Code {
    /// Brings a constant into a register by the one word that it takes.
    fn load_by_one(&mut self, register: u8, word: u32, base: u32) -> Result<(), AllocError>
        ensures few { OnOk result (words_in self.new.pieces.items ≤ words_in self.old.pieces.items + 1) }
        ensures stops { OnOk result (shown self.new ≡ shown self.old) }
        ensures grown { OnOk result
            (code_state self.new ≡ with_code (one_word_constant register word base ∷ []) (code_state self.old)) }
    {
        if is_small(word) {
            return self.put_sum(register, register::ZERO, word);
        }
        if is_near_base(word, base) {
            return self.put_sum(register, register::GP, word.wrapping_sub(base));
        }
        self.put(Instruction::Lui(register, high_part(word)))
    }

    /// Brings a constant into a register by the words that it takes, one or two.
    fn load_by(&mut self, register: u8, word: u32, base: u32, words: u32) -> Result<(), AllocError>
        requires { 1 ≤ words }
        ensures few { OnOk result (words_in self.new.pieces.items ≤ words_in self.old.pieces.items + words) }
        ensures stops { OnOk result (shown self.new ≡ shown self.old) }
        ensures grown { OnOk result
            (code_state self.new ≡ with_code (constant_by words register word base) (code_state self.old)) }
    {
        if words == 1 {
            return self.load_by_one(register, word, base);
        }
        self.put(Instruction::Lui(register, high_part(word)))?;
        self.put_sum(register, register, low_part(word))
    }

    /// Brings a constant into a register, in at most two words.
    pub fn load_constant(&mut self, register: u8, word: u32, base: u32) -> Result<(), AllocError>
        ensures few { OnOk result (words_in self.new.pieces.items ≤ words_in self.old.pieces.items + 2) }
        ensures stops { OnOk result (shown self.new ≡ shown self.old) }
        ensures grown { OnOk result
            (code_state self.new ≡ with_code (constant_code register word base) (code_state self.old)) }
    {
        let words = words_of_constant(word, base);
        self.load_by(register, word, base, words)
    }

    /// The register that holds a constant, if one does.
    pub fn holder(&self, word: u32) -> Option<u8>
        ensures { result ≡ holder_of word self.now.held.items }
    {
        let mut left: &[Held] = &self.held;
        while let [first, rest @ ..] = left {
            if first.word == word {
                return Some(first.register);
            }
            left = rest;
        }
        None
    }

    /// A register that holds a constant, `scratch` where no other does.
    pub fn fetch_constant(&mut self, word: u32, base: u32, scratch: u8) -> Result<u8, AllocError>
        ensures few { OnOk result (words_in self.new.pieces.items ≤ words_in self.old.pieces.items + 2) }
        ensures stops { OnOk result (shown self.new ≡ shown self.old) }
        ensures grown { OnOk result
            (code_state self.new
            ≡ with_code (fetched_constant word base scratch self.old.held.items) (code_state self.old)) }
        ensures found { IfOk result (λ r. r ≡ constant_register word base scratch self.old.held.items) }
    {
        if word == 0 {
            return Ok(register::ZERO);
        }
        if word == base {
            return Ok(register::GP);
        }
        self.fetched.push(word)?;
        if let Some(register) = self.holder(word) {
            return Ok(register);
        }
        self.load_constant(scratch, word, base)?;
        Ok(scratch)
    }

    /// Brings a constant into a register by the words that it takes at most: from one that holds it, or as it is made.
    pub fn set_by(
        &mut self,
        register: u8,
        word: u32,
        base: u32,
        words: u32,
    ) -> Result<(), AllocError>
        requires { 1 ≤ words }
        ensures few { OnOk result (words_in self.new.pieces.items ≤ words_in self.old.pieces.items + words) }
        ensures stops { OnOk result (shown self.new ≡ shown self.old) }
        ensures grown { OnOk result
            (code_state self.new
            ≡ with_code (set_constant_by words register word base self.old.held.items) (code_state self.old)) }
    {
        if !is_small(word) {
            if let Some(holder) = self.holder(word) {
                return self.put_sum(register, holder, 0);
            }
        }
        self.load_by(register, word, base, words)
    }

    /// Brings a constant into a register, from one that holds it, or in at most two words.
    pub fn set_constant(&mut self, register: u8, word: u32, base: u32) -> Result<(), AllocError>
        ensures few { OnOk result (words_in self.new.pieces.items ≤ words_in self.old.pieces.items + 2) }
        ensures stops { OnOk result (shown self.new ≡ shown self.old) }
        ensures grown { OnOk result
            (code_state self.new
            ≡ with_code (set_constant_code register word base self.old.held.items) (code_state self.old)) }
    {
        let words = words_of_constant(word, base);
        self.set_by(register, word, base, words)
    }

    /// Nothing more is known of a register.
    pub fn forget(&mut self, register: u8)
        ensures few { words_in self.new.pieces.items ≡ words_in self.old.pieces.items }
        ensures stops { shown self.new ≡ shown self.old }
        ensures grown { code_state self.new
            ≡ record (code_state self.old) { held = forgotten register self.old.held.items } }
    {
        self.held.retain(|held| held.register != register);
    }

    /// Nothing more is known of any scratch register.
    pub fn forget_all(&mut self)
        ensures few { words_in self.new.pieces.items ≡ words_in self.old.pieces.items }
        ensures stops { shown self.new ≡ shown self.old }
        ensures grown { code_state self.new ≡ record (code_state self.old) { held = [] } }
    {
        self.held.clear();
    }

    /// Brings a constant into a scratch register by the words that it takes at most. It is held from then on.
    pub fn hold(&mut self, held: Held, base: u32, words: u32) -> Result<(), AllocError>
        requires { 1 ≤ words }
        ensures few { OnOk result (words_in self.new.pieces.items ≤ words_in self.old.pieces.items + words) }
        ensures stops { OnOk result (shown self.new ≡ shown self.old) }
        ensures grown { OnOk result (code_state self.new ≡ holding held base words (code_state self.old)) }
    {
        match self.holder(held.word) {
            Some(register) => {
                if register == held.register {
                    return Ok(());
                }
                self.put_sum(held.register, register, 0)?;
            }
            None => self.load_by(held.register, held.word, base, words)?,
        }
        self.forget(held.register);
        self.held.push(held)?;
        Ok(())
    }
}
