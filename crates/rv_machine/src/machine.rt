//! The machine: its state, and its steps.

ghost use Rattle.std.specs.Prelude.{◌≡◌, ◌+◌, ◌-◌, ◌≤◌, ◌<◌, ◌*◌, ◌/◌, ◌%◌, ◌++◌, ℕ, length, map, drop, option_and_then, All, IfSome, IfOk};
ghost use Rattle.rv_code.specs.InForm.{IsRegister, IsInForm};
ghost use Rattle.rv_code.specs.Decoding.{decoded};
ghost use Rattle.rv_machine.specs.State.{MachineState, reg, word};
ghost use Rattle.rv_machine.specs.Memory.{words_in};
ghost use Rattle.rv_machine.specs.Table.{Effect, goes, jumps, stays, zeros, started, fetched, load_result, store_result, on_load, on_store, on_input, on_call, acted, effect};
ghost use Rattle.rv_machine.specs.Reading.{byte_at, stack_rest};
ghost use Rattle.memory_map.specs.Maps.{bytes_size, bytes_start, code_start, most_words, stack_size};

use crate::access::{
    byte_of_code, load_from, load_from_code, size_of_load, size_of_store, store_in, word_at,
};
use crate::arithmetic::{is_taken, operate, operate_immediate};
use crate::event::Event;
use memory_map::{BYTES_SIZE, CODE_START, Map, STACK_SIZE};
use rv_code::{Instruction, LoadOperation, StoreOperation, decode};
use std::alloc::{AllocError, Global};
use std::marker::Model;

/// The register of the argument and the result of a call of the environment.
const A0: u8 = 10;

/// The register of its number.
const A7: u8 = 17;

/// A machine between two instructions. Contracts see it as its `MachineState`.
#[derive(Drop)]
pub struct Machine {
    regions: Map,
    code: Vec<u32>,
    instructions: Vec<Option<Instruction>>,
    pc: u32,
    registers: [u32; 32],
    bytes: Vec<u8>,
    stack: Vec<u8>,
    input: Vec<u8>,
    input_read: usize,
}

impl Model for Machine {
    ghost Value = { MachineState };

    ghost view = { λ m. record {
      map = m.regions;
      code = m.code.items;
      pc = m.pc;
      registers = m.registers;
      bytes = m.bytes.items;
      stack = m.stack.items;
      input = drop m.input_read m.input.items;
    } };

    // Beside each word of the code stands its instruction, the code has no more words than the map lets it have, and the
    // regions have their sizes.
    ghost invariant = { λ m. (m.instructions.items ≡ map decoded m.code.items)
        × All (λ row. IfSome row IsInForm) m.instructions.items
        × (length m.code.items ≤ most_words m.regions) × (length m.bytes.items ≡ bytes_size)
        × (length m.stack.items ≡ stack_size) };
}

// So many bytes, each of them 0.
#[tactic(auto, unfolding(crate::specs::Table::zeros))]
fn zero_bytes(alloc: Global, count: usize) -> Result<Vec<u8>, AllocError>
    ensures zeros { IfOk result (λ v. v.items ≡ zeros count) }
    ensures len { IfOk result (λ v. length v.items ≡ count) }
{
    Ok(vec![in alloc; 0; count]?)
}

// A region of so many bytes as it starts: the initial bytes, and 0 after them.
#[tactic(auto, unfolding(crate::specs::Table::zeros))]
fn initial_bytes(alloc: Global, initial: &[u8], size: usize) -> Result<Vec<u8>, AllocError>
    requires { length initial.now ≤ size }
    ensures bytes { IfOk result (λ v. v.items ≡ initial.now ++ zeros (size - length initial.now)) }
    ensures len { IfOk result (λ v. length v.items ≡ size) }
{
    let mut bytes = Vec::with_capacity(alloc, size)?;
    bytes.extend_from_slice(initial)?;
    bytes.resize(size, 0)?;
    Ok(bytes)
}

// Words, and the instruction of each.
#[derive(Drop)]
struct Program {
    code: Vec<u32>,
    instructions: Vec<Option<Instruction>>,
}

// The words of bytes, and their instructions.
#[tactic(auto, unfolding(crate::specs::Memory::words_in))]
fn program_of(alloc: Global, bytes: &[u8]) -> Result<Program, AllocError>
    ensures words { IfOk result (λ p. p.code.items ≡ words_in bytes.now) }
    ensures rows { IfOk result (λ p. p.instructions.items ≡ map decoded p.code.items) }
    ensures in_form { IfOk result (λ p. All (λ row. IfSome row IsInForm) p.instructions.items) }
    ensures len { IfOk result (λ p. length p.code.items ≡ length bytes.now / 4) }
{
    let count = bytes.len() / 4;
    let mut code = Vec::with_capacity(alloc, count)?;
    let mut instructions = Vec::with_capacity(alloc, count)?;
    for k in 0..count {
        let word = word_at(bytes, 4 * k);
        code.push(word)?;
        instructions.push(decode(word))?;
    }
    Ok(Program { code, instructions })
}

impl Machine {
    /// The machine as it starts on the bytes of code, initial bytes and input. It takes all the memory that the machine
    /// ever needs.
    ///
    /// Errors: `AllocError` where that memory is refused.
    #[tactic(auto, unfolding(crate::specs::Table::started))]
    pub fn load(
        alloc: Global,
        regions: Map,
        code: &[u8],
        bytes: &[u8],
        input: &[u8],
    ) -> Result<Machine, AllocError>
        requires whole { length code.now % 4 ≡ 0 }
        requires code { length code.now ≤ 4 * most_words regions }
        requires bytes { length bytes.now ≤ bytes_size }
        ensures { IfOk result (λ m. m ≡ started regions (words_in code.now) bytes.now input.now) }
    {
        let program = program_of(alloc, code)?;
        Ok(Machine {
            regions,
            code: program.code,
            instructions: program.instructions,
            pc: CODE_START,
            registers: [0; 32],
            bytes: initial_bytes(alloc, bytes, BYTES_SIZE as usize)?,
            stack: zero_bytes(alloc, STACK_SIZE as usize)?,
            input: input.to_vec(alloc)?,
            input_read: 0,
        })
    }

    /// Carries out one instruction, and tells what came of it. After an ending it tells the same again, and nothing
    /// changes.
    #[tactic(auto, using(crate::proofs::Effects::effect_none, crate::proofs::Effects::effect_some))]
    pub fn step(&mut self) -> Event
        ensures { record { event = result; after = self.new } ≡ effect self.old }
    {
        match self.fetch() {
            None => Event::Fault(self.pc),
            Some(instruction) => self.act(instruction),
        }
    }

    /// Where its regions lie.
    pub fn regions(&self) -> Map
        ensures { result ≡ self.now.map }
    {
        self.regions
    }

    /// The address of the instruction that comes next.
    pub fn pc(&self) -> u32
        ensures { result ≡ self.now.pc }
    {
        self.pc
    }

    /// The 32 registers.
    pub fn registers(&self) -> &[u32; 32]
        ensures { result.now ≡ self.now.registers }
    {
        &self.registers
    }

    /// The byte at an address, and 0 where no region has the address.
    #[tactic(auto, unfolding(crate::specs::Reading::byte_at, crate::specs::Table::location_of))]
    pub fn byte(&self, address: u32) -> u8
        ensures { result ≡ byte_at self.now address }
    {
        if address < CODE_START {
            0
        } else if address < self.code_end() {
            byte_of_code(&self.code, (address - CODE_START) as usize)
        } else if address < self.regions.bytes_start() {
            0
        } else if address < self.regions.bytes_end() {
            self.bytes[(address - self.regions.bytes_start()) as usize]
        } else if address < self.regions.stack_start() {
            0
        } else if address < self.regions.stack_end() {
            self.stack[(address - self.regions.stack_start()) as usize]
        } else {
            0
        }
    }

    /// The bytes of the stack from an address to the stack's end, and none where the address is not one of the stack.
    #[tactic(auto, unfolding(crate::specs::Reading::stack_rest))]
    pub fn stack_from(&self, address: u32) -> &[u8]
        ensures { result.now ≡ stack_rest self.now address }
    {
        if address < self.regions.stack_start() || address >= self.regions.stack_end() {
            &[]
        } else {
            &self.stack.as_slice()[(address - self.regions.stack_start()) as usize..]
        }
    }

    // The address after the last word of the code.
    #[tactic(auto, using(memory_map::proofs::Facts::code_ends, memory_map::proofs::Facts::code_few))]
    fn code_end(&self) -> u32
        ensures value { result ≡ code_start + 4 * length self.now.code }
        ensures low { result ≤ bytes_start self.now.map }
    {
        CODE_START + 4 * self.code.len() as u32
    }

    // The instruction at the pc, if there is one.
    #[tactic(auto, unfolding(crate::specs::Table::fetched), using(crate::proofs::Rows::row_in_form))]
    fn fetch(&self) -> Option<Instruction>
        ensures value { result ≡ option_and_then decoded (fetched self.now) }
        ensures in_form { IfSome result IsInForm }
    {
        if self.pc % 4 != 0 || self.pc < CODE_START {
            return None;
        }
        match self.instructions.get(((self.pc - CODE_START) / 4) as usize) {
            None => None,
            Some(row) => *row,
        }
    }

    // The value of a register.
    fn register(&self, number: u8) -> u32
        requires { IsRegister number }
        ensures { result ≡ reg self.now number }
    {
        self.registers[number as usize]
    }

    // The address that a register and an offset name.
    fn address(&self, base: u8, offset: u32) -> u32
        requires { IsRegister base }
        ensures { result ≡ word (reg self.now base + offset) }
    {
        self.register(base).wrapping_add(offset)
    }

    // Writes a register, but for register 0, and goes on at an address.
    fn go(&mut self, to: u32, number: u8, value: u32) -> Event
        requires { IsRegister number }
        ensures { record { event = result; after = self.new } ≡ goes self.old to number value }
    {
        if number != 0 {
            self.registers[number as usize] = value;
        }
        self.pc = to;
        Event::Went
    }

    // The same, where the address is a multiple of 4.
    fn jump(&mut self, to: u32, number: u8, value: u32) -> Event
        requires { IsRegister number }
        ensures { record { event = result; after = self.new } ≡ jumps self.old to number value }
    {
        if to % 4 == 0 {
            self.go(to, number, value)
        } else {
            Event::Fault(self.pc)
        }
    }

    // What an instruction does.
    #[tactic(auto, unfolding(crate::specs::Table::acted))]
    fn act(&mut self, instruction: Instruction) -> Event
        requires { IsInForm instruction }
        ensures { record { event = result; after = self.new } ≡ acted self.old instruction }
    {
        let next = self.pc.wrapping_add(4);
        match instruction {
            Instruction::Lui(rd, upper) => self.go(next, rd, upper * 4096),
            Instruction::Auipc(rd, upper) => {
                self.go(next, rd, self.pc.wrapping_add(upper * 4096))
            }
            Instruction::Jal(rd, distance) => self.jump(self.pc.wrapping_add(distance), rd, next),
            Instruction::Jalr(rd, base, offset) => {
                self.jump(self.address(base, offset) / 2 * 2, rd, next)
            }
            Instruction::Branch(operation, left, right, distance) => {
                if is_taken(operation, self.register(left), self.register(right)) {
                    self.jump(self.pc.wrapping_add(distance), 0, 0)
                } else {
                    self.go(next, 0, 0)
                }
            }
            Instruction::Load(operation, rd, base, offset) => {
                self.load_into(rd, operation, self.address(base, offset))
            }
            Instruction::Store(operation, value, base, offset) => {
                self.store_at(operation, self.address(base, offset), self.register(value))
            }
            Instruction::Immediate(operation, rd, source, immediate) => {
                let value = operate_immediate(operation, self.register(source), immediate);
                self.go(next, rd, value)
            }
            Instruction::Register(operation, rd, left, right) => {
                let value = operate(operation, self.register(left), self.register(right));
                self.go(next, rd, value)
            }
            Instruction::Fence(_, _, _) => self.go(next, 0, 0),
            Instruction::Ecall => self.call(),
            Instruction::Ebreak => Event::Fault(self.pc),
        }
    }

    // Writes a register with what a load gets at an address and goes on, if it may read there.
    fn load_into(&mut self, rd: u8, operation: LoadOperation, address: u32) -> Event
        requires { IsRegister rd }
        ensures { record { event = result; after = self.new }
            ≡ on_load self.old rd (load_result self.old operation address) }
    {
        match self.load_at(operation, address) {
            None => Event::Fault(self.pc),
            Some(value) => self.go(self.pc.wrapping_add(4), rd, value),
        }
    }

    // What a load gets at an address, if it may read there.
    #[tactic(auto, unfolding(crate::specs::Table::load_result, crate::specs::Table::location_of))]
    fn load_at(&self, operation: LoadOperation, address: u32) -> Option<u32>
        ensures { result ≡ load_result self.now operation address }
    {
        if address % size_of_load(operation) != 0 || address < CODE_START {
            None
        } else if address < self.code_end() {
            let offset = (address - CODE_START) as usize;
            Some(load_from_code(operation, &self.code, offset))
        } else if address < self.regions.bytes_start() {
            None
        } else if address < self.regions.bytes_end() {
            let offset = (address - self.regions.bytes_start()) as usize;
            Some(load_from(operation, &self.bytes, offset))
        } else if address < self.regions.stack_start() || address >= self.regions.stack_end() {
            None
        } else {
            let offset = (address - self.regions.stack_start()) as usize;
            Some(load_from(operation, &self.stack, offset))
        }
    }

    // Stores a value at an address and goes on, if it may write there.
    #[tactic(auto, unfolding(crate::specs::Table::store_result, crate::specs::Table::location_of))]
    fn store_at(&mut self, operation: StoreOperation, address: u32, value: u32) -> Event
        ensures { record { event = result; after = self.new }
            ≡ on_store self.old (store_result self.old operation address value) }
    {
        if address % size_of_store(operation) != 0 || address < self.regions.bytes_start() {
            return Event::Fault(self.pc);
        }
        if address < self.regions.bytes_end() {
            let offset = (address - self.regions.bytes_start()) as usize;
            store_in(operation, self.bytes.as_mut_slice(), offset, value);
        } else if address < self.regions.stack_start() || address >= self.regions.stack_end() {
            return Event::Fault(self.pc);
        } else {
            let offset = (address - self.regions.stack_start()) as usize;
            store_in(operation, self.stack.as_mut_slice(), offset, value);
        }
        self.pc = self.pc.wrapping_add(4);
        Event::Went
    }

    // A call of the environment.
    #[tactic(auto, unfolding(crate::specs::Table::on_call))]
    fn call(&mut self) -> Event
        ensures { record { event = result; after = self.new } ≡ on_call self.old }
    {
        let next = self.pc.wrapping_add(4);
        let first = self.register(A0);
        match self.register(A7) {
            1 => self.read_input(),
            2 => {
                self.go(next, A0, first % 256);
                Event::Out((first % 256) as u8)
            }
            3 => Event::Depth,
            10 => Event::Exited(first.cast_signed()),
            _ => Event::Fault(self.pc),
        }
    }

    // Reads the next byte of input into a0, or -1 where there is none.
    #[tactic(auto, using(crate::proofs::Effects::input_more, crate::proofs::Effects::input_end))]
    fn read_input(&mut self) -> Event
        ensures { record { event = result; after = self.new } ≡ on_input self.old self.old.input }
    {
        let next = self.pc.wrapping_add(4);
        if self.input_read < self.input.len() {
            let byte = self.input[self.input_read];
            self.input_read += 1;
            self.go(next, A0, u32::from(byte))
        } else {
            self.go(next, A0, u32::MAX)
        }
    }
}
